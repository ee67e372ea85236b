// The pages of a batch, sealed side by side as they go into the slots.
ghost use Rattle.std.specs.Prelude.{◌≡◌, ◌≤◌, ◌+◌, ◌*◌, length, take, drop};
ghost use Rattle.model_base.specs.{frame_length, IsPageSize, user_length};
ghost use Rattle.model_parts.specs.{batch_of, batch_text};
ghost use Rattle.model_page.specs.{page_text};

use model_base::{PAGE_TRAILER, Shape, USER_START};
use redo_page::seal;

/// Makes these bytes the page with these fields and user bytes.
fn fill_page(out: &mut [u8], number: u32, space: u32, lsn: u64, user: &[u8])
    requires { length out.old ≡ frame_length + length user.now }
    ensures { out.new ≡ page_text number space lsn user.now }
{
    let end = out.len() - PAGE_TRAILER as usize;
    out[USER_START as usize..end].copy_from_slice(user);
    seal(out, number, space, lsn);
}

/// Puts the pages of a batch side by side, whose user bytes are joined. What stands after them stays.
pub fn fill_texts(out: &mut [u8], shape: &Shape, batch: &[(u32, u64)], users: &[u8])
    requires size { IsPageSize shape.now.page_size }
    requires room { length batch.now * shape.now.page_size ≤ length out.old }
    requires count { length users.now ≡ length batch.now * user_length shape.now }
    ensures texts { take (length batch.now * shape.now.page_size) out.new
        ≡ batch_text shape.now (batch_of shape.now batch.now users.now) }
    ensures behind { drop (length batch.now * shape.now.page_size) out.new
        ≡ drop (length batch.now * shape.now.page_size) out.old }
{
    let page_size = shape.page_size as usize;
    let user_bytes = shape.user_bytes() as usize;
    for (i, (page, lsn)) in batch.iter().enumerate() {
        let at = i * page_size;
        let from = i * user_bytes;
        let user = &users[from..from + user_bytes];
        fill_page(&mut out[at..at + page_size], *page, shape.space, *lsn, user);
    }
}
