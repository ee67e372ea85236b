// The lines of pages.
ghost use Rattle.std.specs.Prelude.{◌≡◌, ◌++◌, OnOk, IfOk};
ghost use Rattle.std.specs.String.{string_bytes};
ghost use Rattle.model_report.specs.{hex_word, page_line, page_lines, trimmed};

use model_page::Content;
use redo_io::Text;
use redo_lsn::NoMemory;
use std::alloc::{AllocError, Global};

// The bytes without the zeros at their end.
#[tactic(auto, using(crate::proofs::Trim::trimmed_zero, crate::proofs::Trim::trimmed_some))]
fn trimmed(bytes: &[u8]) -> &[u8]
    ensures { result.now ≡ trimmed bytes.now }
{
    let mut used = bytes.len();
    while used > 0 && bytes[used - 1] == 0 {
        used -= 1;
    }
    &bytes[..used]
}

// The bytes as hex digits, or a dash if there are none.
fn hex_word(alloc: Global, bytes: &[u8]) -> Result<String, AllocError>
    ensures { IfOk result (λ word. string_bytes word ≡ hex_word bytes.now) }
{
    if bytes.is_empty() {
        return String::from_str(alloc, "-");
    }
    hex::encode(alloc, bytes)
}

#[tactic(auto, unfolding(model_report::specs::Listing::page_line))]
fn push_page(
    alloc: Global,
    text: &mut String,
    number: usize,
    page: &Content,
) -> Result<(), AllocError>
    ensures { OnOk result
        (string_bytes text.new ≡ string_bytes text.old ++ page_line number page.now) }
{
    let user = hex_word(alloc, trimmed(page.user.as_slice()))?;
    writeln!(text, "p {number} {} {user}", page.lsn)
}

/// Writes the line of each page that a group has changed at the end of the text.
#[tactic(auto, using(crate::proofs::PageLines::page_steps), unfolding(model_report::specs::Listing::page_lines))]
pub fn push_pages(alloc: Global, text: &mut String, pages: &[Content]) -> Result<(), AllocError>
    ensures { OnOk result
        (string_bytes text.new ≡ string_bytes text.old ++ page_lines pages.now) }
{
    for (number, page) in pages.iter().enumerate() {
        if page.lsn > 0 {
            push_page(alloc, text, number, page)?;
        }
    }
    Ok(())
}

/// The line of each page that a group has changed: its number, its lsn and its user bytes.
pub fn pages_text(alloc: Global, pages: &[Content]) -> Result<Text, NoMemory>
    ensures { IfOk result (λ text. text ≡ page_lines pages.now) }
{
    let mut text = String::new(alloc);
    push_pages(alloc, &mut text, pages)?;
    Ok(Text::new(text.into_bytes()))
}
