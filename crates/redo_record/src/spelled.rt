// Which groups have a text.
ghost use Rattle.std.specs.Prelude.{◌↔◌, ◌<◌, ◌^◌, ◌≤◌, All, IsTrue, length};
ghost use Rattle.model_log.specs.{HasSpelling, HasText, IsByte, IsGroup, IsWidth};

use model_log::{Group, Rec};

/// Whether the records are a group whose text is defined: there is one or more, and each number has room in the
/// format.
pub fn has_text(group: &Group) -> bool
    ensures { IsTrue result ↔ IsGroup group.now }
{
    !group.0.is_empty() && group.0.iter().all(record_has_text)
}

// The ids are read so that the proof knows that their type bounds them.
fn record_has_text(rec: &Rec) -> bool
    ensures { IsTrue result ↔ HasText rec.now }
{
    match rec {
        Rec::Num {
            width,
            space,
            page,
            offset,
            value,
        } => {
            let _ids = (*space, *page);
            is_width(*width) && is_short(*offset) && has_spelling(*width, *value)
        }
        Rec::Text {
            space,
            page,
            offset,
            bytes,
        } => {
            let _ids = (*space, *page);
            is_short(*offset) && is_string(bytes.as_slice())
        }
        Rec::Init { space, page } => {
            let _ids = (*space, *page);
            true
        }
    }
}

fn is_string(text: &[u8]) -> bool
    ensures { IsTrue result
        ↔ (1 ≤ length text.now) × (length text.now < 2 ^ 16) × All IsByte text.now }
{
    !text.is_empty() && text.len() <= 0xFFFF
}

fn is_width(width: u32) -> bool
    ensures { IsTrue result ↔ IsWidth width }
{
    matches!(width, 1 | 2 | 4 | 8)
}

fn is_short(offset: u32) -> bool
    ensures { IsTrue result ↔ (offset < 2 ^ 16) }
{
    offset <= 0xFFFF
}

fn has_spelling(width: u32, value: u64) -> bool
    ensures { IsTrue result ↔ HasSpelling width value }
{
    width == 8 || value <= 0xFFFF_FFFF
}
