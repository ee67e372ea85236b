// One line of a script.
ghost use Rattle.std.specs.Prelude.{◌≡◌, IfOk};
ghost use Rattle.redo_script.specs.Cut.{parts_behind};
ghost use Rattle.model_script.specs.{items_of, line_from, mode_of, script_line_of, words_of};
ghost use Rattle.redo_script.specs.Progress.{after_items};

use crate::cut::cut;
use crate::number::small_number_up_to;
use crate::operation::read_item;
use model_script::{Item, Items, ScriptLine};
use std::alloc::{AllocError, Global};

// When a commit of this mode is answered.
fn mode_of(name: &[u8]) -> Option<u32>
    ensures { result ≡ mode_of name.now }
{
    match name {
        b"f" => Some(1),
        b"w" => Some(2),
        b"n" => Some(0),
        _ => None,
    }
}

// The operations that were read, and then those of the rest of the line.
#[tactic(auto, using(crate::proofs::ItemLemmas::steps))]
fn read_others(
    alloc: Global,
    mut items: Vec<Item>,
    mut rest: Option<&[u8]>,
) -> Result<Option<Items>, AllocError>
    ensures { IfOk result
        (λ all. all ≡ after_items items.items (items_of (parts_behind 59 rest.entry))) }
{
    while let Some(text) = rest {
        let (operation, behind) = cut(text, b';');
        let Some(item) = read_item(alloc, operation)? else {
            return Ok(None);
        };
        items.push(item)?;
        rest = behind;
    }
    Ok(Some(Items(items)))
}

// The line of a user and a mode, whose operations stand in the words and then in the others.
fn read_fields(
    alloc: Global,
    user: &[u8],
    mode: &[u8],
    words: &[u8],
    others: Option<&[u8]>,
) -> Result<Option<ScriptLine>, AllocError>
    ensures { IfOk result
        (λ line. line ≡ line_from user.now mode.now (words_of words.now) (parts_behind 59 others.entry)) }
{
    let Some(user) = small_number_up_to(user, u32::MAX) else {
        return Ok(None);
    };
    let Some(mode) = mode_of(mode) else {
        return Ok(None);
    };
    let Some(item) = read_item(alloc, words)? else {
        return Ok(None);
    };
    let items = read_others(alloc, vec![in alloc; item]?, others)?;
    Ok(items.map(|items| ScriptLine { user, mode, items }))
}

/// The line that the text is.
#[tactic(auto, using(crate::proofs::ItemLemmas::no_words), unfolding(model_script::specs::Grammar::script_line_of))]
pub fn read_line(alloc: Global, text: &[u8]) -> Result<Option<ScriptLine>, AllocError>
    ensures { IfOk result (λ line. line ≡ script_line_of text.now) }
{
    let (first, others) = cut(text, b';');
    let (user, words) = cut(first, b' ');
    let Some(words) = words else {
        return Ok(None);
    };
    let (mode, words) = cut(words, b' ');
    let Some(words) = words else {
        return Ok(None);
    };
    read_fields(alloc, user, mode, words, others)
}
