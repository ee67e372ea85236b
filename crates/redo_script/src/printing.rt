// Operations and lines as they are printed: numbers in decimal without leading zeros, strings in lower-case hex digits.
ghost use Rattle.std.specs.Prelude.{◌≡◌, ◌∷◌, ◌++◌, OnOk};
ghost use Rattle.std.specs.List.{flat_map};
ghost use Rattle.std.specs.String.{string_bytes};
ghost use Rattle.model_script.specs.{item_text, items_text, mode_name, script_line_text};
ghost use Rattle.model_script.specs.declared.item.Item.TheVariants.{Num, Text, Init};

use model_script::{Item, ScriptLine};
use std::alloc::{AllocError, Global};

/// Writes the operation that writes a number of `width` bytes at the end of the text.
#[tactic(auto, unfolding(model_script::specs::Grammar::item_text))]
pub fn push_number(
    text: &mut String,
    width: u32,
    page: u32,
    offset: u32,
    value: u64,
) -> Result<(), AllocError>
    ensures { OnOk result
        (string_bytes text.new ≡ string_bytes text.old ++ item_text (Num width page offset value)) }
{
    write!(text, "b{width} {page} {offset} {value}")
}

/// Writes the operation that writes these bytes at the end of the text.
#[tactic(auto, unfolding(model_script::specs::Grammar::item_text))]
pub fn push_string(
    alloc: Global,
    text: &mut String,
    page: u32,
    offset: u32,
    bytes: &[u8],
) -> Result<(), AllocError>
    ensures { OnOk result
        (string_bytes text.new ≡ string_bytes text.old ++ item_text (Text page offset bytes.now)) }
{
    let digits = hex::encode(alloc, bytes)?;
    write!(text, "s {page} {offset} {digits}")
}

/// Writes the operation that sets the user bytes of a page to 0 at the end of the text.
#[tactic(auto, unfolding(model_script::specs::Grammar::item_text))]
pub fn push_init(text: &mut String, page: u32) -> Result<(), AllocError>
    ensures { OnOk result (string_bytes text.new ≡ string_bytes text.old ++ item_text (Init page)) }
{
    write!(text, "i {page}")
}

fn push_item(alloc: Global, text: &mut String, item: &Item) -> Result<(), AllocError>
    ensures { OnOk result (string_bytes text.new ≡ string_bytes text.old ++ item_text item.now) }
{
    match item {
        Item::Num {
            width,
            page,
            offset,
            value,
        } => push_number(text, *width, *page, *offset, *value),
        Item::Text {
            page,
            offset,
            bytes,
        } => push_string(alloc, text, *page, *offset, bytes.as_slice()),
        Item::Init { page } => push_init(text, *page),
    }
}

// Each operation after a semicolon.
fn push_others(alloc: Global, text: &mut String, items: &[Item]) -> Result<(), AllocError>
    ensures { OnOk result
        (string_bytes text.new ≡ string_bytes text.old ++ flat_map (λ item. 59 ∷ item_text item) items.now) }
{
    for item in items {
        text.push_str(";")?;
        push_item(alloc, text, item)?;
    }
    Ok(())
}

#[tactic(auto, using(crate::proofs::ItemTexts::joined))]
fn push_items(alloc: Global, text: &mut String, items: &[Item]) -> Result<(), AllocError>
    ensures { OnOk result (string_bytes text.new ≡ string_bytes text.old ++ items_text items.now) }
{
    let Some((first, others)) = items.split_first() else {
        return Ok(());
    };
    push_item(alloc, text, first)?;
    push_others(alloc, text, others)
}

fn mode_name(mode: u32) -> &'static str
    ensures { result.now ≡ mode_name mode }
{
    match mode {
        1 => "f",
        2 => "w",
        _ => "n",
    }
}

/// Writes the line at the end of the text, without a line feed.
#[tactic(auto, unfolding(model_script::specs::Grammar::script_line_text))]
pub fn push_line(alloc: Global, text: &mut String, line: &ScriptLine) -> Result<(), AllocError>
    ensures { OnOk result
        (string_bytes text.new ≡ string_bytes text.old ++ script_line_text line.now) }
{
    let mode = mode_name(line.mode);
    write!(text, "{} {mode} ", line.user)?;
    push_items(alloc, text, line.items.0.as_slice())
}
