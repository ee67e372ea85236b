// The script of a seed.
ghost use Rattle.std.specs.Prelude.{◌≡◌, ◌≤◌, ◌%◌, ◌+◌, IfOk, OnOk};
ghost use Rattle.model_script.specs.{draw, drawn_bytes, drawn_item, drawn_items, drawn_line, generated_lines, generated_text, item_draws, state_after, state_after_items, state_after_line};
ghost use Rattle.model_script.specs.declared.item.Item.TheVariants.{Num};
ghost use Rattle.model_script.specs.declared.misfit.TheConstants.{MAX_USERS};

use crate::draws::Draws;
use crate::printing::push_line;
use model_base::Bytes;
use model_script::{Item, Items, Script, ScriptLine};
use redo_io::Text;
use redo_lsn::NoMemory;
use std::alloc::{AllocError, Global};

/// So many bytes, a draw each.
#[tactic(auto, using(crate::proofs::Drawing::bytes))]
fn draw_bytes(alloc: Global, count: u32, draws: &mut Draws) -> Result<Vec<u8>, AllocError>
    ensures bytes { IfOk result (λ bytes. bytes.items ≡ drawn_bytes count draws.old) }
    ensures state { OnOk result (draws.new ≡ state_after count draws.old) }
{
    let mut bytes = Vec::new(alloc);
    for _ in 0..count {
        bytes.push((draws.take() % 256) as u8)?;
    }
    Ok(bytes)
}

/// The operation that writes a number of `width` bytes.
fn number_item(width: u32, page: u32, offset: u32, value: u32) -> Item
    ensures { result ≡ Num width page offset value }
{
    Item::Num {
        width,
        page,
        offset,
        value: u64::from(value),
    }
}

/// An operation.
#[tactic(auto, using(crate::proofs::Drawing::operations))]
fn draw_item(alloc: Global, draws: &mut Draws) -> Result<Item, AllocError>
    ensures item { IfOk result (λ item. item ≡ drawn_item draws.old) }
    ensures state { OnOk result (draws.new ≡ state_after (item_draws draws.old) draws.old) }
{
    let kind = draws.take() % 6;
    let page = draws.take() % 8;
    if kind == 5 {
        return Ok(Item::Init { page });
    }
    let offset = 38 + draws.take() % 4000;
    let last = draws.take();
    match kind {
        0 => Ok(number_item(1, page, offset, last % 256)),
        1 => Ok(number_item(2, page, offset, last)),
        2 => Ok(number_item(4, page, offset, last)),
        3 => Ok(number_item(8, page, offset, last)),
        _ => Ok(Item::Text {
            page,
            offset,
            bytes: Bytes::new(draw_bytes(alloc, 1 + last % 40, draws)?),
        }),
    }
}

/// So many operations.
#[tactic(auto, using(crate::proofs::Drawing::items))]
fn draw_items(alloc: Global, count: u32, draws: &mut Draws) -> Result<Items, AllocError>
    ensures items { IfOk result (λ items. items ≡ drawn_items count draws.old) }
    ensures state { OnOk result (draws.new ≡ state_after_items count draws.old) }
{
    let mut items = Vec::new(alloc);
    for _ in 0..count {
        items.push(draw_item(alloc, draws)?)?;
    }
    Ok(Items(items))
}

/// A line of the user.
fn draw_line(alloc: Global, user: u32, draws: &mut Draws) -> Result<ScriptLine, AllocError>
    ensures line { IfOk result (λ line. line ≡ drawn_line user draws.old) }
    ensures state { OnOk result (draws.new ≡ state_after_line draws.old) }
{
    let mode = match draws.take() % 3 {
        0 => 1,
        1 => 2,
        _ => 0,
    };
    let count = 1 + draws.take() % 3;
    let items = draw_items(alloc, count, draws)?;
    Ok(ScriptLine { user, mode, items })
}

/// The user of the line of this number: the users take turns.
fn user_of(number: u64, users: u32) -> u32
    requires some { 1 ≤ users }
    requires few { users ≤ MAX_USERS }
    ensures { result ≡ 1 + number % users }
{
    1 + (number % u64::from(users)) as u32
}

/// The script of the seed: so many lines, a group each, of which the users take turns.
#[tactic(auto, using(crate::proofs::Drawing::scripts), unfolding(model_script::specs::Generator::generated_lines))]
pub fn generate_lines(alloc: Global, seed: u64, users: u32, groups: u64) -> Result<Script, NoMemory>
    requires some_users { 1 ≤ users }
    requires few_users { users ≤ MAX_USERS }
    ensures { IfOk result (λ script. script ≡ generated_lines seed users groups) }
{
    let mut draws = Draws::new(seed);
    let mut lines = Vec::new(alloc);
    for number in 0..groups {
        lines.push(draw_line(alloc, user_of(number, users), &mut draws)?)?;
    }
    Ok(Script(lines))
}

/// Its text. That takes little more memory than the text.
#[tactic(auto, using(crate::proofs::Drawing::lines), unfolding(model_script::specs::Generator::generated_text, model_script::specs::Generator::generated_lines))]
pub fn generate(alloc: Global, seed: u64, users: u32, groups: u64) -> Result<Text, NoMemory>
    requires some_users { 1 ≤ users }
    requires few_users { users ≤ MAX_USERS }

    ensures { IfOk result (λ text. text ≡ generated_text seed users groups) }
{
    let mut draws = Draws::new(seed);
    let mut text = String::new(alloc);
    for number in 0..groups {
        let line = draw_line(alloc, user_of(number, users), &mut draws)?;
        push_line(alloc, &mut text, &line)?;
        text.push_str("\n")?;
    }
    Ok(Text::new(text.into_bytes()))
}
