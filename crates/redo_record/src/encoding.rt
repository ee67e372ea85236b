// Writing the text of a group. Each number is spelled on the stack.
ghost use Rattle.std.specs.Prelude.{◌≡◌, ◌+◌, ◌≤◌, ◌<◌, ◌^◌, ◌∷◌, ◌++◌, length, OnOk, IfOk};
ghost use Rattle.std.specs.Int.{bytes_high_first};
ghost use Rattle.std.specs.List.{AllByRecursion, flat_map};
ghost use Rattle.model_base.specs.{spelling32, spelling64};
ghost use Rattle.model_log.specs.{after_type, group_length, group_text, HasSpelling, HasText, IsGroup, record_text, type_of, value_text};

use crate::measuring::Length;
use crate::types::{END_MARK, SINGLE, type_byte};
use model_base::MAX_GROUP;
use model_log::{Group, Rec};
use redo_lsn::{Bytes, NoMemory};
use redo_num::{put32, put64};
use std::alloc::{AllocError, Global};

/// The text of a group, of at most 8,192 bytes. One allocation is made, of its length. It fails only where memory runs
/// out.
pub fn encode(alloc: Global, group: &Group) -> Result<Bytes, NoMemory>
    requires is_group { IsGroup group.now }
    requires short { group_length group.now ≤ MAX_GROUP }
    ensures { IfOk result (λ text. text ≡ group_text group.now) }
{
    let mut text = Vec::with_capacity(alloc, group.length() as usize)?;
    append_group(&mut text, group)?;
    Ok(Bytes::new(text))
}

#[tactic(auto, unfolding(model_log::specs::Group::group_text, model_log::specs::Group::single_text))]
fn append_group(text: &mut Vec<u8>, group: &Group) -> Result<(), AllocError>
    requires { IsGroup group.now }
    ensures { OnOk result (text.new.items ≡ text.old.items ++ group_text group.now) }
{
    match group.0.as_slice() {
        [] => Ok(()),
        [only] => append_record(text, SINGLE, only),
        several => {
            append_several(text, several)?;
            text.push(END_MARK)?;
            Ok(())
        }
    }
}

#[tactic(auto, unfolding(model_log::specs::Group::record_text))]
fn append_several(text: &mut Vec<u8>, recs: &[Rec]) -> Result<(), AllocError>
    requires { AllByRecursion HasText recs.now }
    ensures { OnOk result (text.new.items ≡ text.old.items ++ flat_map record_text recs.now) }
{
    for rec in recs {
        append_record(text, 0, rec)?;
    }
    Ok(())
}

fn append_record(text: &mut Vec<u8>, flag: u8, rec: &Rec) -> Result<(), AllocError>
    requires has_text { HasText rec.now }
    requires flag { flag ≤ SINGLE }
    ensures { OnOk result
        (text.new.items ≡ text.old.items ++ (flag + type_of rec.now) ∷ after_type rec.now) }
{
    text.push(flag + type_byte(rec))?;
    match rec {
        Rec::Num {
            width,
            space,
            page,
            offset,
            value,
        } => {
            append_page(text, *space, *page)?;
            append_short(text, *offset)?;
            append_value(text, *width, *value)
        }
        Rec::Text {
            space,
            page,
            offset,
            bytes,
        } => {
            append_page(text, *space, *page)?;
            append_short(text, *offset)?;
            append_string(text, bytes.as_slice())
        }
        Rec::Init { space, page } => append_page(text, *space, *page),
    }
}

fn append_page(text: &mut Vec<u8>, space: u32, page: u32) -> Result<(), AllocError>
    ensures { OnOk result
        (text.new.items ≡ text.old.items ++ (spelling32 space ++ spelling32 page)) }
{
    append32(text, space)?;
    append32(text, page)
}

fn append_value(text: &mut Vec<u8>, width: u32, value: u64) -> Result<(), AllocError>
    requires { HasSpelling width value }
    ensures { OnOk result (text.new.items ≡ text.old.items ++ value_text width value) }
{
    if width == 8 {
        append64(text, value)
    } else {
        append32(text, value as u32)
    }
}

fn append_string(text: &mut Vec<u8>, string: &[u8]) -> Result<(), AllocError>
    requires { length string.now < 2 ^ 16 }
    ensures { OnOk result
        (text.new.items ≡ text.old.items ++ (bytes_high_first 2 (length string.now) ++ string.now)) }
{
    append_short(text, string.len() as u32)?;
    text.extend_from_slice(string)
}

fn append_short(text: &mut Vec<u8>, number: u32) -> Result<(), AllocError>
    requires { number < 2 ^ 16 }
    ensures { OnOk result (text.new.items ≡ text.old.items ++ bytes_high_first 2 number) }
{
    text.extend_from_slice(&(number as u16).to_be_bytes())
}

fn append32(text: &mut Vec<u8>, number: u32) -> Result<(), AllocError>
    ensures { OnOk result (text.new.items ≡ text.old.items ++ spelling32 number) }
{
    let mut spelling = [0; 5];
    let length = put32(&mut spelling, 0, number);
    text.extend_from_slice(&spelling[..length])
}

fn append64(text: &mut Vec<u8>, number: u64) -> Result<(), AllocError>
    ensures { OnOk result (text.new.items ≡ text.old.items ++ spelling64 number) }
{
    let mut spelling = [0; 9];
    let length = put64(&mut spelling, 0, number);
    text.extend_from_slice(&spelling[..length])
}
