// The operations of a script line.
ghost use Rattle.std.specs.Prelude.{◌≡◌, ◌+◌, ◌^◌, ◌∷◌, [], IfSome, IfOk};
ghost use Rattle.model_log.specs.{IsWidth};
ghost use Rattle.model_script.specs.{hex_bytes, item_of, number_item, text_item, width_of, words_of};

use crate::cut::cut;
use crate::number::{number_up_to, small_number_up_to};
use hex::FromHexError;
use model_base::Bytes;
use model_script::Item;
use std::alloc::{AllocError, Global};

// The bytes that hex digits name.
#[tactic(auto, unfolding(model_script::specs::Grammar::hex_bytes))]
fn hex_bytes(alloc: Global, text: &[u8]) -> Result<Option<Bytes>, AllocError>
    ensures { IfOk result (λ bytes. bytes ≡ hex_bytes text.now) }
{
    if text.is_empty() {
        return Ok(None);
    }
    match hex::decode(alloc, text) {
        Ok(bytes) => Ok(Some(Bytes::new(bytes))),
        Err(FromHexError::OutOfMemory) => Err(AllocError),
        Err(_) => Ok(None),
    }
}

// The width that the name of an operation gives, in bytes.
fn width_of(name: &[u8]) -> Option<u32>
    ensures value { result ≡ width_of name.now }
    ensures width { IfSome result IsWidth }
{
    match name {
        b"b1" => Some(1),
        b"b2" => Some(2),
        b"b4" => Some(4),
        b"b8" => Some(8),
        _ => None,
    }
}

// The greatest number of the width.
fn max_of(width: u32) -> u64
    requires { IsWidth width }
    ensures { result + 1 ≡ 256 ^ width }
{
    match width {
        1 => 0xff,
        2 => 0xffff,
        4 => 0xffff_ffff,
        _ => u64::MAX,
    }
}

// The operation that writes a number of the width.
fn number_item(width: u32, page: &[u8], offset: &[u8], value: &[u8]) -> Option<Item>
    requires { IsWidth width }
    ensures { result ≡ number_item width page.now offset.now value.now }
{
    let page = small_number_up_to(page, u32::MAX)?;
    let offset = small_number_up_to(offset, 0xffff)?;
    let value = number_up_to(value, max_of(width))?;
    Some(Item::Num {
        width,
        page,
        offset,
        value,
    })
}

// The operation that writes a string.
fn text_item(
    alloc: Global,
    page: &[u8],
    offset: &[u8],
    digits: &[u8],
) -> Result<Option<Item>, AllocError>
    ensures { IfOk result (λ item. item ≡ text_item page.now offset.now digits.now) }
{
    let Some(page) = small_number_up_to(page, u32::MAX) else {
        return Ok(None);
    };
    let Some(offset) = small_number_up_to(offset, 0xffff) else {
        return Ok(None);
    };
    let bytes = hex_bytes(alloc, digits)?;
    Ok(bytes.map(|bytes| Item::Text {
        page,
        offset,
        bytes,
    }))
}

// The operation that sets a page's user bytes to 0.
#[tactic(auto, unfolding(model_script::specs::Grammar::item_of))]
fn init_item(name: &[u8], page: &[u8]) -> Option<Item>
    ensures { result ≡ item_of (name.now ∷ page.now ∷ []) }
{
    if name != b"i".as_slice() {
        return None;
    }
    let page = small_number_up_to(page, u32::MAX)?;
    Some(Item::Init { page })
}

// The operation that writes a number or a string.
#[tactic(auto, unfolding(model_script::specs::Grammar::item_of))]
fn write_item(
    alloc: Global,
    name: &[u8],
    page: &[u8],
    offset: &[u8],
    value: &[u8],
) -> Result<Option<Item>, AllocError>
    ensures { IfOk result
        (λ item. item ≡ item_of (name.now ∷ page.now ∷ offset.now ∷ value.now ∷ [])) }
{
    if name == b"s".as_slice() {
        return text_item(alloc, page, offset, value);
    }
    let Some(width) = width_of(name) else {
        return Ok(None);
    };
    Ok(number_item(width, page, offset, value))
}

// The operation that writes, whose words after the page these are.
#[tactic(auto, using(crate::proofs::WordLemmas::other_words))]
fn read_write(
    alloc: Global,
    name: &[u8],
    page: &[u8],
    words: &[u8],
) -> Result<Option<Item>, AllocError>
    ensures { IfOk result
        (λ item. item ≡ item_of (name.now ∷ page.now ∷ words_of words.now)) }
{
    let (offset, rest) = cut(words, b' ');
    let Some(rest) = rest else {
        return Ok(None);
    };
    let (value, more) = cut(rest, b' ');
    match more {
        None => write_item(alloc, name, page, offset, value),
        Some(_) => Ok(None),
    }
}

/// The operation that the text is.
#[tactic(auto, using(crate::proofs::WordLemmas::other_words))]
pub fn read_item(alloc: Global, text: &[u8]) -> Result<Option<Item>, AllocError>
    ensures { IfOk result (λ item. item ≡ item_of (words_of text.now)) }
{
    let (name, Some(rest)) = cut(text, b' ') else {
        return Ok(None);
    };
    match cut(rest, b' ') {
        (page, None) => Ok(init_item(name, page)),
        (page, Some(rest)) => read_write(alloc, name, page, rest),
    }
}
