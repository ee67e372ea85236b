// The words of a store as a run begins.
ghost use Rattle.std.specs.Prelude.{◌<◌, ◌^◌, ◌≡◌, ◌≤◌, ℕ, IfOk, length, slice_index};
ghost use Rattle.model_base.specs.{IsWithinLimits};
ghost use Rattle.model_core.specs.{frame_words, IsWord, SharedWords, flat, wrote, Setup};
ghost use Rattle.model_log.specs.{IsAtDataStart};
ghost use Rattle.redo_apply.specs.{ArePagesOf};
ghost use Rattle.redo_drive.specs.Setups.{first_places, first_words, page_frame};
ghost use Rattle.redo_drive.specs.StartWords.{cells_word, AreNamed, AreStartWords, HoldBytes, IsBlankFrame, StartsOn, with_frame, with_log};
ghost use Rattle.redo_words.specs.{shape_layout};

use model_base::{BLOCK_SIZE, MAX_PAGE_SIZE, Shape, USER_START};
use model_core::{BUFFER_BLOCKS, READERS, WORD_LANES};
use model_log::BLOCK_HEADER;
use redo_apply::Pages;
use redo_link::tail_word;
use redo_lsn::{NoMemory, sn_of};
use redo_words::{Op, PlainWords, Word, packed};
use std::alloc::Global;

/// Gives a word its first number.
fn set(words: &mut PlainWords, word: Word, number: u64)
    requires { IsWord words.old.layout word }
    ensures layout { words.new.layout ≡ words.old.layout }
    ensures named { (m : SharedWords) → AreNamed words.old m → AreNamed words.new (wrote m word number) }
{
    let _ = words.play(Op::Store(word, number));
}

/// Up to where a reader of the log has it as a run starts: the archiver, which is number 0, up to the block of the start,
/// and each follower up to the start.
fn first_place(start: u64, reader: u32) -> u64
    requires header { BLOCK_HEADER ≤ start }
    requires there { reader < READERS }
    ensures { result ≡ slice_index (first_places start) reader }
{
    if reader == 0 {
        start - BLOCK_HEADER
    } else {
        start
    }
}

/// Gives the words of the readers of the log their places.
fn set_places(words: &mut PlainWords, start: u64)
    requires { BLOCK_HEADER ≤ start }
    ensures layout { words.new.layout ≡ words.old.layout }
    ensures named { (m : SharedWords) → AreNamed words.old m
        → AreNamed words.new (record m { places = first_places start }) }
{
    for reader in 0..READERS as u32 {
        set(words, Word::Place(reader), first_place(start, reader));
    }
}

/// Gives the words of the log their numbers, for a run that starts at this lsn.
fn set_log(words: &mut PlainWords, start: u64)
    requires header { BLOCK_HEADER ≤ start }
    requires small { start < 2 ^ 61 }
    ensures layout { words.new.layout ≡ words.old.layout }
    ensures named { (m : SharedWords) → AreNamed words.old m → AreNamed words.new (with_log start m) }
{
    set(words, Word::Sn, sn_of(start));
    set(words, Word::Write, start);
    set(words, Word::Wtail, tail_word(start, false));
    set(words, Word::Flushed, start);
    set(words, Word::Ckpt, start - BLOCK_HEADER);
    set(words, Word::Ctail, tail_word(start, false));
    let block = (start / BLOCK_SIZE % BUFFER_BLOCKS) as u32;
    set(words, Word::First(block), BLOCK_HEADER);
    set_places(words, start);
}

/// A word of a frame, by the page's user bytes.
fn frame_word(user: &[u8], number: u32) -> u64
    requires short { length user.now ≤ MAX_PAGE_SIZE }
    requires few { number < 2 ^ 29 }
    ensures { result ≡ cells_word user.now number }
{
    let first = (number * 8) as usize;
    let start = USER_START as usize;
    let from = first.max(start);
    let to = (first + 8).min(start + user.len());
    if from < to {
        packed(from - first, &user[from - start..to - start])
    } else {
        0
    }
}

/// Writes a page's user bytes into its frame, whose words are all 0.
fn set_frame(words: &mut PlainWords, page: u32, page_size: u32, user: &[u8])
    requires there { page < words.old.layout.pages }
    requires its_size { words.old.layout.page_size ≡ page_size }
    requires short { length user.now ≤ MAX_PAGE_SIZE }
    ensures layout { words.new.layout ≡ words.old.layout }
    ensures bytes { (i : ℕ) → slice_index user.now i < 256 }
    ensures named { (m : SharedWords) → AreNamed words.old m → IsBlankFrame page m → AreNamed words.new (with_frame page (page_frame page_size user.now) m) }
{
    for number in 0..page_size / WORD_LANES as u32 {
        set(words, Word::Frame(page, number), frame_word(user, number));
    }
}

/// The words of a store of this shape with these pages, on which a run starts at this lsn. Only `PlainWords::new` takes memory.
pub fn start_words(
    alloc: Global,
    shape: &Shape,
    pages: &Pages,
    start: u64,
) -> Result<PlainWords, NoMemory>
    requires limits { IsWithinLimits shape.now }
    requires its_pages { ArePagesOf shape.now pages.now }
    requires place { IsAtDataStart start }
    requires small { start < 2 ^ 61 }
    ensures layout { IfOk result (λ words. words.layout ≡ shape_layout shape.now) }
    ensures bytes { IfOk result (λ _. HoldBytes shape.now pages.now) }
    ensures first { IfOk result (λ words. words.words ≡ flat (first_words shape.now.page_size start pages.now)) }
    ensures starts { IfOk result (λ words. (c : Setup) → StartsOn start shape.now pages.now c → AreStartWords words.words c) }
{
    let mut words = PlainWords::new(alloc, shape)?;
    set_log(&mut words, start);
    for page in 0..shape.pages {
        set_frame(&mut words, page, shape.page_size, pages.user_bytes(page));
    }
    Ok(words)
}
