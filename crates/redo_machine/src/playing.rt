// Playing the Ops of an actor.
ghost use Rattle.std.specs.Prelude.{◌≡◌, ◌≢◌, ◌==◌, ◌%◌, ◌<◌, ◌+◌, ℕ, if◌then◌else◌, slice_index, slice_set, None, is_some};
ghost use Rattle.model_core.specs.States as model;
ghost use Rattle.model_core.specs.{answer_of, Each, index, IsWord, list_answer, list_word, lists_left, oldest_end, oldest_of, words_left};
ghost use Rattle.model_core.specs.declared.limits.TheConstants.{CLOSED_LINKS};
ghost use Rattle.model_core.specs.declared.ops.Op.TheVariants as op;
ghost use Rattle.model_core.specs.declared.words.Word.TheVariants as word_is;
ghost use Rattle.redo_drive.specs.{AskOfBoth, CallOnBoth, lists_of, HasSameDevices, HasSamePages, HasWholePages, IsPlayable, IsPlayed, RunOf};
ghost use Rattle.redo_words.specs.{Lends};

use model_core::FLUSH_LISTS;
use redo_disk::Sectors;
use redo_drive::{Device, Parts, answer_of, call_batch, call_checkpoint, call_sync, call_write};
use redo_words::{Answer, Lent, Op, PlainWords, Word, old_of};

/// Takes a turn word, if it is free.
fn take_turn_word(words: &mut PlainWords, word: Word) -> bool
    requires { IsWord words.old.layout word }
    ensures free { result ≡ (slice_index words.old.words (index words.old.layout word) == 0) }
    ensures layout { words.new.layout ≡ words.old.layout }
    ensures words { words.new.words ≡ (if slice_index words.old.words (index words.old.layout word) == 0 then slice_set words.old.words (index words.old.layout word) 1 else words.old.words) }
{
    old_of(words.play(Op::Swap(word, 0, 1))) == 0
}

/// Gives a turn word back.
fn give_turn_word(words: &mut PlainWords, word: Word) -> Answer
    requires { IsWord words.old.layout word }
    ensures answer { result ≡ Answer.Taken None }
    ensures layout { words.new.layout ≡ words.old.layout }
    ensures words { words.new.words ≡ slice_set words.old.words (index words.old.layout word) 0 }
{
    let _ = words.play(Op::Store(word, 0));
    Answer::Taken(None)
}

/// The turn word of a page's flush list.
fn list_of(page: u32) -> Word
    ensures { result ≡ word_is.List (page % FLUSH_LISTS) }
{
    Word::List(page % FLUSH_LISTS as u32)
}

/// Takes the log part.
fn take_device<L: Sectors, D: Sectors>(parts: &mut Parts<L, D>) -> Answer
    ensures pages { HasSamePages parts.old parts.new }
    ensures devices { HasSameDevices parts.old parts.new }
    ensures words { parts.new.words.words ≡ words_left parts.old.words.layout parts.old.words.words op.TakeDevice }
    ensures lists { parts.new.lists ≡ parts.old.lists }
    ensures answer { (code mark : ℕ) → result ≡ answer_of parts.old.words.layout (lists_of parts.old.lists) (is_some parts.old.log.failed) code mark parts.old.words.words op.TakeDevice }
{
    if !take_turn_word(&mut parts.words, Word::Device) {
        return Answer::Held;
    }
    match parts.log.failed() {
        None => Answer::Taken(None),
        Some(_) => Answer::Broken,
    }
}

/// Takes a page's flush list, and adds the page.
fn take_add<L: Sectors, D: Sectors>(parts: &mut Parts<L, D>, page: u32, oldest: u64) -> Answer
    requires below { page < parts.old.lists.pages }
    requires unlisted { oldest_of page (lists_of parts.old.lists (page % FLUSH_LISTS)) ≡ 0 }
    requires order { Each (λ listed. listed.oldest < oldest + CLOSED_LINKS) (lists_of parts.old.lists (page % FLUSH_LISTS)) }
    requires real { Each (λ listed. 0 < listed.oldest) (lists_of parts.old.lists (page % FLUSH_LISTS)) }
    ensures pages { HasSamePages parts.old parts.new }
    ensures devices { HasSameDevices parts.old parts.new }
    ensures words { parts.new.words.words ≡ words_left parts.old.words.layout parts.old.words.words (op.TakeAdd page oldest) }
    ensures lists { lists_of parts.new.lists ≡ lists_left (lists_of parts.old.lists) (list_word parts.old.words.words) (op.TakeAdd page oldest) }
    ensures answer { result ≡ list_answer (list_word parts.old.words.words (page % FLUSH_LISTS)) None }
{
    if !take_turn_word(&mut parts.words, list_of(page)) {
        return Answer::Held;
    }
    parts.lists.add(page, oldest);
    Answer::Taken(None)
}

/// Takes a page's flush list, and removes the page.
fn take_remove<L: Sectors, D: Sectors>(parts: &mut Parts<L, D>, page: u32) -> Answer
    requires { 0 < oldest_of page (lists_of parts.old.lists (page % FLUSH_LISTS)) }
    ensures pages { HasSamePages parts.old parts.new }
    ensures devices { HasSameDevices parts.old parts.new }
    ensures words { parts.new.words.words ≡ words_left parts.old.words.layout parts.old.words.words (op.TakeRemove page) }
    ensures lists { lists_of parts.new.lists ≡ lists_left (lists_of parts.old.lists) (list_word parts.old.words.words) (op.TakeRemove page) }
    ensures answer { result ≡ list_answer (list_word parts.old.words.words (page % FLUSH_LISTS)) None }
{
    if !take_turn_word(&mut parts.words, list_of(page)) {
        return Answer::Held;
    }
    parts.lists.remove(page);
    Answer::Taken(None)
}

/// Takes a flush list, and reads the oldest modification of the page that entered it first.
fn take_oldest<L: Sectors, D: Sectors>(parts: &mut Parts<L, D>, list: u32) -> Answer
    requires { list < FLUSH_LISTS }
    ensures pages { HasSamePages parts.old parts.new }
    ensures devices { HasSameDevices parts.old parts.new }
    ensures words { parts.new.words.words ≡ words_left parts.old.words.layout parts.old.words.words (op.TakeOldest list) }
    ensures lists { parts.new.lists ≡ parts.old.lists }
    ensures answer { result ≡ list_answer (list_word parts.old.words.words list) (oldest_end (lists_of parts.old.lists list)) }
{
    if !take_turn_word(&mut parts.words, Word::List(list)) {
        return Answer::Held;
    }
    Answer::Taken(parts.lists.oldest_end(list))
}

/// Plays an Op with what its actor lends. A read of the log is none: it takes room, which would be written.
pub fn play<L: Sectors, D: Sectors>(parts: &mut Parts<L, D>, op: Op, lent: Lent<'_>) -> Answer
    requires playable { IsPlayable parts.old op lent }
    requires no_read { (lsn : ℕ) → op ≢ Op.ReadBlock lsn }
    ensures pages { HasSamePages parts.old parts.new }
    ensures played { (run : RunOf L D) (l : model.Lent) → Lends lent.entry l → HasWholePages parts.old.store.shape op l
        → IsPlayed L.seen D.seen run op l parts.old result parts.new }
    ensures asked { (l : model.Lent) → Lends lent.entry l → HasWholePages parts.old.store.shape op l → AskOfBoth L.gives D.gives l op parts.old parts.new }
    ensures calls { CallOnBoth L.gives D.gives parts.old parts.new }
{
    match op {
        Op::Load(_) | Op::Store(_, _) | Op::Add(_, _) | Op::Swap(_, _, _) => {
            parts.words.play(op)
        }
        Op::TakeDevice => take_device(parts),
        Op::GiveDevice => give_turn_word(&mut parts.words, Word::Device),
        Op::TakeAdd(page, oldest) => take_add(parts, page, oldest),
        Op::TakeRemove(page) => take_remove(parts, page),
        Op::TakeOldest(list) => take_oldest(parts, list),
        Op::GiveList(list) => give_turn_word(&mut parts.words, Word::List(list)),
        Op::WriteTo(mark) => answer_of(Device::Log, call_write(&mut parts.log, mark, lent), 0),
        Op::Sync => {
            let ended = call_sync(&mut parts.log);
            answer_of(Device::Log, ended, parts.log.stable())
        }
        Op::Checkpoint(lsn) => answer_of(Device::Log, call_checkpoint(&mut parts.log, lsn), 0),
        // a block is read into room that is written, and what is lent here is only read
        Op::ReadBlock(_) => unreachable!(),
        Op::WriteBatch => answer_of(Device::Data, call_batch(&mut parts.store, lent), 0),
        Op::Append(_) => unreachable!(),
        Op::Rest => Answer::Rested,
    }
}
