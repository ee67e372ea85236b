// The line of a fault, written in a buffer that is there already: it is printed also when memory is short.
ghost use Rattle.std.specs.Prelude.{◌≡◌, ◌+◌, ◌++◌, ◌∷◌, [], ◌≤◌, length, take, codes};
ghost use Rattle.std.specs.Fmt.{decimal};
ghost use Rattle.model_report.specs.{fault_line, line_text, misfit_words, quantity_word, refusal_words, restore_words, status_of};

use model_archive::RestoreRefusal;
use model_report::Fault;
use model_script::{Misfit, Quantity};
use model_store::Refusal;

/// Room for each fault line, in bytes.
pub const FAULT_ROOM: usize = 64;

// Writes the bytes after the first `at` bytes, and says where they end.
fn put(out: &mut [u8; FAULT_ROOM], at: usize, bytes: &[u8]) -> usize
    requires { at + length bytes.now ≤ FAULT_ROOM }
    ensures end { result ≡ at + length bytes.now }
    ensures text { take result out.new ≡ take at out.old ++ bytes.now }
{
    let end = at + bytes.len();
    out[at..end].copy_from_slice(bytes);
    end
}

// Writes the number after the first `at` bytes, and says where its digits end.
#[tactic(auto, using(crate::proofs::Decimal::lasts))]
fn put_decimal(out: &mut [u8; FAULT_ROOM], at: usize, number: u64) -> usize
    requires { at + length (decimal number) ≤ FAULT_ROOM }
    ensures end { result ≡ at + length (decimal number) }
    ensures text { take result out.new ≡ take at out.old ++ decimal number }
{
    let digit = b'0' + (number % 10) as u8;
    if number < 10 {
        return put(out, at, &[digit]);
    }
    let last = put_decimal(out, at, number / 10);
    put(out, last, &[digit])
}

// A line of words and a number.
#[tactic(auto, using(crate::proofs::Decimal::length_decimal))]
fn put_number_line(out: &mut [u8; FAULT_ROOM], words: &[u8], number: u64) -> usize
    requires { length words.now ≤ 32 }
    ensures fits { result ≤ FAULT_ROOM }
    ensures text { take result out.new ≡ words.now ++ decimal number ++ 10 ∷ [] }
{
    let words_end = put(out, 0, words);
    let number_end = put_decimal(out, words_end, number);
    put(out, number_end, b"\n")
}

// A line of words and a number, twice.
#[tactic(auto, using(crate::proofs::Decimal::length_decimal))]
fn put_numbers_line(
    out: &mut [u8; FAULT_ROOM],
    words: &[u8],
    number: u64,
    then: &[u8],
    second: u64,
) -> usize
    requires { length words.now + length then.now ≤ 20 }
    ensures fits { result ≤ FAULT_ROOM }
    ensures text { take result out.new
        ≡ words.now ++ decimal number ++ then.now ++ decimal second ++ 10 ∷ [] }
{
    let words_end = put(out, 0, words);
    let number_end = put_decimal(out, words_end, number);
    let then_end = put(out, number_end, then);
    let second_end = put_decimal(out, then_end, second);
    put(out, second_end, b"\n")
}

// What stands before the number of a quantity that doesn't fit.
fn quantity_words(quantity: Quantity) -> &'static [u8]
    ensures words { result.now ≡ codes "fault fit " ++ quantity_word quantity ++ 32 ∷ [] }
    ensures len { length result.now ≤ 32 }
{
    match quantity {
        Quantity::Script => b"fault fit script ",
        Quantity::Log => b"fault fit log ",
        Quantity::Store => b"fault fit store ",
        Quantity::User => b"fault fit user ",
        Quantity::Page => b"fault fit page ",
        Quantity::Offset => b"fault fit offset ",
        Quantity::Group => b"fault fit group ",
        Quantity::Lsn => b"fault fit lsn ",
        Quantity::Total => b"fault fit total ",
        Quantity::Archive => b"fault fit archive ",
        Quantity::To => b"fault fit to ",
    }
}

// The line of a quantity that doesn't fit.
fn put_misfit(out: &mut [u8; FAULT_ROOM], misfit: Misfit) -> usize
    ensures fits { result ≤ FAULT_ROOM }
    ensures text { take result out.new
        ≡ line_text (codes "fault" ∷ misfit_words misfit.quantity misfit.number) }
{
    put_number_line(out, quantity_words(misfit.quantity), misfit.number)
}

// The line of a store that is refused.
fn put_refusal(out: &mut [u8; FAULT_ROOM], refusal: Refusal) -> usize
    ensures fits { result ≤ FAULT_ROOM }
    ensures text { take result out.new ≡ line_text (codes "fault" ∷ refusal_words refusal) }
{
    match refusal {
        Refusal::SmallLog(length) => put_number_line(out, b"fault fit log ", length),
        Refusal::NotFormatted => put(out, 0, b"fault store unformatted\n"),
        Refusal::BadFormat(format) => {
            put_number_line(out, b"fault store format ", u64::from(format))
        }
        Refusal::SmallData(length) => put_number_line(out, b"fault fit store ", length),
        Refusal::NoCheckpoint => put(out, 0, b"fault store checkpoint\n"),
        Refusal::BadRecord(lsn) => put_number_line(out, b"fault store record ", lsn),
        Refusal::PageLost(page) => put_number_line(out, b"fault store lost ", u64::from(page)),
        Refusal::PageAhead(page, lsn) => {
            put_numbers_line(out, b"fault store ahead ", u64::from(page), b" ", lsn)
        }
    }
}

// The line of an archive from which nothing is restored.
fn put_unrestored(out: &mut [u8; FAULT_ROOM], refusal: RestoreRefusal) -> usize
    ensures fits { result ≤ FAULT_ROOM }
    ensures text { take result out.new ≡ line_text (codes "fault" ∷ restore_words refusal) }
{
    match refusal {
        RestoreRefusal::Missing => put(out, 0, b"fault archive none\n"),
        RestoreRefusal::To(lsn) => put_number_line(out, b"fault fit to ", lsn),
        RestoreRefusal::Page(page) => {
            put_number_line(out, b"fault archive page ", u64::from(page))
        }
        RestoreRefusal::Block(lsn) => put_number_line(out, b"fault archive block ", lsn),
        RestoreRefusal::Record(lsn) => put_number_line(out, b"fault archive record ", lsn),
    }
}

/// Writes the line of the fault at the front of the buffer, and gives its length in bytes; a sink that failed has no
/// line.
#[tactic(auto, unfolding(model_report::specs::FaultLine::fault_line))]
pub fn fault_text(fault: Fault, out: &mut [u8; FAULT_ROOM]) -> usize
    ensures fits { result ≤ FAULT_ROOM }
    ensures text { take result out.new ≡ fault_line fault }
{
    match fault {
        Fault::Memory => put(out, 0, b"fault memory\n"),
        Fault::Words => put(out, 0, b"fault words\n"),
        Fault::Script(line) => put_number_line(out, b"fault script line ", line),
        Fault::Source => put(out, 0, b"fault source\n"),
        Fault::Sink => 0,
        Fault::LogDevice => put(out, 0, b"fault log device\n"),
        Fault::DataDevice => put(out, 0, b"fault data device\n"),
        Fault::ArchiveDevice => put(out, 0, b"fault archive device\n"),
        Fault::Store(refusal) => put_refusal(out, refusal),
        Fault::Archive(refusal) => put_unrestored(out, refusal),
        Fault::Turns(turns, user) => {
            put_numbers_line(out, b"fault turns ", turns, b" user ", u64::from(user))
        }
        Fault::Fit(misfit) => put_misfit(out, misfit),
    }
}

/// The exit status of the program that ends with the fault.
pub fn status_of(fault: Fault) -> u8
    ensures { result ≡ status_of fault }
{
    match fault {
        Fault::Memory => 1,
        Fault::Words => 2,
        Fault::Script(_) => 3,
        Fault::Source => 4,
        Fault::Sink => 5,
        Fault::LogDevice => 6,
        Fault::DataDevice => 7,
        Fault::ArchiveDevice => 11,
        Fault::Store(Refusal::SmallLog(_) | Refusal::SmallData(_)) => 10,
        Fault::Store(_) => 8,
        Fault::Archive(RestoreRefusal::To(_)) => 10,
        Fault::Archive(_) => 12,
        Fault::Turns(_, _) => 9,
        Fault::Fit(_) => 10,
    }
}
