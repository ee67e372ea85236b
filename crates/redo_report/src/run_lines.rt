// The lines of a report, each written at the end of a text.
ghost use Rattle.std.specs.Prelude.{◌≡◌, ◌++◌, OnOk};
ghost use Rattle.std.specs.String.{string_bytes};
ghost use Rattle.model_report.specs.{follow_line, group_line, left_line, marks_line, open_line, state_word};

use model_report::{Entry, Followed, Marks, State};
use std::alloc::{AllocError, Global};

// How a group's commit stands, as one word.
fn state_word(state: State) -> &'static str
    ensures { result.now ≡ state_word state }
{
    match state {
        State::Lost => "lost",
        State::Flushed => "flushed",
        State::Written => "written",
        State::Copied => "copied",
    }
}

pub fn push_open(text: &mut String, start: Option<u64>) -> Result<(), AllocError>
    ensures { OnOk result (string_bytes text.new ≡ string_bytes text.old ++ open_line start) }
{
    match start {
        None => text.push_str("open none\n"),
        Some(lsn) => writeln!(text, "open {lsn}"),
    }
}

pub fn push_group(text: &mut String, entry: Entry) -> Result<(), AllocError>
    ensures { OnOk result (string_bytes text.new ≡ string_bytes text.old ++ group_line entry) }
{
    let word = state_word(entry.state);
    writeln!(
        text,
        "g {} {} {} {} {word}",
        entry.start, entry.end, entry.user, entry.k
    )
}

pub fn push_left(text: &mut String, left: (u32, u64)) -> Result<(), AllocError>
    ensures { OnOk result (string_bytes text.new ≡ string_bytes text.old ++ left_line left) }
{
    writeln!(text, "left {} {}", left.0, left.1)
}

pub fn push_marks(text: &mut String, marks: Option<Marks>) -> Result<(), AllocError>
    ensures { OnOk result (string_bytes text.new ≡ string_bytes text.old ++ marks_line marks) }
{
    match marks {
        None => Ok(()),
        Some(marks) => writeln!(
            text,
            "marks {} {} {} {}",
            marks.wtail, marks.write, marks.flushed, marks.ckpt
        ),
    }
}

pub fn push_follow(alloc: Global, text: &mut String, followed: Followed) -> Result<(), AllocError>
    ensures { OnOk result (string_bytes text.new ≡ string_bytes text.old ++ follow_line followed) }
{
    let digits = hex::encode(alloc, followed.crc.to_be_bytes().as_slice())?;
    writeln!(
        text,
        "follow {} {} {} {digits}",
        followed.number, followed.count, followed.lsn
    )
}
