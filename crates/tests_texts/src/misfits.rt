// What of a script doesn't fit a store.
use crate::rows::{columns, text_of};
use model_base::{DEFAULT_LOG_BLOCKS, DEFAULT_PAGES, DEFAULT_SPACE, PAGE_SIZE, SLOTS, Shape};
use redo_script::{judge, parse};
use std::alloc::{AllocError, Global};
use std::test::Fail;

const DEFAULT: Shape = Shape {
    page_size: PAGE_SIZE,
    pages: DEFAULT_PAGES,
    space: DEFAULT_SPACE,
    log_blocks: DEFAULT_LOG_BLOCKS,
    slots: SLOTS,
};
// Where a log that no checkpoint frees has one round of room.
const ROOM_END: Option<u64> = Some(1_055_744);

// What is judged of a script for a store of the default sizes whose run starts after its first block header, with an
// archive on a device of so many bytes.
fn judged_with(
    alloc: Global,
    text: &str,
    room_end: Option<u64>,
    archive: Option<u64>,
) -> Result<String, Fail> {
    let script = parse(alloc, text.as_bytes())?;
    let judged = judge(alloc, &DEFAULT, 8_204, room_end, archive, &script);
    Ok(format!(in alloc; "{judged:?}")?)
}

// The same without an archive.
fn judged(alloc: Global, text: &str, room_end: Option<u64>) -> Result<String, Fail> {
    judged_with(alloc, text, room_end, None)
}

// Below the first line: a script, and what is judged of it.
const SCRIPTS: &str = r#"
""                           | Ok(())
"1 f b1 3 100 7"             | Ok(())
"16 f b8 7 4080 7"           | Ok(())
"17 f i 3"                   | Err(Misfit(Misfit { quantity: User, number: 17 }))
"0 f i 9"                    | Err(Misfit(Misfit { quantity: User, number: 0 }))
"1 f b1 9 100 7"             | Err(Misfit(Misfit { quantity: Page, number: 9 }))
"1 f i 3;b1 3 37 7"          | Err(Misfit(Misfit { quantity: Offset, number: 37 }))
"1 f b2 3 4087 7"            | Err(Misfit(Misfit { quantity: Offset, number: 4087 }))
"1 f b1 8 37 7"              | Err(Misfit(Misfit { quantity: Page, number: 8 }))
"1 f i 3\n2 f i 8\n17 f i 3" | Err(Misfit(Misfit { quantity: Page, number: 8 }))
"#;

#[test]
fn scripts_that_dont_fit(rt: HostRuntime) -> Result<(), Fail> {
    let alloc = rt.alloc();
    for row in SCRIPTS.lines().skip(1) {
        let (text, want) = columns(row);
        let found = judged(alloc, &text_of(alloc, text)?, ROOM_END)?;
        assert!(rt; found.as_str() == want, "of {row}");
    }
    Ok(())
}

// A line that writes three strings to three pages, the last of this length and the others of 4,050 bytes.
fn three_strings(alloc: Global, last: usize) -> Result<String, AllocError> {
    let digits = "ab".repeat(alloc, 4_050)?;
    let last = "ab".repeat(alloc, last)?;
    format!(in alloc; "1 f s 0 38 {digits};s 1 38 {digits};s 2 38 {last}\n")
}

const GROUP: &str = "Err(Misfit(Misfit { quantity: Group, number: 8193 }))";

const TOTAL: &str = "Err(Misfit(Misfit { quantity: Total, number: 1107516 }))";

#[test]
fn long_scripts(rt: HostRuntime) -> Result<(), Fail> {
    let alloc = rt.alloc();
    let line = three_strings(alloc, 70)?;
    assert!(rt; judged(alloc, &three_strings(alloc, 71)?, None)?.as_str() == GROUP);
    assert!(rt; judged(alloc, &line, ROOM_END)?.as_str() == "Ok(())");
    let many = line.as_str().repeat(alloc, 130)?;
    assert!(rt; judged_with(alloc, &many, ROOM_END, Some(0))?.as_str() == TOTAL);
    assert!(rt; judged(alloc, &many, None)?.as_str() == "Ok(())");
    Ok(())
}

const ARCHIVE: &str = "Err(Misfit(Misfit { quantity: Archive, number: 34816 }))";

// A group of six bytes, and one that fills the block, after which the log ends in the next one.
#[test]
fn scripts_whose_archive_has_no_room(rt: HostRuntime) -> Result<(), Fail> {
    let alloc = rt.alloc();
    let digits = "ab".repeat(alloc, 489)?;
    let full = format!(in alloc; "1 f s 3 38 {digits}")?;
    for (text, archive, want) in [
        ("1 f b1 3 100 7", 34_304, ARCHIVE),
        ("1 f b1 3 100 7", 34_816, "Ok(())"),
        ("", 34_815, ARCHIVE),
        (
            full.as_str(),
            34_816,
            "Err(Misfit(Misfit { quantity: Archive, number: 35328 }))",
        ),
        (
            "1 f b1 9 100 7",
            0,
            "Err(Misfit(Misfit { quantity: Page, number: 9 }))",
        ),
    ] {
        let found = judged_with(alloc, text, None, Some(archive))?;
        assert!(rt; found.as_str() == want, "of {text}");
    }
    Ok(())
}
