// Stores that are recovered, and damaged ones that are not.
use crate::fixtures::{full, see, told, told_on, torn_store};
use crate::store::{Flaw, NEVER, SOUND, Store};
use model_base::{DEFAULT_LOG_BLOCKS, DEFAULT_PAGES, DEFAULT_SPACE, EARLY_SLOTS, PAGE_SIZE, Shape};
use redo_header::Format;
use std::alloc::{AllocError, Global};
use std::process::Abort;
use std::test::Fail;

/// The default sizes of a store of format 1 or 2.
const SHAPE: Shape = Shape {
    page_size: PAGE_SIZE,
    pages: DEFAULT_PAGES,
    space: DEFAULT_SPACE,
    log_blocks: DEFAULT_LOG_BLOCKS,
    slots: EARLY_SLOTS,
};
/// Bytes of a log device of these sizes.
const LOG: u64 = 1_050_624;
/// Bytes of a data device.
const DATA: u64 = 65_536;
/// A group of one record: the byte 7 goes to offset 100 of page 3.
const GROUP: [u8; 6] = [0x81, 1, 3, 0, 100, 7];
/// It and a second one: the byte 8 goes to offset 101.
const TWO_GROUPS: [u8; 12] = [0x81, 1, 3, 0, 100, 7, 0x81, 1, 3, 0, 101, 8];
/// How a group begins that puts 489 bytes at offset 38 of page 3.
const FULL: [u8; 7] = [0x9e, 1, 3, 0, 38, 1, 0xe9];

// A row has up to four changes of a sound store, and what comes of recovering it: how many groups, up to which lsn, and the
// lsn of page 5; where no further block is read, and why, and the tail block in which the last one was found; or the fault. The
// changes are:
//     log AT BYTE            a byte of the log device, without its sector's checksum
//     sealed AT BYTE BYTE    two bytes of the log device, and its sector's checksum
//     head BLOCK FORMAT      the header of format 1 or 2 in a header block
//     tail BLOCK LSN TEXT    the block at this lsn in a tail block, with a text that is named below
//     place LSN TEXT         the same in its place
//     data SLOT AT BYTE      a byte of a slot or place; 13 is the place of page 5
//     page SLOT PAGE LSN     the page of this number, sealed with an lsn in this slot or place
//     log_sectors COUNT      the log device is so long; the sound one has 2052
//     data_sectors COUNT     the data device is so long; the sound one has 128

/// Changes of the header of a store of format 1, whose block 2 is unused. 16777217 is the format 0x01000001.
const HEADER: &str = "\
                        | 1 8722 8600
    log 20 1            | NotFormatted
    log 510 1           | NotFormatted
    sealed 20 1 1       | 1 8722 8600
    sealed 2 0 2        | NoCheckpoint
    sealed 2 0 3        | NotFormatted
    sealed 2 0 4        | BadFormat(4)
    sealed 0 1 0        | BadFormat(16777217)
    sealed 4 1 1        | 1 8722 8600
    sealed 14 32 1      | NotFormatted
    sealed 50 16 1      | NotFormatted
    sealed 54 0 0       | NotFormatted
    sealed 54 0 9       | SmallData(69632)
    sealed 54 0 65      | NotFormatted
    sealed 58 0 2       | BadRecord(8716)
    sealed 62 3 255     | NotFormatted
    sealed 62 8 1       | SmallLog(1051136)
    sealed 61 16 8      | NotFormatted
    sealed 66 0 7       | NotFormatted
    sealed 300 1 1      | 1 8722 8600
    sealed 2 0 9        | BadFormat(9)
    head 2 2            | 1 8722 8600
    sealed 2 0 9, head 2 1 | BadFormat(9)
    log 20 1, head 2 1  | 1 8722 8600
    log 20 1, head 2 2  | NoCheckpoint
    log 20 1, head 2 2, sealed 1026 0 4 | BadFormat(4)
    log_sectors 2       | SmallLog(2048)
    log_sectors 3       | SmallLog(2048)
    log_sectors 8       | SmallLog(1050624)
    log_sectors 2051    | SmallLog(1050624)
    data_sectors 120    | SmallData(65536)
    data_sectors 127    | SmallData(65536)";

/// Changes of the checkpoints and of the log's blocks in format 1.
const BLOCKS: &str = "\
    log 1536 1          | 2 8722 8600
    sealed 1542 0 2     | 2 8722 8600
    sealed 1550 34 1    | 2 8722 8600
    sealed 1558 8 0     | 2 8722 8600
    sealed 1566 0 1     | 1 8722 8600
    sealed 1544 16 0    | 2 8722 8600
    sealed 1600 1 1     | 1 8722 8600
    log 512 1           | 1 8722 8600
    log 512 1, log 1536 1 | NoCheckpoint
    log 2600 1          | 0 8716 8600
    sealed 2562 0 19    | 0 8716 8600
    sealed 2564 2 1     | 0 8716 8600
    sealed 2564 0 11    | 0 8716 8600
    sealed 2564 0 17    | 0 8716 8600
    sealed 2566 0 11    | 0 8716 8600
    sealed 2566 0 0     | 0 9228 8600
    sealed 2560 128 0   | 1 8722 8600
    sealed 2600 1 1     | 1 8722 8600
    sealed 2570 0 9     | 1 8722 8600
    sealed 2572 9 1     | BadRecord(8716)
    sealed 2573 1 8     | BadRecord(8716)
    sealed 2564 2 0, sealed 2566 0 0 | 0 9228 8600
    sealed 1550 64 0, sealed 1558 40 0 | 0 16396 8600
    sealed 2566 0 13    | 0 8717 8600
    sealed 2564 0 13, sealed 2572 31 1 | BadRecord(8716)
    sealed 2564 0 19, sealed 2576 100 129, sealed 2578 0 0 | BadRecord(8716)";

/// Where no further block is read of the same stores, and why; no block is found in a tail.
const STOPS: &str = "\
                        | (8704, Partial) None
    sealed 2562 0 19    | (8704, Misfit(Number))
    sealed 2564 2 1     | (8704, Misfit(Length))
    sealed 2564 0 11    | (8704, Misfit(Length))
    sealed 2566 0 11    | (8704, Misfit(First))
    log 2600 1          | (8704, Misfit(Checksum))
    log 2562 1          | (8704, Misfit(Number))
    sealed 2564 2 0, sealed 2566 0 0   | (9216, Misfit(Number))
    sealed 1550 64 0, sealed 1558 40 0 | (16384, Misfit(Number))";

/// Changes of the headers of a store of format 2, and how long its log device is.
const HEADS: &str = "\
                        | 1 8722 8600
    log 20 1            | 1 8722 8600
    log 1044 1          | 1 8722 8600
    head 2 1            | 1 8722 8600
    log 20 1, log 1044 1 | NotFormatted
    log 20 1, head 2 1  | NoCheckpoint
    head 0 1            | NoCheckpoint
    sealed 2 0 3        | NotFormatted
    sealed 2 0 4        | BadFormat(4)
    log 20 1, sealed 1026 0 4 | BadFormat(4)
    log 512 1, log 1536 1 | NoCheckpoint
    log_sectors 3       | SmallLog(2048)
    log_sectors 2051    | SmallLog(1050624)";

/// Changes of the blocks of a store of format 2. Its last one stands in block 4; bytes 2052..2054 have the length, 2054..2056 the
/// first offset, 2056..2060 the turn. The place of that block is at 3584.
const TAILS: &str = "\
                              | 1 8722 8600 (8704, Partial) Some(4)
    log 1536 1                | 2 8722 8600 (8704, Partial) Some(4)
    log 2100 1                | 0 8716 8600 (8704, Misfit(Number)) None
    sealed 2058 0 1           | 0 8716 8600 (8704, Misfit(Number)) None
    sealed 2056 1 0           | 0 8716 8600 (8704, Misfit(Number)) None
    sealed 2052 2 0           | 0 8716 8600 (8704, Misfit(Number)) None
    sealed 2054 0 0           | 0 9228 8600 (8704, Partial) Some(4)
    sealed 2054 0 13          | 0 8717 8600 (8704, Partial) Some(4)
    sealed 2052 0 13, sealed 2060 31 1 | BadRecord(8716)
    sealed 2052 0 19, sealed 2064 100 129, sealed 2066 0 0 | BadRecord(8716)
    sealed 1558 10 0          | 2 8722 8600 (8704, Partial) Some(4)
    sealed 1550 64 0, sealed 1558 44 0 | 0 16396 8600 (16384, Misfit(Number)) None
    tail 4 9216 one           | 0 8716 8600 (8704, Misfit(Number)) None
    tail 5 9216 two           | 1 8722 8600 (8704, Partial) Some(4)
    tail 5 8704 two           | 2 8728 8600 (8704, Partial) Some(5)
    tail 5 8704 short         | 1 8722 8600 (8704, Partial) Some(4)
    tail 5 8704 six           | 1 8722 8600 (8704, Partial) Some(4)
    tail 4 8704 six, tail 5 8704 one | BadRecord(8716)
    tail 4 8704 short, tail 5 8704 one | 1 8722 8600 (8704, Partial) Some(5)
    tail 5 8704 two, log 2660 1 | 1 8722 8600 (8704, Partial) Some(4)
    tail 5 8704 two, sealed 2570 0 1 | 1 8722 8600 (8704, Partial) Some(4)
    tail 5 8704 two, sealed 2564 2 0 | 1 8722 8600 (8704, Partial) Some(4)
    tail 5 8704 one, sealed 2058 0 1 | 1 8722 8600 (8704, Partial) Some(5)
    place 8704 two            | 1 8722 8600 (8704, Partial) Some(4)
    place 8704 two, log 2100 1 | 0 8716 8600 (8704, Misfit(Length)) None
    place 8704 two, log 2100 1, log 3700 1 | 0 8716 8600 (8704, Misfit(Checksum)) None
    place 8704 two, log 2100 1, sealed 3590 0 11 | 0 8716 8600 (8704, Misfit(First)) None
    place 8704 full           | 1 9228 8600 (9216, Misfit(Number)) None
    place 8704 full, log 3700 1 | 1 8722 8600 (8704, Partial) Some(4)
    place 8704 full, place 9216 one | 1 9228 8600 (9216, Misfit(Length)) None
    place 8704 full, tail 5 9216 one | 2 9234 8600 (9216, Partial) Some(5)
    log 1536 1, log 3172 1, page 13 5 8200 | 0 8204 8200 (8192, Misfit(Checksum)) None
    log 1536 1, log 3172 1, page 13 5 8200, tail 5 8192 one | 1 8210 8200 (8192, Partial) Some(5)";

/// Changes of the place and of the copies of page 5.
const PAGES: &str = "\
    data 13 2 1                   | 1 8722 8500
    data 13 5 238                 | 1 8722 8500
    data 13 10 238                | 1 8722 8500
    data 13 18 238                | 1 8722 8500
    data 13 24 238                | 1 8722 8500
    data 13 30 238                | 1 8722 8500
    data 13 35 238                | 1 8722 8500
    data 13 4087 238              | 1 8722 8500
    data 13 4090 238              | 1 8722 8500
    data 1 50 238                 | 1 8722 8600
    data 13 7 6                   | 1 8722 8500
    data 13 23 1                  | 1 8722 8500
    data 13 37 2                  | 1 8722 8500
    data 13 99 1                  | 1 8722 8500
    data 13 4095 1                | 1 8722 8500
    page 13 6 8600                | 1 8722 8500
    data 13 99 1, data 1 99 1     | PageLost(5)
    data 13 99 1, page 6 5 8550   | 1 8722 8550
    page 13 5 8723                | PageAhead(5, 8723)
    data 13 99 1, page 1 5 9000   | PageAhead(5, 9000)
    page 13 5 9000, data 14 0 1   | PageLost(6)
    page 10 5 8600                | PageLost(2)
    page 9 1 9000, data 10 0 1    | PageLost(2)";

/// How the text begins that has this name, and how many bytes it has: a group, two, one byte of a group, six bytes that are
/// none, and a group that fills a block.
fn text_of(name: &str) -> Option<(&'static [u8], usize)> {
    match name {
        "one" => Some((&GROUP, 6)),
        "two" => Some((&TWO_GROUPS, 12)),
        "short" => Some((&GROUP, 1)),
        "six" => Some((&[], 6)),
        "full" => Some((&FULL, 496)),
        _ => None,
    }
}

/// A sound store of the default shape and of this format. The checkpoint 0 is at 8,192 and 1 at 8,704, with a full block at the first and a group
/// of 6 bytes at the second. Page 5 has the lsn 8,600 in its place and 8,500 in slot 1; the other pages were never written.
fn sound_store(alloc: Global, format: Format) -> Result<Store, AllocError> {
    let shape = SHAPE;
    let mut store = Store::filled(alloc, 0, 8192, DATA as usize)?;
    store.format = format;
    store.log_length = LOG;
    store.put_head(&shape);
    store.put_ckpt(&shape, 0, 8192);
    store.put_ckpt(&shape, 1, 8704);
    store.put_block(&shape, 0, 8192, &full(&FULL, 5), true);
    store.put_block(&shape, 1, 8704, &GROUP, true);
    store.put_page(13, 5, 8600, 3);
    store.put_page(1, 5, 8500, 3);
    Ok(store)
}

/// A change of a row: its word, up to three numbers, and the name of a text.
#[derive(Drop)]
struct Change<'a> {
    kind: &'a str,
    numbers: [u16; 3],
    name: &'a str,
}

/// The change that this part of a row spells.
fn change_of(text: &str) -> Change<'_> {
    let (kind, rest) = text.split_once(' ').unwrap_or((text, ""));
    let mut change = Change {
        kind,
        numbers: [0; 3],
        name: "",
    };
    for (place, word) in rest.split_whitespace().enumerate() {
        match word.parse::<u16>() {
            Ok(number) => change.numbers[place.min(2)] = number,
            Err(_) => change.name = word,
        }
    }
    change
}

/// The low byte of a number.
fn low(number: u16) -> u8 {
    number.to_be_bytes()[1]
}

/// Puts the text of a change into a tail block, or into its place, if there is such a text.
fn put_text(store: &mut Store, change: &Change<'_>) -> bool {
    let Some((front, count)) = text_of(change.name) else {
        return false;
    };
    let text = full(front, 5);
    let text = &text[..count.min(496)];
    let [at, lsn, _] = change.numbers;
    if change.kind == "tail" {
        store.put_tail(at, u64::from(lsn), text, true);
    } else if 8192 <= at {
        store.put_in_place(&SHAPE, 1, u64::from(at), text, true);
    }
    true
}

/// Makes a change of a row, if it is one.
fn make(store: &mut Store, change: &Change<'_>) -> bool {
    let [at, second, third] = change.numbers;
    match change.kind {
        "" => {}
        "log" => store.put_log_byte(at, low(second)),
        "sealed" => store.put_sealed(at, &[low(second), low(third)]),
        "data" => store.put_page_byte(at, second, low(third)),
        "page" => store.put_page(at, u32::from(second), u64::from(third), 3),
        "head" if second == 1 => {
            store.put_head_block(at, Format::One, &SHAPE);
        }
        "head" => store.put_head_block(at, Format::Two, &SHAPE),
        "log_sectors" => store.log_length = 512 * u64::from(at),
        "data_sectors" => store.data_length = 512 * u64::from(at),
        "tail" | "place" => return put_text(store, change),
        _ => return false,
    }
    true
}

/// Whether what a row says comes of the sound store of this format with the changes of the row.
fn holds(alloc: Global, format: Format, row: &str) -> Result<bool, Fail> {
    let (changes, want) = row.split_once('|').ok_or("no outcome")?;
    let mut store = sound_store(alloc, format)?;
    let mut is_made = true;
    for one in changes.split(',') {
        is_made &= make(&mut store, &change_of(one.trim()));
    }
    let told = told(alloc, &store)?;
    Ok(is_made && told.contains(want.trim()))
}

/// Sees that each row of these tables holds of a store of this format.
fn see_rows(rt: &(impl Abort + AllocGlobal), format: Format, tables: &[&str]) -> Result<(), Fail> {
    for table in tables {
        for row in table.lines() {
            assert!(rt; holds(rt.alloc(), format, row)?, "{row}");
        }
    }
    Ok(())
}

#[test]
fn damaged_stores_of_format_1_are_judged(rt: HostRuntime) -> Result<(), Fail> {
    see_rows(&rt, Format::One, &[HEADER, BLOCKS, STOPS, PAGES])
}

#[test]
fn damaged_stores_of_format_2_are_judged(rt: HostRuntime) -> Result<(), Fail> {
    see_rows(&rt, Format::Two, &[HEADS, TAILS, PAGES])
}

/// What is told of a sound store of this format whose devices fail these calls.
fn told_failing(alloc: Global, format: Format, log: u64, data: u64) -> Result<String, Fail> {
    let store = sound_store(alloc, format)?;
    let (log, data) = (
        Flaw { call: log, ..SOUND },
        Flaw {
            call: data,
            ..SOUND
        },
    );
    let (mut log, mut data) = store.devices_with(alloc, log, data)?;
    Ok(told_on(alloc, &mut log, &mut data)?)
}

/// A device that fails a call of recovery ends it at once. The log device's calls are its header, in format 2 its tail blocks,
/// and a stretch of blocks; the first two of each device fill it.
#[test]
fn ends_at_a_failing_call(rt: HostRuntime) -> Result<(), Fail> {
    for (format, log, data, want) in [
        (Format::One, 2, NEVER, "LogDev"),
        (Format::One, 3, NEVER, "LogDev"),
        (Format::One, 4, NEVER, "(One, "),
        (Format::Two, 2, NEVER, "LogDev"),
        (Format::Two, 3, NEVER, "LogDev"),
        (Format::Two, 4, NEVER, "LogDev"),
        (Format::Two, 5, NEVER, "(Two, "),
        (Format::Two, NEVER, 2, "DataDev"),
    ] {
        let told = told_failing(rt.alloc(), format, log, data)?;
        assert!(rt; told.contains(want), "{told} at {log} and {data}");
    }
    Ok(())
}

/// A log that goes round after its checkpoint is read up to its end in both formats.
#[test]
fn reads_the_torn_store(rt: HostRuntime) -> Result<(), Fail> {
    for (format, want) in [
        (
            Format::One,
            "(One, [4096, 3, 1, 1024, 8], 1, 531968) (4, 2, Some(531980), 532498) 3 [0 532498 7;1 532492 5;2 9000 8;]",
        ),
        (
            Format::Two,
            "(Two, [4096, 3, 1, 1024, 8], 1, 530944) (4, 2, Some(530956), 531474) 3 [0 531474 7;1 531468 5;2 9000 8;]",
        ),
    ] {
        see(&rt, &torn_store(rt.alloc(), format)?, want)?;
    }
    Ok(())
}
