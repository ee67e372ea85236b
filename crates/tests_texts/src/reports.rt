// The report of a run, and what is restored, as text.
use model_report::{Followed, Marks};
use redo_report::{report, restored};
use std::test::Fail;

const MARKS: Marks = Marks {
    wtail: 8204,
    write: 8204,
    flushed: 8204,
    ckpt: 8192,
};

// Neither has handed on a group.
const FOLLOWS: [Followed; 2] = [
    Followed {
        number: 1,
        count: 0,
        lsn: 8204,
        crc: 0,
    },
    Followed {
        number: 2,
        count: 0,
        lsn: 8204,
        crc: 0,
    },
];

#[test]
fn report_of_two_followers(rt: HostRuntime) -> Result<(), Fail> {
    let follows = FOLLOWS.as_slice();
    let text = report(rt.alloc(), Some(8204), &[], &[], Some(MARKS), follows, None)?;
    let lines =
        "open 8204\nmarks 8204 8204 8204 8192\nfollow 1 0 8204 00000000\nfollow 2 0 8204 00000000\n";
    assert!(rt; text.as_slice() == lines.as_bytes());
    Ok(())
}

#[test]
fn text_of_no_group_restored(rt: HostRuntime) -> Result<(), Fail> {
    let text = restored(rt.alloc(), 0, 8204, &[])?;
    assert!(rt; text.as_slice() == b"restored 0 8204\n".as_slice());
    Ok(())
}
