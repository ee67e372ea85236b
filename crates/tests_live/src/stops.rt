// A log device that fails while users commit.
use crate::commits::{Told, see_told};
use crate::store::Way;
use redo_live::Refused;
use std::process::Abort;
use std::test::Fail;

/// The picks that keep no write, every other write, and all of them.
const PICKS: [u64; 3] = [0, 0x5555_5555_5555_5555, u64::MAX];

/// How many commits weren't answered, each with the code of the log device. Sees that they are the last ones of their users.
fn see_refused(rt: &impl Abort, told: &[Told]) -> usize {
    let mut count = 0usize;
    for (k, one) in told.iter().enumerate() {
        if one.answer.is_err() {
            let all = told[k..].iter().all(|later| later.place != one.place
                || later.answer == Err(Refused::Device(1)));
            assert!(rt; all, "{told:?}");
            count = count.wrapping_add(1);
        }
    }
    count
}

/// A commit in mode f needs a write of the log and a sync: where the first of these is stopped, at most the first one of each user is
/// answered, which waits for neither. Two users make eight commits, which need sixteen calls at most.
#[test]
fn a_failure_refuses_all_later_commits(rt: HostRuntime) -> Result<(), Fail> {
    for log_only in [true, false] {
        for calls in [0, 1, 2, 3, 4, 5, 6, 60] {
            let way = Way {
                users: 2,
                log_only,
                log_calls: Some(calls),
                drops: calls % 2 == 1,
                pick: PICKS[(calls % 3) as usize],
            };
            let (told, code) = see_told(&rt, way)?;
            let refused = see_refused(&rt, told.as_slice());
            assert!(&rt; refused == 0 || code == 1, "{way:?} {code}");
            assert!(&rt; calls != 60 || refused == 0, "{told:?}");
            assert!(&rt; 1 < calls || 6 <= refused, "{told:?}");
        }
    }
    Ok(())
}
