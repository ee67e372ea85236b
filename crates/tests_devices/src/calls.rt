// What the calls of the two sides answer, over devices in memory.
ghost use Rattle.std.specs.Prelude.{◌≡◌, ◌<◌, length, None};
ghost use Rattle.model_base.specs.{default_shape};
ghost use Rattle.model_base.specs.declared.limits.TheConstants.{EARLY_SLOTS};

use crate::parts::{DATA, LOG, START, USER, blank, data_part_on, log_part_on};
use model_base::LSN_LIMIT;
use redo_disk::{DevError, Sectors};
use redo_drive::{Device, answer_of, call_checkpoint, call_sync};
use redo_memdisk::Fused;
use redo_store::DataPart;
use redo_words::Answer;
use std::test::Fail;

/// A call of the log is answered as good where the device does what it is asked, and by 1 where it stops.
#[test]
fn log_calls_are_good_or_answer_1(rt: HostRuntime) -> Result<(), Fail> {
    let device = Fused::new(blank(rt.alloc(), LOG)?, None);
    let mut part = log_part_on(&rt, rt.alloc(), device);
    let ended = part.write_to(START, &[], &[]);
    assert!(rt; answer_of(Device::Log, ended, 0) == Answer::Called(0));
    let device = Fused::new(blank(rt.alloc(), LOG)?, None);
    let mut part = log_part_on(&rt, rt.alloc(), device);
    let ended = call_checkpoint(&mut part, START - 12);
    assert!(rt; answer_of(Device::Log, ended, 0) == Answer::Called(0));
    let device = Fused::new(blank(rt.alloc(), LOG)?, Some(0));
    let mut part = log_part_on(&rt, rt.alloc(), device);
    let ended = call_sync(&mut part);
    assert!(rt; answer_of(Device::Log, ended, part.stable()) == Answer::Failed(1));
    Ok(())
}

/// Writes page 3.
fn write_one<D: Sectors>(part: &mut DataPart<D>, lsn: u64, users: &[u8]) -> Result<(), DevError>
    requires live { part.old.failed ≡ None }
    requires shape { part.old.shape ≡ record default_shape { slots = EARLY_SLOTS } }
    requires small_lsn { lsn < LSN_LIMIT }
    requires count { length users.now ≡ USER }
{
    part.write_batch(&[(3, lsn)], users)
}

/// The data side's call is answered as good where the device does what it is asked, and by 2 where it stops.
#[test]
fn the_data_call_is_good_or_answers_2(rt: HostRuntime) -> Result<(), Fail> {
    for (limit, want) in [(None, Answer::Called(0)), (Some(3), Answer::Failed(2))] {
        let device = Fused::new(blank(rt.alloc(), DATA)?, limit);
        let mut part = data_part_on(&rt, rt.alloc(), device);
        let ended = write_one(&mut part, 9_000, &[7; USER]);
        assert!(rt; answer_of(Device::Data, ended, 0) == want);
    }
    Ok(())
}
