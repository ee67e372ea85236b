// The calls of a device that are planned to fail.
ghost use Rattle.std.specs.Prelude.{◌≡◌};
ghost use Rattle.redo_io.specs.{plan_after_call};
ghost use Rattle.redo_disk.specs.{HasCause};
ghost use Rattle.redo_memdisk.specs.Memory.{next_answer};

use redo_disk::DevError;
use redo_io::Plan;

/// Counts a call of a device, and fails it if the plan says so.
pub(crate) fn count_call(plan: &mut Plan) -> Result<(), DevError>
    ensures answer { result ≡ next_answer plan.old }
    ensures after { plan.new ≡ plan_after_call plan.old }
    ensures cause { HasCause plan.old.faults plan.new.faults result }
{
    if plan.fails() {
        Err(DevError::Failed)
    } else {
        Ok(())
    }
}
