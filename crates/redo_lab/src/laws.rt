// What is known of every store and of every run.
ghost use Rattle.redo_lab.specs.Laws.{Laws};

use model_parts::{formatted_is_openable, openable_reads};
use model_script::unfit_is_misfit;
use model_store::{base_is_fair, one_answer, one_reading};
use model_theorem::{held_run_is_opened, held_run_reads};

/// The laws on which the commands stand.
pub(crate) fn laws()
    ensures { Laws }
{
    one_answer();
    one_reading();
    openable_reads();
    formatted_is_openable();
    held_run_reads();
    held_run_is_opened();
    unfit_is_misfit();
    base_is_fair();
}
