// What holds of scripts. A caller learns it by citing a function that does nothing.
ghost use Rattle.std.specs.Prelude.{ℕ, ◌≡◌, ◌≤◌, ◌<◌, ◌+◌, Bool, true, List, Option, None, Some, Ok, if◌then◌else◌};
ghost use Rattle.std.specs.List.{AllByRecursion};
ghost use Rattle.model_base.specs.{IsWithinLimits};
ghost use Rattle.model_base.specs.declared.limits.TheConstants.{LSN_LIMIT};
ghost use Rattle.model_base.specs.declared.shape.Shape.{Shape};
ghost use Rattle.model_script.specs.Fit.{archive_need, first_misfit, script_end};
ghost use Rattle.model_script.specs.Fits.{ArchiveFits, Fits, LineFits, ScriptFits, IsScriptLine};
ghost use Rattle.model_script.specs.Grammar.{script_of};
ghost use Rattle.model_script.specs.declared.misfit.TheConstants.{MARGIN};
ghost use Rattle.model_script.specs.declared.script.ScriptLine.{ScriptLine};

/// A script of which no quantity is a misfit fits the store, where its lines are in their ranges.
pub fn fitting_script()
    ensures { (shape : Shape) (start : ℕ) (room_end archive : Option ℕ) (script : List ScriptLine) → IsWithinLimits shape
        → AllByRecursion IsScriptLine script → first_misfit shape start room_end archive script ≡ None
        → ScriptFits shape start room_end script }
{}

/// And the archive's device, where there is one, has room for its run.
pub fn fitting_archive()
    ensures { (shape : Shape) (start : ℕ) (room_end archive : Option ℕ) (script : List ScriptLine)
        → first_misfit shape start room_end archive script ≡ None → ArchiveFits shape start archive script }
{}

/// The lines that are read from a text are in their ranges.
pub fn read_lines_are_ranged()
    ensures { (text : List ℕ) (script : List ScriptLine) → script_of text ≡ Ok script
        → AllByRecursion IsScriptLine script }
{}

/// So a script that was read from a text, and of which no quantity is a misfit, fits the store.
pub fn fitting_text()
    ensures { (shape : Shape) (start : ℕ) (room_end archive : Option ℕ) (text : List ℕ) (script : List ScriptLine)
        → IsWithinLimits shape → script_of text ≡ Ok script → first_misfit shape start room_end archive script ≡ None
        → ScriptFits shape start room_end script }
{}

/// A script that fits the store, and whose archive has room, has no misfit: what is refused doesn't fit.
pub fn unfit_is_misfit()
    ensures { (shape : Shape) (start : ℕ) (room_end archive : Option ℕ) (script : List ScriptLine)
        → ScriptFits shape start room_end script → ArchiveFits shape start archive script
        → first_misfit shape start room_end archive script ≡ None }
{}

/// What it comes to that a script which was read fits the store: each line may run; the log ends below the limit of the
/// lsns; where no checkpoint frees it, there is room for all of it; and where it is archived, the device has room for that.
pub fn fit_as_facts()
    ensures lines { (shape : Shape) (start room : ℕ) (log_only : Bool) (archive : Option ℕ) (text : List ℕ) (script : List ScriptLine)
        → IsWithinLimits shape → script_of text ≡ Ok script → Fits shape start room log_only archive script
        → AllByRecursion (LineFits shape) script }
    ensures end { (shape : Shape) (start room : ℕ) (log_only : Bool) (archive : Option ℕ) (script : List ScriptLine)
        → Fits shape start room log_only archive script → script_end shape start script < LSN_LIMIT }
    ensures room { (shape : Shape) (start room : ℕ) (log_only : Bool) (archive : Option ℕ) (script : List ScriptLine)
        → Fits shape start room log_only archive script → log_only ≡ true
        → script_end shape start script + MARGIN ≤ room }
    ensures archive { (shape : Shape) (start room size : ℕ) (log_only : Bool) (script : List ScriptLine)
        → Fits shape start room log_only (Some size) script
        → archive_need shape start (script_end shape start script) ≤ size }
{}
