// What holds of scripts. A caller learns it by calling a function that does nothing.
ghost use Rattle.std.specs.Prelude.{◌≡◌, ◌≤◌, ℕ, List, Some, Ok};
ghost use Rattle.std.specs.List.{AllByRecursion};
ghost use Rattle.model_script.specs.{generated_lines, generated_text, IsInRange, IsScriptLine, item_of, item_text, script_line_of, script_line_text, script_of, script_text, words_of};
ghost use Rattle.model_script.specs.declared.item.Item.{Item};
ghost use Rattle.model_script.specs.declared.misfit.TheConstants.{MAX_USERS};
ghost use Rattle.model_script.specs.declared.script.ScriptLine.{ScriptLine};

/// An operation whose numbers are in their ranges is read back from its text as that operation.
pub fn printed_operation_reads_back()
    ensures { (item : Item) → IsInRange item → item_of (words_of (item_text item)) ≡ Some item }
{}

/// A line whose numbers are in their ranges is read back from its text as that line.
pub fn printed_line_reads_back()
    ensures { (line : ScriptLine) → IsScriptLine line → script_line_of (script_line_text line) ≡ Some line }
{}

/// A script whose lines' numbers are in their ranges is read back from its text as that script.
pub fn printed_script_reads_back()
    ensures { (lines : List ScriptLine) → AllByRecursion IsScriptLine lines
        → script_of (script_text lines) ≡ Ok lines }
{}

/// The text that the generator prints for a seed is read back as the lines of that seed.
pub fn generated_script_reads_back()
    ensures { (seed users groups : ℕ) → 1 ≤ users → users ≤ MAX_USERS
        → script_of (generated_text seed users groups) ≡ Ok (generated_lines seed users groups) }
{}

/// The lines of a seed are in their ranges.
pub fn generated_lines_are_ranged()
    ensures { (seed users groups : ℕ) → 1 ≤ users → users ≤ MAX_USERS
        → AllByRecursion IsScriptLine (generated_lines seed users groups) }
{}
