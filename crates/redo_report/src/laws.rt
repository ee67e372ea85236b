// What holds of the printed texts. A caller learns it by citing a function that does nothing.
ghost use Rattle.std.specs.Prelude.{◌≡◌, ℕ, map};
ghost use Rattle.model_base.specs.declared.shape.Shape.{Shape};
ghost use Rattle.model_log.specs.{HasText, RecordFits};
ghost use Rattle.model_log.specs.declared.rec.Rec.{Rec};
ghost use Rattle.model_report.specs.{item_of_record, NamesOperation, record_line};
ghost use Rattle.model_script.specs.{group_of};
ghost use Rattle.model_script.specs.declared.script.ScriptLine.{ScriptLine};

use redo_script::printed_operation_reads_back;

/// The line that the listing prints of a record is read back, by the grammar of scripts, as the operation that logs it;
/// each record of a store that is read has a text and fits. And the records of a script line's group are listed as the
/// line's operations.
pub fn listed_record_reads_back()
    ensures operation { (shape : Shape) (logged : Rec) → HasText logged → RecordFits shape logged
        → NamesOperation (record_line logged) (item_of_record logged) }
    ensures line { (space : ℕ) (line : ScriptLine) → map item_of_record (group_of space line) ≡ line.items }
{
    printed_operation_reads_back();
}
