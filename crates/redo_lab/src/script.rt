// The script of the source.
ghost use Rattle.std.specs.Prelude.{◌≡◌, ◌≤◌, ◌+◌, ℕ, List, IfOk, IfErr};
ghost use Rattle.model_base.specs.declared.limits.TheConstants.{MAX_SCRIPT};
ghost use Rattle.redo_io.specs.{TakesAtMost};
ghost use Rattle.redo_io.specs.declared.read.TheConstants.{PIECE};
ghost use Rattle.redo_lab.specs.Call.{IsScriptRead};
ghost use Rattle.redo_lab.specs.Allowed.{IsScriptFault};

use model_base::MAX_SCRIPT;
use model_report::Fault;
use model_script::{Misfit, Quantity, Script};
use redo_io::{ReadFault, Source, read_all};
use redo_script::{ScriptFault, parse};
use std::alloc::Global;

/// Reads the script: all that the source has left.
pub(crate) fn read_script<S: Source>(alloc: Global, src: &mut S) -> Result<Script, Fault>
    ensures script { IfOk result (IsScriptRead (S.seen src.old) (S.seen src.new)) }
    ensures fault { IfErr result (IsScriptFault (S.seen src.old) (S.seen src.new)) }
    ensures taken { TakesAtMost (MAX_SCRIPT + PIECE) (S.seen src.old).left (S.seen src.new).left }
{
    let text = match read_all(alloc, src, MAX_SCRIPT as usize) {
        Ok(text) => text,
        Err(ReadFault::Fault) => return Err(Fault::Source),
        Err(ReadFault::TooLong) => return Err(Fault::Fit(Misfit {
            quantity: Quantity::Script,
            number: MAX_SCRIPT,
        })),
        Err(ReadFault::NoMemory) => return Err(Fault::Memory),
    };
    match parse(alloc, text.as_slice()) {
        Ok(script) => Ok(script),
        Err(ScriptFault::Line(line)) => Err(Fault::Script(line)),
        Err(ScriptFault::NoMemory) => Err(Fault::Memory),
    }
}
