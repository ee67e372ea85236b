// The script that a text is.
ghost use Rattle.std.specs.Prelude.{◌≡◌, Ok, IfOk, IfErr};
ghost use Rattle.model_script.specs.{is_skipped, script_of};
ghost use Rattle.redo_script.specs.Fault.{IsFaultOf};

use crate::ScriptFault;
use crate::line::read_line;
use model_script::Script;
use redo_io::Lines;
use std::alloc::Global;

// Whether the line is empty or a comment.
fn is_skipped(line: &[u8]) -> bool
    ensures { result ≡ is_skipped line.now }
{
    match line {
        [] => true,
        [first, ..] => *first == b'#',
    }
}

/// The script that the text is; a fault names its first bad line.
#[tactic(auto, using(crate::proofs::ScriptLemmas::steps), unfolding(model_script::specs::Grammar::script_of))]
pub fn parse(alloc: Global, text: &[u8]) -> Result<Script, ScriptFault>
    ensures script { IfOk result (λ script. script_of text.now ≡ Ok script) }
    ensures fault { IfErr result (IsFaultOf (script_of text.now)) }
{
    let mut script = Vec::new(alloc);
    let mut lines = Lines::new(text);
    while let Some((number, line)) = lines.next() {
        if !is_skipped(line) {
            let Some(line) = read_line(alloc, line)? else {
                return Err(ScriptFault::Line(number));
            };
            script.push(line)?;
        }
    }
    Ok(Script(script))
}
