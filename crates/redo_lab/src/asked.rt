// What the words ask for.
ghost use Rattle.std.specs.Prelude.{◌≡◌, ◌⊎◌, Some, None, IfOk, IfErr, map};
ghost use Rattle.std.specs.String.{string_bytes};
ghost use Rattle.model_report.specs.declared.fault.Fault.TheVariants.{Memory, Words};
ghost use Rattle.redo_lab.specs.Call.{command_of};

use model_report::Fault;
use model_script::Command;
use redo_command::{WordsFault, read_words};
use std::alloc::Global;

/// The command that the words ask for.
pub(crate) fn read_command(alloc: Global, words: &[String]) -> Result<Command, Fault>
    ensures asked { IfOk result (λ command. command_of (map (λ word. string_bytes word) words.now) ≡ Some command) }
    ensures fault { IfErr result (λ fault. ((command_of (map (λ word. string_bytes word) words.now) ≡ None) × (fault ≡ Words)) ⊎ (fault ≡ Memory)) }
{
    match read_words(alloc, words) {
        Ok(asked) => Ok(asked.command),
        Err(WordsFault::NotCommand) => Err(Fault::Words),
        Err(WordsFault::NoMemory) => Err(Fault::Memory),
    }
}
