// The words of a call.
ghost use Rattle.std.specs.Prelude.{◌≡◌, Some, IfOk, IfErr, map};
ghost use Rattle.std.specs.String.{string_bytes};
ghost use Rattle.model_script.specs.{asked_of};
ghost use Rattle.redo_command.specs.Fault.{IsWordsFaultOf};

use crate::WordsFault;
use crate::app::redolab_command;
use crate::found::read_asked;
use clap::error::ErrorKind;
use model_script::Asked;
use std::alloc::Global;

/// What the words of a call ask for, without the name of the program.
pub fn read_words(alloc: Global, words: &[String]) -> Result<Asked, WordsFault>
    ensures asked { IfOk result (λ asked. asked_of (map (λ word. string_bytes word) words.now) ≡ Some asked) }
    ensures fault { IfErr result (IsWordsFaultOf (map (λ word. string_bytes word) words.now)) }
{
    let command = redolab_command(alloc)?;
    let matches = match command.try_get_matches_from(words) {
        Ok(matches) => matches,
        Err(error) => match error.kind() {
            ErrorKind::OutOfMemory => return Err(WordsFault::NoMemory),
            _ => return Err(WordsFault::NotCommand),
        },
    };
    let Some((name, found)) = matches.subcommand() else {
        return Err(WordsFault::NotCommand);
    };
    match read_asked(name, found) {
        Some(asked) => Ok(asked),
        None => Err(WordsFault::NotCommand),
    }
}
