// Commits of script lines.
ghost use Rattle.std.specs.Prelude.{IfSome, ◌<◌, ◌^◌};
ghost use Rattle.model_script.specs.{IsScriptLine};
ghost use Rattle.redo_live.specs.Holding.{IsUserOf};
ghost use Rattle.redo_live.specs.Serving.{Stays};

use crate::store::{LiveStore, LiveUser};
use model_script::{Items, ScriptLine, read_lines_are_ranged};
use redo_live::Refused;
use redo_script::parse;
use std::alloc::{AllocError, Global};
use std::process::Abort;
use std::sync::Wait;

/// The line that the text is.
fn line_of(alloc: Global, text: &str) -> Option<ScriptLine>
    ensures { IfSome result IsScriptLine }
{
    read_lines_are_ranged();
    match parse(alloc, text.as_bytes()) {
        Ok(script) => script.0.into_iter().next(),
        Err(_) => None,
    }
}

/// The text with so many bytes for its stars.
pub fn filled(alloc: Global, text: &str, bytes: usize) -> Result<String, AllocError> {
    text.replace(alloc, "*", &"5a".repeat(alloc, bytes)?)
}

/// Whether these are the operations of the line that the text is.
fn are_of(alloc: Global, items: &Items, text: &str) -> Option<bool> {
    let line = line_of(alloc, text)?;
    let (first, second) = (
        format!(in alloc; "{items:?}").ok()?,
        format!(in alloc; "{:?}", line.items).ok()?,
    );
    Some(first == second)
}

/// Commits the line that the text is, whatever user stands in it. Sees that operations which are refused come back as they were.
pub fn commit<R: Abort + Wait>(
    rt: &R,
    alloc: Global,
    store: &LiveStore,
    user: &mut LiveUser,
    text: Result<String, AllocError>,
) -> Result<u64, Refused>
    requires { IsUserOf store.now user.old }
    ensures { Stays store.now user.old user.new }
{
    let Ok(text) = text else {
        return Err(Refused::NoMemory);
    };
    let Some(ScriptLine { mode, items, .. }) = line_of(alloc, &text) else {
        assert!(rt; false, "{text}");
        return Err(Refused::NoMemory);
    };
    match user.commit(store, rt, alloc, mode, items) {
        Ok(end) => Ok(end),
        Err((refused, back)) => {
            assert!(rt; are_of(alloc, &back, &text) == Some(true), "{text}");
            Err(refused)
        }
    }
}
