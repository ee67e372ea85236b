// The lines of a script as a script spells them.
use model_script::Script;
use redo_script::push_line;
use std::alloc::{AllocError, Global};

/// The lines, with a line feed between two.
pub fn printed(alloc: Global, script: &Script) -> Result<String, AllocError> {
    let mut text = String::new(alloc);
    for line in script.0.iter() {
        if !text.is_empty() {
            text.push('\n')?;
        }
        push_line(alloc, &mut text, line)?;
    }
    Ok(text)
}
