// What is told of a run, as text.
use crate::store::Device;
use model_report::History;
use model_report::State::Flushed;
use redo_drive::Closed;
use std::alloc::{AllocError, Global};
use std::process::Abort;

/// The groups of a history: of each its user, its number among the user's, its start, its end, and its state.
fn groups_of(alloc: Global, history: &History) -> Result<String, AllocError> {
    let mut text = String::new(alloc);
    for entry in history.0.iter() {
        let told = (entry.user, entry.k, entry.start, entry.end, entry.state);
        text.push_str(&format!(in alloc; "{told:?};")?)?;
    }
    Ok(text)
}

/// Where the last group of a history ends, if all are flushed, each starts where the one before it ends, and those of each user
/// have its order.
fn flushed_end(history: &History) -> Option<u64> {
    let mut end = 8204;
    let mut next = [0u64; 17];
    for entry in history.0.iter() {
        let number = next.get_mut(entry.user as usize)?;
        if (entry.k, entry.state, entry.start) != (*number, Flushed, end) {
            return None;
        }
        *number = number.wrapping_add(1);
        end = entry.end;
    }
    Some(end)
}

/// With which code a run ends, and its marks; whether all is flushed up to both tails, how many groups it has, and those.
pub fn told_of(alloc: Global, closed: &Closed<Device, Device>) -> Result<String, AllocError> {
    let groups = groups_of(alloc, &closed.history)?;
    let (code, marks) = (closed.code, closed.marks);
    let end = flushed_end(&closed.history);
    let is_flushed = end == Some(marks.wtail) && end == Some(marks.flushed);
    let count = closed.history.0.len();
    let marks = (marks.wtail, marks.write, marks.flushed, marks.ckpt);
    format!(in alloc;
        "code {code} marks {marks:?} all flushed {is_flushed} groups {count}: {groups}"
    )
}

/// Sees that all of these are told.
pub fn see_told(rt: &impl Abort, told: &str, wants: &[&str]) {
    for want in wants {
        assert!(rt; told.contains(want), "{told}");
    }
}
