// Scripts that are too long to be written out.
use std::alloc::{AllocError, Global};

/// A line of a user, of a group on one of four pages.
fn line_of(alloc: Global, user: u32, mode: &str, string: &str) -> Result<String, AllocError> {
    let page = user % 4;
    format!(in alloc; "{user} {mode} s {page} 38 {string}\n")
}

/// So many lines of a user, each of a group of so many bytes: a string, and seven bytes before it.
pub fn user_lines(
    alloc: Global,
    user: u32,
    mode: &str,
    count: usize,
    bytes: usize,
) -> Result<String, AllocError> {
    let string = "5a".repeat(alloc, bytes.saturating_sub(7))?;
    let line = line_of(alloc, user, mode, &string)?;
    line.repeat(alloc, count)
}

/// So many lines of each of so many users, of groups of so many bytes on four pages.
pub fn lines_of(
    alloc: Global,
    users: u32,
    mode: &str,
    count: usize,
    bytes: usize,
) -> Result<String, AllocError> {
    let mut text = String::new(alloc);
    for user in 0..users.min(16) {
        let lines = user_lines(alloc, 1 + user, mode, count, bytes)?;
        text.push_str(&lines)?;
    }
    Ok(text)
}
