// The rows of tables that are written as text, and what stands in them.
use redo_command::{Asked, WordsFault, read_words};
use std::alloc::{AllocError, Global};

/// What stands left and right of the bar of a row, without the blanks around it. A row without a bar has nothing on its
/// right.
pub fn columns(row: &str) -> (&str, &str) {
    match row.split_once('|') {
        Some((left, right)) => (left.trim(), right.trim()),
        None => (row, ""),
    }
}

/// The text that a literal stands for, which may have the escapes of a line feed, a carriage return and a tab.
pub fn text_of(alloc: Global, literal: &str) -> Result<String, AllocError> {
    let text = literal.trim_matches('"').replace(alloc, r"\n", "\n")?;
    let text = text.replace(alloc, r"\r", "\r")?;
    text.replace(alloc, r"\t", "\t")
}

// The words of a line, between single spaces; an empty line has none.
fn words_of(alloc: Global, line: &str) -> Result<Vec<String>, AllocError> {
    let mut words = Vec::new(alloc);
    if line.is_empty() {
        return Ok(words);
    }
    for word in line.split(' ') {
        words.push(String::from_str(alloc, word)?)?;
    }
    Ok(words)
}

/// What the words of a line ask for.
pub fn asked_of(alloc: Global, line: &str) -> Result<Result<Asked, WordsFault>, AllocError> {
    let words = words_of(alloc, line)?;
    Ok(read_words(alloc, &words))
}
