//! Finds the line of a label.

use std::alloc::{AllocError, Global};
use tw_lexer::{Next, Word, before_colon, next_word};

/// Returns whether a line begins with the label with this name.
fn is_label_line(alloc: Global, line: &str, name: &[u8]) -> Result<bool, AllocError> {
    match next_word(alloc, line.as_bytes())? {
        Next::Found(Word::Bare(word), _) => match before_colon(word) {
            Some(front) => Ok(front == name),
            None => Ok(false),
        },
        _ => Ok(false),
    }
}

/// Returns the last line before this one that begins with the label with this name.
pub(crate) fn label_before(
    alloc: Global,
    text: &str,
    number: usize,
    name: &[u8],
) -> Result<Option<usize>, AllocError> {
    let mut last = None;
    for (index, line) in text.lines().take(number.saturating_sub(1)).enumerate() {
        if is_label_line(alloc, line, name)? {
            last = Some(index.saturating_add(1));
        }
    }
    Ok(last)
}

/// Returns the last line before this one that begins with the same word, if that is a label.
pub(crate) fn twin_before(
    alloc: Global,
    text: &str,
    number: usize,
    word: &[u8],
) -> Result<Option<usize>, AllocError> {
    match before_colon(word) {
        Some(name) => label_before(alloc, text, number, name),
        None => Ok(None),
    }
}
