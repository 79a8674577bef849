//! Whether a file holds what its name promises.

use tw_session::MOST_BYTES;

/// Returns whether a text is symbolic: its first line that has a word is `names`.
fn begins_with_names(text: &str) -> bool {
    for line in text.lines() {
        let words = line.split(';').next().unwrap_or("").trim();
        if !words.is_empty() {
            return words == "names";
        }
    }
    false
}

/// A program's file that holds another text than its name promises, or that can't be one.
#[derive(Clone, Copy)]
pub enum Misnamed<'a> {
    /// Its ending is that of symbolic assembly, and it has no line `names`.
    Symbolic(&'a str),
    /// Its ending is that of Python.
    Python(&'a str),
    /// It begins with a byte order mark.
    Marked(&'a str),
    /// It is longer than what a session reads.
    Long(&'a str),
}

/// Returns what is odd about a text without a line `names`, by the ending of its file's name.
fn misnamed_text(path: &str) -> Option<Misnamed<'_>> {
    if path.ends_with(".twn") {
        Some(Misnamed::Symbolic(path))
    } else if path.ends_with(".py") {
        Some(Misnamed::Python(path))
    } else {
        None
    }
}

/// Returns what is odd about the program's file with these bytes, if anything is.
pub fn find_misnamed<'a>(path: Option<&'a str>, bytes: &[u8]) -> Option<Misnamed<'a>> {
    let path = path?;
    if bytes.len() > MOST_BYTES {
        return Some(Misnamed::Long(path));
    }
    if bytes.starts_with(b"\xef\xbb\xbf") {
        return Some(Misnamed::Marked(path));
    }
    match str::from_utf8(bytes) {
        Ok(text) if !begins_with_names(text) => misnamed_text(path),
        _ => None,
    }
}
