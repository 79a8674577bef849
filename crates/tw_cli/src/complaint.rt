//! Why arguments are rejected, in English.

use clap::Error;
use clap::error::ErrorKind;
use std::alloc::{AllocError, Global};
use tw_lexer::{put, put_shortened_quoted};

/// A line that says why arguments are rejected, with its line end.
#[derive(Drop)]
pub enum Complaint {
    /// About the value of an option, or options that exclude each other.
    Fixed(&'static str),
    /// The error of clap, or about a word that begins with a negative number.
    Made(String),
}

impl Complaint {
    /// Returns the line.
    pub fn line(&self) -> &str {
        match self {
            Complaint::Fixed(line) => line,
            Complaint::Made(line) => line.as_str(),
        }
    }
}

/// Returns whether an argument begins with a negative number.
fn is_negative(word: &[u8]) -> bool {
    match word {
        [b'-', digit, ..] => digit.is_ascii_digit(),
        _ => false,
    }
}

/// Returns the first argument that begins with a negative number. No option can begin so.
fn negative_word(words: &[String]) -> Option<&str> {
    for word in words {
        if is_negative(word.as_bytes()) {
            return Some(word.as_str());
        }
    }
    None
}

/// Returns the line for an argument that begins with a negative number. Clap takes it for an option.
fn negative_line(alloc: Global, word: &str) -> Result<String, AllocError> {
    let mut line = Vec::new(alloc);
    put(&mut line, "error: ")?;
    put_shortened_quoted(&mut line, word.as_bytes())?;
    put(
        &mut line,
        ": expected int:, ints:, text:, texts:, tints: or ttexts: before it; options take no negative number\n",
    )?;
    String::from_utf8(line).map_err(|_| AllocError)
}

/// Returns the line for arguments that clap rejects.
pub(crate) fn refused_line(
    alloc: Global,
    words: &[String],
    error: &Error,
) -> Result<String, AllocError> {
    match negative_word(words) {
        Some(word) if error.kind() == ErrorKind::UnknownArgument => negative_line(alloc, word),
        _ => error.to_string(alloc).map_err(|_| AllocError),
    }
}
