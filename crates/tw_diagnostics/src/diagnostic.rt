//! Why a line is rejected, as text: mostly the position at which it stops being a statement.

use crate::breaks::Break;
use crate::error_position::{ErrorPosition, Token};
use crate::hints::{Hint, put_hint};
use std::alloc::{AllocError, Global};
use tw_lexer::put_shortened;
use tw_writer::{Piece, Writer};

/// A diagnostic of the position at which a line stops.
#[derive(Clone, Copy)]
pub enum Diagnostic {
    /// This was expected, with the line of a label, and the word that was meant.
    Expected(&'static str, Option<usize>, Hint),
    /// There is one word too many, with what is to be known about it.
    TooMany(Hint),
    Limit(&'static str),
}

/// Why a line is rejected.
#[derive(Clone, Copy)]
pub enum Reason<'a> {
    /// It stops at this position.
    At(ErrorPosition<'a>, Diagnostic),
    /// Of the procedure or the whole text, this is so.
    Whole(&'static str),
    /// There is no more to be said.
    Nothing,
}

/// Returns whether the bytes of a word contain those of an invisible character.
fn has_part(part: &[u8], bytes: &[u8]) -> bool {
    for index in 0..bytes.len() {
        if bytes[index..].starts_with(part) {
            return true;
        }
    }
    false
}

/// Returns what to print for an invisible character in a word; it is empty if there is none.
fn hidden_text(word: &[u8]) -> &'static str {
    if has_part(b"\xef\xbb\xbf", word) {
        "a byte order mark in "
    } else if has_part(b"\xc2\xa0", word) {
        "a no-break space in "
    } else {
        ""
    }
}

/// Returns what a diagnostic says of a quoted text that is broken, by the way in which it is.
fn break_text(broken: Break) -> &'static str {
    match broken {
        Break::Unclosed => "an unclosed quote",
        Break::Escape => "no such escape; there are \\\", \\\\, \\n and \\x00 to \\x7f",
        Break::AfterQuote => "a word right after a quoted text",
    }
}

/// Adds the word that was found instead, shortened if it is long, after the name of an invisible character in it.
fn put_found(out: &mut Writer, found: &Token<'_>) {
    if let Token::Word(word) = found {
        out.put_all(&[Piece::Text(", found "), Piece::Text(hidden_text(word))]);
        let done = put_shortened(&mut out.bytes, word);
        out.note(done);
    }
}

/// Adds what was expected, and what was found.
fn put_expected(out: &mut Writer, expected: &str, found: &Token<'_>) {
    match found {
        Token::End => out.put_all(&[
            Piece::Text("the line ends too early, expected "),
            Piece::Text(expected),
        ]),
        Token::Word(_) => {
            out.put_all(&[Piece::Text("expected "), Piece::Text(expected)]);
            put_found(out, found)
        }
        Token::Broken(broken) => out.put(break_text(*broken)),
    }
}

/// Adds why a line stops: what is expected with a hint, one word too many, or a limit.
fn put_diagnostic(out: &mut Writer, said: &Diagnostic, found: &Token<'_>) {
    match said {
        Diagnostic::Expected(expected, line, hint) => {
            put_expected(out, expected, found);
            if let Some(line) = line {
                out.put_numbered(" of line ", *line);
            }
            put_hint(out, *hint)
        }
        Diagnostic::TooMany(hint) => {
            out.put("one word too many");
            put_found(out, found);
            put_hint(out, *hint)
        }
        Diagnostic::Limit(limit) => {
            out.put_all(&[Piece::Text("the limit is "), Piece::Text(*limit)]);
            put_found(out, found)
        }
    }
}

/// Returns the line that says why a line is rejected, if there is more to be said.
pub(crate) fn reason_line(alloc: Global, reason: &Reason<'_>) -> Result<Vec<u8>, AllocError> {
    let mut out = Writer::new(alloc);
    match reason {
        Reason::At(stop, said) => {
            out.put_numbered("word ", stop.word);
            out.put_numbered(", column ", stop.column);
            out.put(": ");
            put_diagnostic(&mut out, said, &stop.found);
            out.put("\n");
        }
        Reason::Whole(whole) => out.put_all(&[Piece::Text(*whole), Piece::Text("\n")]),
        Reason::Nothing => {}
    }
    out.finish()
}
