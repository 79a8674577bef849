//! Finds why bytes that begin with a quote are no word.

ghost use Rattle.std.specs.Prelude.{IsUtf8};

use std::alloc::{AllocError, Global};
use tw_lexer::quoted_text;

/// A reason why something is no word.
#[derive(Clone, Copy, PartialEq, Eq)]
pub enum Break {
    /// The second quote is missing.
    Unclosed,
    /// A `\` precedes something that it can't escape.
    Escape,
    /// Something directly follows the second quote, so that no word ends there.
    AfterQuote,
}

/// Returns how many bytes follow the `\` of an escape, of which these are the first; 0 if there is no such escape.
fn escaped_count(bytes: &[u8]) -> usize {
    match bytes {
        [b'x', high, low, ..] => {
            if matches!(*high, b'0'..=b'7') && low.is_ascii_hexdigit() {
                3
            } else {
                0
            }
        }
        [byte, ..] => usize::from(matches!(*byte, b'"' | b'\\' | b'n')),
        [] => 0,
    }
}

/// Returns why bytes after a quote aren't the rest of a quoted text.
fn unread_break(inside: &[u8]) -> Break {
    let mut escaped = 0usize;
    for index in 0..inside.len() {
        let byte = inside[index];
        if escaped > 0 {
            escaped = escaped.saturating_sub(1);
        } else if byte == b'"' {
            return Break::Unclosed;
        } else if byte == b'\\' {
            escaped = escaped_count(&inside[index + 1..]);
            if escaped == 0 {
                return Break::Escape;
            }
        }
    }
    Break::Unclosed
}

/// Returns why bytes that begin with a quote are no word.
pub(crate) fn break_of(alloc: Global, here: &[u8]) -> Result<Break, AllocError>
    requires { IsUtf8 here.now }
{
    if quoted_text(alloc, here)?.is_some() {
        return Ok(Break::AfterQuote);
    }
    match here {
        [_, inside @ ..] => Ok(unread_break(inside)),
        [] => Ok(Break::Unclosed),
    }
}
