//! The library's calls, as programs in other languages make them, compared with the crates.

use std::alloc::{AllocError, Global};
use std::ops::Range;
use tw_calls::{session, session_text};
use tw_case_lines::Text;
use tw_handles::{Handle, take_text, verify};

/// The content of each byte of a buffer before a call.
const BLANK: u8 = b'.';

/// Returns the arguments of a case as the library takes them, each followed by this ending.
fn ended_words(alloc: Global, words: &[String], ending: &str) -> Text {
    let mut text = Text::new(alloc);
    for word in words {
        text.put(word.as_str());
        text.put(ending);
    }
    text
}

/// Returns whether a part of a buffer is still as it was before the library's call.
fn is_blank(bytes: &[u8]) -> bool {
    bytes.iter().all(|byte| *byte == BLANK)
}

/// Returns whether the library wrote only the beginning of a buffer, with this text; or nothing, if the text doesn't fit.
fn is_filled(room: &[u8], text: &[u8]) -> bool {
    if room.len() < text.len() {
        return is_blank(room);
    }
    match room.strip_prefix(text) {
        Some(rest) => is_blank(rest),
        None => false,
    }
}

/// Calls the library with a buffer of `size` bytes, and returns whether the status and the text are these.
fn says(
    alloc: Global,
    lines: &[u8],
    input: &[u8],
    size: usize,
    (code, text): (u8, &[u8]),
) -> Result<bool, AllocError> {
    let mut room = Vec::from_elem(alloc, BLANK, size)?;
    let mut status = u8::MAX;
    let length = session(alloc, lines, input, room.as_mut_slice(), &mut status);
    let is_said = status == code && length == text.len();
    Ok(is_said && is_filled(room.as_slice(), text))
}

/// Returns whether the library returns this status and this text with buffers of these sizes. In this call an argument with a line feed is two
/// arguments.
pub fn is_answered(
    alloc: Global,
    words: &[String],
    input: &[u8],
    (code, text): (u8, &[u8]),
    sizes: Range<usize>,
) -> bool {
    let lines = ended_words(alloc, words, "\n");
    let mut is_so = true;
    for size in sizes {
        is_so &= says(alloc, lines.written(), input, size, (code, text)).unwrap_or(false);
    }
    is_so
}

/// Returns whether a handle of the library holds this text.
fn holds(alloc: Global, output: &mut Handle, text: &[u8]) -> bool {
    match take_text(alloc, output) {
        Some(kept) => kept.as_slice() == text,
        None => false,
    }
}

/// Returns whether the library returns this status, and puts this text into a handle. In this call an argument with a NUL is two arguments.
pub fn is_kept(alloc: Global, words: &[String], input: &[u8], (code, text): (u8, &[u8])) -> bool {
    let words = ended_words(alloc, words, "\0");
    let mut output = Handle::empty(alloc);
    let status = session_text(alloc, words.written(), input, &mut output);
    status == code && holds(alloc, &mut output, text)
}

/// Returns whether an argument has a line feed, so that lines can't have it.
pub fn has_line_feed(words: &[String]) -> bool {
    words.iter().any(|word| word.as_str().contains('\n'))
}

/// Returns whether the library's verdict on these bytes has this letter and number, requires this many engines and workers, and names this procedure
/// and place.
pub fn is_verdict(
    alloc: Global,
    bytes: &[u8],
    (letter, number): (u8, u8),
    needs: (u8, u8),
    (procedure, place): (usize, usize),
) -> bool {
    let mut verdict = [u64::MAX; 9];
    let code = verify(alloc, bytes, &mut verdict);
    let wanted = [
        letter as u64,
        number as u64,
        needs.0 as u64,
        needs.1 as u64,
        procedure as u64,
        place as u64,
        0,
        0,
        0,
    ];
    (code == 0) == (letter == 0) && &verdict[..] == &wanted[..]
}
