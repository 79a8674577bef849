//! Shortens long texts in messages.

ghost use Rattle.std.specs.Prelude.{◌≡◌, ◌++◌, OnOk};
ghost use Rattle.tw_lexer.specs.Shown.{begins_character, cut_mark, first_characters, shortened, shortened_quoted};

use crate::append::put;
use crate::quoted::put_quoted_bytes;
use std::alloc::AllocError;

/// The greatest number of characters of a line or a word that a message shows.
const MOST_CHARACTERS: usize = 200;

/// Returns whether a byte of UTF-8 begins a character, so that a message may be cut before it.
pub fn begins_character(byte: u8) -> bool
    ensures { result ≡ begins_character byte }
{
    byte < 128 || 191 < byte
}

/// Returns the first characters of a text that a message shows, at most `most`.
fn first_characters(most: usize, text: &[u8]) -> &[u8]
    ensures { result.now ≡ first_characters most text.now }
{
    let mut more = most;
    for (index, byte) in text.iter().enumerate() {
        if begins_character(*byte) {
            if more == 0 {
                return &text[..index];
            }
            more -= 1;
        }
    }
    text
}

/// Returns the mark after a text of which `shown` is shown.
fn cut_mark(shown: &[u8], text: &[u8]) -> &'static str
    requires { shown.now ≡ first_characters 200 text.now }
    ensures { result.now ≡ cut_mark text.now }
{
    if shown.len() < text.len() { " .." } else { "" }
}

/// Appends a line or a word for a message. A long one is cut after 200 characters and marked with ` ..`.
pub fn put_shortened(out: &mut Vec<u8>, text: &[u8]) -> Result<(), AllocError>
    ensures { OnOk result (out.new.items ≡ out.old.items ++ shortened text.now) }
{
    let shown = first_characters(MOST_CHARACTERS, text);
    out.extend_from_slice(shown)?;
    put(out, cut_mark(shown, text))
}

/// Appends a word between quotes for a message, shortened like `put_shortened`.
pub fn put_shortened_quoted(out: &mut Vec<u8>, text: &[u8]) -> Result<(), AllocError>
    ensures { OnOk result (out.new.items ≡ out.old.items ++ shortened_quoted text.now) }
{
    let shown = first_characters(MOST_CHARACTERS, text);
    put_quoted_bytes(out, shown)?;
    put(out, cut_mark(shown, text))
}
