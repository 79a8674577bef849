//! Replaces the characters of a text that aren't printed as they are.

ghost use Rattle.std.specs.Prelude.{◌≡◌, ◌++◌, ◌%◌, IfOk, OnOk, chars, false, encode_utf8_all, string_bytes};
ghost use Rattle.std.specs.Char.{digit_char};
ghost use Rattle.std.specs.Char.Escape.{escape_unicode};
ghost use Rattle.unicode_width.specs.Width.{str_width};
ghost use Rattle.tw_visible.specs.Visible.{HidesNothing, changes_direction, is_hidden, json_escape, printed, printed_character, visible, visible_bytes};

use std::alloc::{AllocError, Global};
use unicode_width::UnicodeWidthStr;

/// The kind of a text, which decides how hidden characters are written in it.
#[derive(Clone, Copy, PartialEq, Eq)]
pub enum Kind {
    /// Lines to be read by people: `\u{1b}`; a tab is a blank.
    Lines,
    /// JSON: `\u001b`, by which a reader gets the same texts.
    Json,
}

/// Returns whether a character changes the direction of the text after it.
fn changes_direction(c: char) -> bool
    ensures { result ≡ changes_direction c }
{
    match c as u32 {
        0x61c | 0x200e | 0x200f | 0x202a..=0x202e | 0x2066..=0x2069 => true,
        _ => false,
    }
}

/// Returns whether a character isn't printed as it is: one that changes the direction, or a control character, except a line feed.
fn is_hidden(c: char) -> bool
    ensures { result ≡ is_hidden c }
{
    changes_direction(c) || (c.is_control() && c != '\n')
}

/// Adds the code of a character, as in `\u{1b}`.
fn put_code(out: &mut String, c: char) -> Result<(), AllocError>
    ensures { OnOk result (string_bytes out.new ≡ string_bytes out.old ++ encode_utf8_all (escape_unicode c)) }
{
    for letter in c.escape_unicode() {
        out.push(letter)?;
    }
    Ok(())
}

/// Returns the last hexadecimal digit of a number.
fn digit_of(number: u32) -> char
    ensures { result ≡ digit_char (number % 16) }
{
    let digit = (number % 16) as u8;
    let first = if digit < 10 { b'0' } else { b'a' - 10 };
    (first + digit) as char
}

/// Adds an escape of JSON for a character of 16 bits, as in `\u001b`.
fn put_json_escape(out: &mut String, c: char) -> Result<(), AllocError>
    ensures { OnOk result (string_bytes out.new ≡ string_bytes out.old ++ encode_utf8_all (json_escape c)) }
{
    let code = c as u32;
    out.push('\\')?;
    out.push('u')?;
    out.push(digit_of(code / 0x1000))?;
    out.push(digit_of(code / 0x100))?;
    out.push(digit_of(code / 0x10))?;
    out.push(digit_of(code))
}

/// Adds a character of a text, or what is written in its place.
fn put_character(out: &mut String, kind: Kind, c: char) -> Result<(), AllocError>
    ensures { OnOk result (string_bytes out.new ≡ string_bytes out.old ++ encode_utf8_all (printed_character kind c)) }
{
    if !is_hidden(c) {
        return out.push(c);
    }
    match kind {
        Kind::Json => put_json_escape(out, c),
        Kind::Lines if c == '\t' => out.push(' '),
        Kind::Lines => put_code(out, c),
    }
}

/// Returns a text with its hidden characters replaced.
fn printed(alloc: Global, kind: Kind, text: &str) -> Result<String, AllocError>
    ensures is { IfOk result (λ shown. string_bytes shown ≡ printed kind text.now) }
    ensures seen { IfOk result (λ shown. HidesNothing (string_bytes shown)) }
{
    let mut out = String::new(alloc);
    for c in text.chars() {
        put_character(&mut out, kind, c)?;
    }
    Ok(out)
}

/// Returns bytes as a visible text of this kind. What isn't UTF-8 is replaced first.
pub fn visible(alloc: Global, kind: Kind, bytes: &[u8]) -> Result<String, AllocError>
    ensures is { IfOk result (λ shown. string_bytes shown ≡ visible kind bytes.now) }
    ensures seen { IfOk result (λ shown. HidesNothing (string_bytes shown)) }
{
    let text = String::from_utf8_lossy(alloc, bytes)?;
    printed(alloc, kind, text.as_str())
}

/// Returns bytes as visible lines.
pub fn visible_bytes(alloc: Global, bytes: &[u8]) -> Result<Vec<u8>, AllocError>
    ensures is { IfOk result (λ shown. shown.items ≡ visible_bytes bytes.now) }
    ensures seen { IfOk result (λ shown. HidesNothing shown.items) }
{
    let shown = visible(alloc, Kind::Lines, bytes)?;
    Ok(shown.into_bytes())
}

/// Appends bytes as visible lines.
pub fn put_visible(alloc: Global, out: &mut Vec<u8>, bytes: &[u8]) -> Result<(), AllocError>
    ensures { OnOk result (out.new.items ≡ out.old.items ++ visible_bytes bytes.now) }
{
    let shown = visible_bytes(alloc, bytes)?;
    out.extend_from_slice(&shown)
}

/// Returns how many columns of a terminal bytes take as a visible line.
pub fn columns(alloc: Global, bytes: &[u8]) -> Result<usize, AllocError>
    ensures { IfOk result (λ number. number ≡ str_width false (chars (visible_bytes bytes.now))) }
{
    let shown = visible(alloc, Kind::Lines, bytes)?;
    Ok(shown.as_str().width())
}
