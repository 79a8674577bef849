//! Reads and writes quoted texts.

ghost use Rattle.std.specs.Prelude.{◌≡◌, ◌++◌, ◌<◌, [], ℕ, List, IfOk, IsUtf8, MatchOption, OnOk, string_bytes};
ghost use Rattle.std.specs.Option.{option_map};
ghost use Rattle.tw_lexer.specs.Quoted.{BeginsQuoted, escaped, hex_digit, quoted};
ghost use Rattle.tw_lexer.specs.declared.escape.Escape.TheVariants.{Nothing};
ghost use Rattle.tw_lexer.specs.reading.Inside.{inside_from};

use crate::escape::{ByteEffect, Escape, read_byte};
use crate::first::after;
use std::alloc::{AllocError, Global};

/// Decodes a quoted text up to the closing quote into the empty `text`, and returns the bytes after the quote. Returns `None` if
/// an escape is wrong or the quote isn't closed.
fn inside<'a>(text: &mut Vec<u8>, bytes: &'a [u8]) -> Result<Option<&'a [u8]>, AllocError>
    requires { text.old.items ≡ [] }
    ensures { IfOk result (λ read. option_map (λ rest. (text.new.items, rest.now)) read ≡ inside_from Nothing bytes.entry.now) }
{
    let mut escape = Escape::Nothing;
    let mut count = 0;
    for byte in bytes {
        count += 1;
        match read_byte(escape, *byte) {
            ByteEffect::End => return Ok(Some(&bytes[count..])),
            ByteEffect::Wrong => return Ok(None),
            ByteEffect::Into(next) => escape = next,
            ByteEffect::Byte(whole) => {
                text.push(whole)?;
                escape = Escape::Nothing;
            }
        }
    }
    Ok(None)
}

/// Reads a string literal at the start: its contents, without quotes and escapes, and the bytes after it. Returns `None` if there
/// is no well-formed one.
pub fn quoted_text(alloc: Global, bytes: &[u8]) -> Result<Option<(String, &[u8])>, AllocError>
    requires { IsUtf8 bytes.now }
    ensures exact { IfOk result (λ read. MatchOption read
        ((text rest : List ℕ) → BeginsQuoted text bytes.now rest → ⊥)
        (λ found. BeginsQuoted (string_bytes found.0) bytes.now found.1.now)) }
    ensures utf8 { IfOk result (λ read. MatchOption read (Unit {0}) (λ found. IsUtf8 found.1.now)) }
{
    let Some(after_quote) = after(b"\"", bytes) else {
        return Ok(None);
    };
    let mut text = Vec::new(alloc);
    match inside(&mut text, after_quote)? {
        None => Ok(None),
        Some(rest) => match String::from_utf8(text) {
            Ok(text) => Ok(Some((text, rest))),
            // Escapes make bytes below 0x80 only, so the contents stay UTF-8.
            Err(_) => unreachable!(),
        },
    }
}

/// Returns a digit of base 16, in lower case, for an escape in a quoted text.
fn hex_digit(n: u8) -> u8
    requires { n < 16 }
    ensures { result ≡ hex_digit n }
{
    if n < 10 { b'0' + n } else { b'a' + (n - 10) }
}

/// Appends a byte of a quoted text, escaped if necessary.
fn put_escaped(out: &mut Vec<u8>, byte: u8) -> Result<(), AllocError>
    ensures { OnOk result (out.new.items ≡ out.old.items ++ escaped byte) }
{
    match byte {
        b'"' => out.extend_from_slice(b"\\\""),
        b'\\' => out.extend_from_slice(b"\\\\"),
        b'\n' => out.extend_from_slice(b"\\n"),
        0..=31 | 127 => {
            out.extend_from_slice(b"\\x")?;
            out.extend_from_slice(&[hex_digit(byte / 16), hex_digit(byte % 16)])
        }
        _ => Ok(out.push(byte)?),
    }
}

/// Like `put_quoted`, for bytes that may not be UTF-8, such as a word that is cut.
pub(crate) fn put_quoted_bytes(out: &mut Vec<u8>, text: &[u8]) -> Result<(), AllocError>
    ensures { OnOk result (out.new.items ≡ out.old.items ++ quoted text.now) }
{
    out.extend_from_slice(b"\"")?;
    for byte in text {
        put_escaped(out, *byte)?;
    }
    out.extend_from_slice(b"\"")
}

/// Appends a text as a string literal: in quotes, with escapes.
pub fn put_quoted(out: &mut Vec<u8>, text: &str) -> Result<(), AllocError>
    ensures { OnOk result (out.new.items ≡ out.old.items ++ quoted text.now) }
{
    put_quoted_bytes(out, text.as_bytes())
}
