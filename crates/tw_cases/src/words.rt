//! The text of a line, with escapes for bytes that a line can't have.

use std::alloc::Global;
use tw_case_lines::Complaint;

/// Returns the bytes of a text, in which `\t`, `\r`, `\n` and `\xHH` are escapes.
pub fn unescaped(alloc: Global, text: &str) -> Result<Vec<u8>, Complaint> {
    let mut bytes = Vec::new(alloc);
    let mut pieces = text.split('\\');
    if let Some(first) = pieces.next() {
        bytes.extend_from_slice(first.as_bytes())?;
    }
    for piece in pieces {
        put_escaped(&mut bytes, piece)?;
    }
    Ok(bytes)
}

/// Adds the bytes of a piece of a case's text that follows a backslash.
fn put_escaped(bytes: &mut Vec<u8>, piece: &str) -> Result<(), Complaint> {
    let (byte, rest) = escape(piece)?;
    bytes.push(byte)?;
    bytes.extend_from_slice(rest.as_bytes())?;
    Ok(())
}

/// Reads an escape of a case's text. Returns its byte, and the rest.
fn escape(piece: &str) -> Result<(u8, &str), Complaint> {
    if let Some(rest) = piece.strip_prefix('t') {
        return Ok((b'\t', rest));
    }
    if let Some(rest) = piece.strip_prefix('r') {
        return Ok((b'\r', rest));
    }
    if let Some(rest) = piece.strip_prefix('n') {
        return Ok((b'\n', rest));
    }
    hex_escape(piece)
}

/// Reads an escape such as `x41` of a case's text. Returns its byte, and the rest.
fn hex_escape(piece: &str) -> Result<(u8, &str), Complaint> {
    let Some((digits, rest)) = piece.split_at_checked(3) else {
        return Err(Complaint::Escape);
    };
    let Some(digits) = digits.strip_prefix('x') else {
        return Err(Complaint::Escape);
    };
    Ok((u8::from_str_radix(digits, 16)?, rest))
}

/// Reads the arguments of a command line in a case. A pair of quotes is the empty argument.
pub fn read_words(alloc: Global, text: &str) -> Result<Vec<String>, Complaint> {
    let mut words = Vec::new(alloc);
    for word in text.split_whitespace() {
        words.push(read_word(alloc, word)?)?;
    }
    Ok(words)
}

/// Returns the input `texts:` with several members, each a text of many letters: `1000x4096` is for 1,000 members of 4,096 letters.
fn texts_word(alloc: Global, sizes: &str) -> Result<String, Complaint> {
    let Some((members, letters)) = sizes.split_once('x') else {
        return Err(Complaint::Number);
    };
    let text = "a".repeat(alloc, letters.parse::<usize>()?)?;
    let mut word = String::from_str(alloc, "texts:")?;
    for member in 0..members.parse::<usize>()? {
        let comma = if member == 0 { "" } else { "," };
        word.push_str(&format!(in alloc; "{comma}{member}=\"{text}\"")?)?;
    }
    Ok(word)
}

/// Reads one argument of a command line in a case, with its escapes.
fn read_word(alloc: Global, word: &str) -> Result<String, Complaint> {
    if let Some(sizes) = word.strip_prefix("texts:*") {
        return texts_word(alloc, sizes);
    }
    if word == "\"\"" {
        return Ok(String::new(alloc));
    }
    match String::from_utf8(unescaped(alloc, word)?) {
        Ok(word) => Ok(word),
        Err(_) => Err(Complaint::WordBytes),
    }
}
