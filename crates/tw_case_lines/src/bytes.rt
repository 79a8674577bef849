//! The bytes of a line: a program as assembly text, or digits and names, with single bytes changed, and cut.

use crate::book::Book;
use crate::complaint::Complaint;
use std::alloc::Global;
use tw_asm::assemble;
use tw_binary::encode;

/// Reads the bytes of a text such as `proc control / regs / RET`, `@every with 26=10 27=01` or `545742 @code 61*4096 first 31`.
pub fn read_bytes(alloc: Global, book: &Book, text: &str) -> Result<Vec<u8>, Complaint> {
    if text.starts_with("proc ") || text.starts_with("version ") {
        return assembled(alloc, text);
    }
    match text.rsplit_once(" first ") {
        Some((whole, count)) => first_of(read_changed(alloc, book, whole)?, count),
        None => read_changed(alloc, book, text),
    }
}

/// Assembles the program of a case's bytes, whose lines are separated by ` / `, and encodes it.
fn assembled(alloc: Global, lines: &str) -> Result<Vec<u8>, Complaint> {
    let text = lines.replace(alloc, " / ", "\n")?;
    match assemble(alloc, text.as_str()) {
        Ok(program) => Ok(encode(alloc, &program)?),
        Err(_) => Err(Complaint::Assembly),
    }
}

/// Returns the first `count` bytes of a case's bytes.
fn first_of(mut bytes: Vec<u8>, count: &str) -> Result<Vec<u8>, Complaint> {
    let count = count.parse::<usize>()?;
    if count > bytes.len() {
        return Err(Complaint::CutPastEnd);
    }
    bytes.truncate(count);
    Ok(bytes)
}

/// Reads the bytes of a text, with changes of single bytes after ` with `.
fn read_changed(alloc: Global, book: &Book, text: &str) -> Result<Vec<u8>, Complaint> {
    match text.split_once(" with ") {
        Some((whole, changes)) => changed(read_pieces(alloc, book, whole)?, changes),
        None => read_pieces(alloc, book, text),
    }
}

/// Replaces single bytes, for changes such as `26=10 27=01`.
fn changed(mut bytes: Vec<u8>, changes: &str) -> Result<Vec<u8>, Complaint> {
    for change in changes.split_whitespace() {
        write_over(&mut bytes, change)?;
    }
    Ok(bytes)
}

/// Replaces one byte, for a change such as `26=10`. Places count from 0.
fn write_over(bytes: &mut Vec<u8>, change: &str) -> Result<(), Complaint> {
    let Some((place, digits)) = change.split_once('=') else {
        return Err(Complaint::Change);
    };
    let place = place.parse::<usize>()?;
    let byte = u8::from_str_radix(digits, 16)?;
    match bytes.get_mut(place) {
        Some(slot) => {
            *slot = byte;
            Ok(())
        }
        None => Err(Complaint::ChangePastEnd),
    }
}

/// Reads the pieces of a case's bytes, and joins them.
fn read_pieces(alloc: Global, book: &Book, text: &str) -> Result<Vec<u8>, Complaint> {
    let mut bytes = Vec::new(alloc);
    for piece in text.split_whitespace() {
        put_piece(alloc, book, &mut bytes, piece)?;
    }
    Ok(bytes)
}

/// Adds named bytes, bytes in digits, or either of them several times.
fn put_piece(
    alloc: Global,
    book: &Book,
    bytes: &mut Vec<u8>,
    piece: &str,
) -> Result<(), Complaint> {
    if let Some(name) = piece.strip_prefix('@') {
        bytes.extend_from_slice(book.named(name)?)?;
        return Ok(());
    }
    match piece.split_once('*') {
        Some((digits, times)) => put_digits(alloc, bytes, digits, times.parse::<usize>()?),
        None => put_digits(alloc, bytes, piece, 1),
    }
}

/// Adds the bytes of a text's hex digits, this many times.
fn put_digits(
    alloc: Global,
    bytes: &mut Vec<u8>,
    digits: &str,
    times: usize,
) -> Result<(), Complaint> {
    let piece = hex::decode(alloc, digits)?;
    let pieces = piece.as_slice().repeat(alloc, times)?;
    bytes.extend_from_slice(pieces.as_slice())?;
    Ok(())
}
