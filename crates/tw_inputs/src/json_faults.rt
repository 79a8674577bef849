//! Says what of a text has no inputs, and where.

ghost use Rattle.std.specs.Prelude.{◌≡◌, ◌++◌, List, ℕ, IfOk, OnOk};
ghost use Rattle.tw_inputs.specs.JsonInputs.{IsFaultText, first_line};

use crate::json_inputs::{Place, type_at};
use json::{Reader, Scratch, Token};
use std::alloc::{AllocError, Global};
use tw_lexer::{put, put_numbered};
use tw_types::{DataType, Param, Scalar};

/// The deepest nesting of arrays and objects. Inputs nest two deep, and each level takes 300 bytes of stack.
pub(crate) const MOST_DEPTH: usize = 16;

/// Says which members a line has that is an object.
const TWO_MEMBERS: &str =
    "expected two members: \"id\", a number or a string, and \"inputs\", an array";

/// Returns the offset of the item after so many. If one of them is no JSON, it is the offset of what is at fault.
fn item_offset(reader: &mut Reader<'_>, index: usize) -> usize {
    let _array = reader.next();
    for _ in 0..index {
        if reader.skip_value(MOST_DEPTH).is_err() {
            return reader.offset();
        }
    }
    reader.offset()
}

/// Returns the offset of the first byte at which a text is no JSON.
fn text_offset(reader: &mut Reader<'_>) -> usize {
    if reader.skip_value(MOST_DEPTH).is_err() {
        return reader.offset();
    }
    let end = reader.offset();
    let _token = reader.next();
    end
}

/// Reads up to the value of an object's first member of this name. Returns whether there is one, among at most so many members.
fn find_member(reader: &mut Reader<'_>, name: &str, most: usize) -> bool {
    let _object = reader.next();
    for _ in 0..most {
        match reader.next_key() {
            Ok(Some(key)) if key == name => return true,
            Ok(Some(_)) => {
                if reader.skip_value(MOST_DEPTH).is_err() {
                    return false;
                }
            }
            _ => return false,
        }
    }
    false
}

/// Returns whether a text begins like an object, and the reader is then at its value with this name, if it has one.
fn enter(reader: &mut Reader<'_>, text: &str, name: &str) -> bool {
    text.as_bytes().get(reader.offset()) == Some(&b'{') && find_member(reader, name, text.len())
}

/// Returns the offset of the fault.
fn offset_of(text: &str, place: Place, scratch: &mut Scratch) -> Result<usize, AllocError> {
    let mut reader = Reader::new(text, scratch)?;
    match place {
        Place::Text => Ok(text_offset(&mut reader)),
        Place::Array => Ok(reader.offset()),
        Place::Item(number) => {
            let _inputs = enter(&mut reader, text, "inputs");
            Ok(item_offset(&mut reader, number.saturating_sub(1)))
        }
    }
}

/// Says which members an object has for a container or a map of this type.
fn members_text(ty: DataType) -> &'static str {
    match (ty.has_subscripts_by(Scalar::Text), ty.scalar()) {
        (false, Scalar::Int) => "expected members such as \"1\": 7",
        (false, Scalar::Text) => "expected members such as \"1\": \"text\"",
        (true, Scalar::Int) => "expected members such as \"key\": 7",
        (true, Scalar::Text) => "expected members such as \"key\": \"text\"",
    }
}

/// Says which items an array has for a map of this type, or that there should be no array.
fn items_text(ty: DataType) -> &'static str {
    match (ty.is_map_by(Scalar::Int), ty.scalar()) {
        (true, Scalar::Int) => "expected items such as 7",
        (true, Scalar::Text) => "expected items such as \"text\"",
        (false, _) => "expected an integer, a string or an object",
    }
}

/// Says what an item should be, by how it begins.
fn item_text(ty: DataType, begins: Option<u8>) -> &'static str {
    match begins {
        Some(b'{') => members_text(ty),
        Some(b'[') => items_text(ty),
        Some(b'-' | b'0'..=b'9') => "expected an integer of 64 bits, without point and exponent",
        _ => "expected an integer, a string or an object",
    }
}

/// Says what is at fault.
fn reason(params: &[Param], place: Place, begins: Option<u8>) -> &'static str {
    match place {
        Place::Text => "this is no JSON",
        Place::Array => "expected an array with an item for each input",
        Place::Item(number) => item_text(type_at(params, number.saturating_sub(1)), begins),
    }
}

/// Appends the first line of an error: which input is at fault, or that all are.
fn put_first_line(out: &mut Vec<u8>, place: Place) -> Result<(), AllocError>
    ensures { OnOk result (out.new.items ≡ out.old.items ++ first_line place) }
{
    match place {
        Place::Text | Place::Array => put(out, "inputs refused\n"),
        Place::Item(number) => {
            put_numbered(out, "input ", number)?;
            put(out, " refused\n")
        }
    }
}

/// Appends the line and the column of an offset, which count from 1. The text's first line has the number `first`.
fn put_place(out: &mut Vec<u8>, text: &[u8], offset: usize, first: usize) -> Result<(), AllocError>
    ensures { OnOk result ((more : List ℕ) × (out.new.items ≡ out.old.items ++ more)) }
{
    let (mut line, mut column) = (first, 1_usize);
    for byte in text.iter().take(offset) {
        if *byte == b'\n' {
            line = line.saturating_add(1);
            column = 1;
        } else {
            column = column.saturating_add(1);
        }
    }
    put_numbered(out, "line ", line)?;
    put_numbered(out, ", column ", column)
}

/// Returns the lines of an error at an offset. The text's first line has the number `first`.
fn lines_at(
    alloc: Global,
    text: &[u8],
    place: Place,
    first: usize,
    offset: usize,
    why: &str,
) -> Result<Vec<u8>, AllocError>
    ensures { IfOk result (λ out. IsFaultText place out.items) }
{
    let mut out = Vec::new(alloc);
    put_first_line(&mut out, place)?;
    put_place(&mut out, text, offset, first)?;
    put(&mut out, ": ")?;
    put(&mut out, why)?;
    put(&mut out, "\n")?;
    Ok(out)
}

/// Returns the lines of an error: which input of a text is refused, or that all are; and where and why. The text's first line has the number `first`.
pub fn fault_text(
    alloc: Global,
    params: &[Param],
    text: &str,
    place: Place,
    first: usize,
    scratch: &mut Scratch,
) -> Result<Vec<u8>, AllocError>
    ensures { IfOk result (λ out. IsFaultText place out.items) }
{
    let offset = offset_of(text, place, scratch)?;
    let bytes = text.as_bytes();
    let why = reason(params, place, bytes.get(offset).copied());
    lines_at(alloc, bytes, place, first, offset, why)
}

/// Returns whether a text is an object with a member of this name.
fn has_member(text: &str, name: &str, scratch: &mut Scratch) -> Result<bool, AllocError> {
    let mut reader = Reader::new(text, scratch)?;
    Ok(enter(&mut reader, text, name))
}

/// Like `fault_text`, for the line with this number, which may be an object with an id.
pub fn line_fault_text(
    alloc: Global,
    params: &[Param],
    text: &str,
    place: Place,
    number: usize,
    scratch: &mut Scratch,
) -> Result<Vec<u8>, AllocError>
    ensures { IfOk result (λ out. IsFaultText place out.items) }
{
    if matches!(place, Place::Array) && has_member(text, "id", scratch)? {
        let offset = offset_of(text, place, scratch)?;
        return lines_at(alloc, text.as_bytes(), place, number, offset, TWO_MEMBERS);
    }
    fault_text(alloc, params, text, place, number, scratch)
}
