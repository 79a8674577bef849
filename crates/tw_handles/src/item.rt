//! A datum of a report, as C reads it.

ghost use Rattle.std.specs.Prelude.{◌≡◌, option_map};
ghost use Rattle.std.specs.Option.{option_copied};
ghost use Rattle.tw_types.specs.StoreCalls.{value_in};
ghost use Rattle.tw_handles.specs.Reading.{IsFilled, IsWritten, container_item as container_item_of, item_by, item_of as item_of_datum, leaf_letter as leaf_letter_of, letter_of as letter_of_type, unset_item as unset_item_of, value_item as value_item_of, value_of as value_of_datum, valueless_item as valueless_item_of};

use crate::codes;
use tw_store::Datum;
use tw_types::{DataType, Scalar, Value};

/// An output, a member of a container, a value of a map, or a subscript.
#[repr(C)]
#[derive(Clone, Copy)]
pub struct Item {
    /// The integer, if `kind` is `i`.
    pub number: i64,
    /// The length of a text in bytes if `kind` is `t`, the number of members or values if it is `c` or `m`.
    pub length: usize,
    /// `i`: an integer; `t`: a text; `c`: a container; `m`: a map; `u`: an unset scalar; 0: the datum isn't live.
    pub kind: u8,
    /// 1 if the datum is closed, so that it never changes again.
    pub closed: u8,
    /// `i` or `t`: the type of the value, of the scalars in a container, or of a map's values; `s` if those are sums.
    pub scalar: u8,
    /// `i` or `t`: the type of the subscripts; 0 if it is neither a container nor a map.
    pub by: u8,
}

/// Returns the letter of a scalar type.
pub(crate) fn letter_of(ty: Scalar) -> u8
    ensures { result ≡ letter_of_type ty }
{
    match ty {
        Scalar::Int => b'i',
        Scalar::Text => b't',
    }
}

/// Returns the letter of the scalar inside all containers, or of a map's values.
pub(crate) fn leaf_letter(ty: DataType) -> u8
    ensures { result ≡ leaf_letter_of ty }
{
    if ty.has_sums() {
        b's'
    } else {
        letter_of(ty.scalar())
    }
}

/// Describes a value, which is closed.
pub(crate) fn value_item(value: &Value) -> Item
    ensures { result ≡ value_item_of value.now }
{
    match value {
        Value::Int(number) => Item {
            number: *number,
            length: 0,
            kind: b'i',
            closed: 1,
            scalar: b'i',
            by: 0,
        },
        Value::Text(text) => Item {
            number: 0,
            length: text.as_str().len(),
            kind: b't',
            closed: 1,
            scalar: b't',
            by: 0,
        },
    }
}

/// Describes an unset scalar.
fn unset_item(ty: DataType) -> Item
    ensures { result ≡ unset_item_of ty }
{
    Item {
        number: 0,
        length: 0,
        kind: b'u',
        closed: 0,
        scalar: letter_of(ty.scalar()),
        by: 0,
    }
}

/// Describes a container or a map.
fn container_item(datum: &Datum) -> Item
    ensures { result ≡ container_item_of datum.now.datum }
{
    let ty = datum.ty();
    let kind = if ty.is_map() { b'm' } else { b'c' };
    let closed = if datum.closed() { 1 } else { 0 };
    let by = if ty.has_subscripts_by(Scalar::Text) {
        b't'
    } else {
        b'i'
    };
    Item {
        number: 0,
        length: datum.count(),
        kind,
        closed,
        scalar: leaf_letter(ty),
        by,
    }
}

/// Describes a datum that has no value.
fn valueless_item(datum: &Datum) -> Item
    ensures { result ≡ valueless_item_of datum.now.datum }
{
    if datum.is_unset() {
        unset_item(datum.ty())
    } else {
        container_item(datum)
    }
}

/// Describes a live datum.
fn datum_item(datum: &Datum) -> Item
    ensures { result ≡ item_by datum.now.datum (value_in datum.now.datum.content) }
{
    match datum.value() {
        Some(value) => value_item(value),
        None => valueless_item(datum),
    }
}

/// Describes a datum, if it is live.
pub(crate) fn item_of(datum: Option<&Datum>) -> Item
    ensures { result ≡ item_of_datum (option_map (λ d. d.datum) (option_copied datum.entry)) }
{
    match datum {
        Some(datum) => datum_item(datum),
        None => Item {
            number: 0,
            length: 0,
            kind: 0,
            closed: 0,
            scalar: 0,
            by: 0,
        },
    }
}

/// Returns the value of a datum, if it is a live scalar that is set.
pub(crate) fn value_of(datum: Option<&Datum>) -> Option<&Value>
    ensures { option_copied result ≡ value_of_datum (option_map (λ d. d.datum) (option_copied datum.entry)) }
{
    match datum {
        Some(datum) => datum.value(),
        None => None,
    }
}

/// Writes a text to the start of a buffer. Returns `NO_ROOM` if the buffer is shorter.
pub fn fill(text: &[u8], room: &mut [u8]) -> u8
    ensures { IsFilled text.now room.old room.new result }
{
    let length = text.len();
    if length <= room.len() {
        room[..length].copy_from_slice(text);
        codes::DONE
    } else {
        codes::NO_ROOM
    }
}

/// Writes the text of a value to the start of a buffer, or returns `NO_TEXT` or `NO_ROOM`.
pub(crate) fn write_text(value: Option<&Value>, room: &mut [u8]) -> u8
    ensures { IsWritten (option_copied value.entry) room.old room.new result }
{
    match value {
        Some(Value::Text(text)) => fill(text.as_str().as_bytes(), room),
        Some(Value::Int(_)) | None => codes::NO_TEXT,
    }
}
