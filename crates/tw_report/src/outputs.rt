//! Writes outputs, with the members of containers and the values of maps.

ghost use Rattle.std.specs.Prelude.{◌≡◌, ◌++◌, OnOk, if◌then◌else◌, option_map};
ghost use Rattle.std.specs.Option.{option_copied};
ghost use Rattle.std.specs.FinMap.{entries, get};
ghost use Rattle.tw_types.specs.StoreCalls.{entries_in, members_in};
ghost use Rattle.tw_datum.specs.Kept.{has_entries};
ghost use Rattle.tw_report.specs.Report.{closed_text, container_head, container_word, datum_text, map_head, map_word, member_line, member_lines, output_line, output_text, report, scalar_word, subscript_text, value_line, value_lines, values_word};

use crate::lines::{put, put_numbered, put_value};
use crate::report_source::ReportSource;
use std::alloc::AllocError;
use tw_datum::{Datum, Member};
use tw_lexer::{put_decimal, put_quoted, put_signed};
use tw_types::{DataType, DatumId, Scalar, Value};

/// Returns the word of a scalar's type.
fn scalar_word(scalar: Scalar) -> &'static str
    ensures { result.now ≡ scalar_word scalar }
{
    match scalar {
        Scalar::Int => "int",
        Scalar::Text => "text",
    }
}

/// Returns the word of a container's type, which depends on the type of its subscripts, and a blank.
fn container_word(ty: DataType) -> &'static str
    ensures { result.now ≡ container_word ty }
{
    if ty.is_container_by(Scalar::Text) {
        "tcont "
    } else {
        "cont "
    }
}

/// Returns the word of a map's type, which depends on the type of its subscripts, and a blank.
fn map_word(ty: DataType) -> &'static str
    ensures { result.now ≡ map_word ty }
{
    if ty.is_map_by(Scalar::Text) {
        "tmap "
    } else {
        "map "
    }
}

/// Returns the word of a map's values, or of its sums.
fn values_word(ty: DataType) -> &'static str
    ensures { result.now ≡ values_word ty }
{
    if ty.has_sums() {
        "sum"
    } else {
        scalar_word(ty.scalar())
    }
}

/// Returns the word for a closed datum, or nothing.
fn closed_text(closed: bool) -> &'static str
    ensures { result.now ≡ closed_text closed }
{
    if closed { " closed " } else { " open " }
}

/// Appends the type of a container, and whether it is closed.
fn put_container_head<M: Member>(out: &mut Vec<u8>, datum: &Datum<M>) -> Result<(), AllocError>
    ensures { OnOk result (out.new.items ≡ out.old.items ++ container_head datum.now.datum) }
{
    put(out, container_word(datum.ty()))?;
    put(out, scalar_word(datum.ty().scalar()))?;
    put(out, closed_text(datum.closed()))
}

/// Appends the type of a map, and whether it is closed.
fn put_map_head<M: Member>(out: &mut Vec<u8>, datum: &Datum<M>) -> Result<(), AllocError>
    ensures { OnOk result (out.new.items ≡ out.old.items ++ map_head datum.now.datum) }
{
    put(out, map_word(datum.ty()))?;
    put(out, values_word(datum.ty()))?;
    put(out, closed_text(datum.closed()))
}

/// Appends the type of a container or a map, and whether it is closed.
fn put_head<M: Member>(out: &mut Vec<u8>, datum: &Datum<M>) -> Result<(), AllocError>
    ensures { OnOk result (out.new.items ≡ out.old.items
        ++ (if has_entries datum.now.datum.content then map_head datum.now.datum else container_head datum.now.datum)) }
{
    if datum.is_map() {
        put_map_head(out, datum)
    } else {
        put_container_head(out, datum)
    }
}

/// Appends the content of a datum, or `gone` if it was freed.
fn put_datum<M: Member>(out: &mut Vec<u8>, datum: Option<&Datum<M>>) -> Result<(), AllocError>
    ensures { OnOk result (out.new.items ≡ out.old.items ++ datum_text (option_map (λ d. d.datum) (option_copied datum.entry))) }
{
    let Some(datum) = datum else {
        return put(out, "gone");
    };
    if let Some(value) = datum.value() {
        return put_value(out, value);
    }
    if datum.is_unset() {
        return put(out, "unset");
    }
    put_head(out, datum)?;
    put_decimal(out, datum.count())
}

/// Appends the line of an output: its number, and its datum or `gone`.
fn put_output_line<M: Member>(
    out: &mut Vec<u8>,
    number: usize,
    datum: Option<&Datum<M>>,
) -> Result<(), AllocError>
    ensures { OnOk result (out.new.items ≡ out.old.items ++ output_line number (option_map (λ d. d.datum) (option_copied datum.entry))) }
{
    put_numbered(out, "out ", number)?;
    put(out, " ")?;
    put_datum(out, datum)?;
    put(out, "\n")
}

/// Appends a subscript; a text is quoted.
fn put_subscript(out: &mut Vec<u8>, subscript: &Value) -> Result<(), AllocError>
    ensures { OnOk result (out.new.items ≡ out.old.items ++ subscript_text subscript.now) }
{
    match subscript {
        Value::Int(number) => put_signed(out, *number),
        Value::Text(text) => put_quoted(out, text.as_str()),
    }
}

/// Appends the line of a container's member: its subscript, and its datum or `gone`.
fn put_member_line<M: Member>(
    out: &mut Vec<u8>,
    member: (&Value, Option<&Datum<M>>),
) -> Result<(), AllocError>
    ensures { OnOk result (out.new.items ≡ out.old.items ++ member_line member.entry.0.now (option_map (λ d. d.datum) (option_copied member.entry.1))) }
{
    let (subscript, datum) = member;
    put(out, "  at ")?;
    put_subscript(out, subscript)?;
    put(out, " ")?;
    put_datum(out, datum)?;
    put(out, "\n")
}

/// Appends the lines of a container's members, in the order of their subscripts: `index` counts the smaller ones.
fn put_member_lines<T: ReportSource>(
    out: &mut Vec<u8>,
    source: &T,
    container: &Datum<T::Kept>,
) -> Result<(), AllocError>
    requires { T.IsShown source.now container.now }
    ensures { OnOk result (out.new.items ≡ out.old.items
        ++ member_lines (T.live source.now) (entries (members_in container.now.datum.content))) }
{
    for index in 0..container.len() {
        let Some(member) = source.member(container, index) else {
            unreachable!();
        };
        put_member_line(out, member)?;
    }
    Ok(())
}

/// Appends the line of a map's value.
fn put_value_line(out: &mut Vec<u8>, entry: &(Value, Value)) -> Result<(), AllocError>
    ensures { OnOk result (out.new.items ≡ out.old.items ++ value_line entry.now) }
{
    put(out, "  at ")?;
    put_subscript(out, &entry.0)?;
    put(out, " ")?;
    put_value(out, &entry.1)?;
    put(out, "\n")
}

/// Appends the lines of a map's values, in the order of their subscripts: `index` counts the smaller ones.
fn put_value_lines<M: Member>(out: &mut Vec<u8>, map: &Datum<M>) -> Result<(), AllocError>
    ensures { OnOk result (out.new.items ≡ out.old.items ++ value_lines (entries (entries_in map.now.datum.content))) }
{
    if !map.is_map() {
        return Ok(());
    }
    for index in 0..map.count() {
        let Some(entry) = map.nth_value(index) else {
            unreachable!();
        };
        put_value_line(out, entry)?;
    }
    Ok(())
}

/// Appends the line of an output, and those of its members or values.
fn put_output<T: ReportSource>(
    out: &mut Vec<u8>,
    source: &T,
    number: usize,
    id: DatumId,
) -> Result<(), AllocError>
    ensures { OnOk result (out.new.items ≡ out.old.items
        ++ output_text (T.live source.now) number (get (T.live source.now) id)) }
{
    let datum = source.datum(id);
    put_output_line(out, number, datum)?;
    match datum {
        Some(datum) => {
            put_member_lines(out, source, datum)?;
            put_value_lines(out, datum)
        }
        None => Ok(()),
    }
}

/// Appends a report: the outputs, and its last lines.
pub fn put_report<T: ReportSource>(
    out: &mut Vec<u8>,
    source: &T,
    last_lines: &[u8],
) -> Result<(), AllocError>
    ensures { OnOk result (out.new.items ≡ out.old.items ++ report (T.live source.now) (T.ids source.now) last_lines.now) }
{
    for (number, id) in source.outputs().iter().enumerate() {
        put_output(out, source, number, *id)?;
    }
    out.extend_from_slice(last_lines)
}
