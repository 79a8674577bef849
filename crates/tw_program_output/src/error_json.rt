//! The JSON lines of errors, made from their values.

ghost use Rattle.std.specs.Prelude.{◌≡◌, IfOk, string_bytes};
ghost use Rattle.tw_json_output.specs.Lines.{IsJsonLine};
ghost use Rattle.tw_program_output.specs.ErrorJson.{failure_in};

use std::alloc::{AllocError, Global};
use tw_json_output::{ArrayWriter, ObjectWriter};
use tw_source::{Close, ErrorCode, Failure, Position, Reply, put_code};

/// Returns the error with which a session ends, if it ends with one.
pub fn failure_in(close: Close) -> Option<Failure>
    ensures { result ≡ failure_in close }
{
    match close {
        Close::Refused(failure) | Close::Unreadable(failure) | Close::Trapped(failure) => {
            Some(failure)
        }
        Close::Success | Close::CommandLine | Close::Stuck | Close::Limit => None,
    }
}

/// Returns the status of an error's object.
fn error_status(close: Close) -> &'static str {
    match close {
        Close::Trapped(_) => "trap",
        _ => "refused",
    }
}

/// Returns the error of a reply; one without code and position if it is of none.
fn failure_of(close: Close) -> Failure {
    match failure_in(close) {
        Some(failure) => failure,
        None => Failure::uncoded(Position::Nowhere),
    }
}

/// Adds a code.
fn put_code_member(alloc: Global, object: &mut ObjectWriter, code: ErrorCode) {
    let mut text = Vec::new(alloc);
    match put_code(&mut text, code) {
        Ok(()) => object.put_bytes("code", &text),
        Err(_) => object.fail(),
    }
}

/// Adds where an error is. A column counts from 1; 0 is none.
fn put_position(object: &mut ObjectWriter, position: Position) {
    match position {
        Position::Nowhere => {}
        Position::Byte(offset) => object.put_number("byte", offset as u64),
        Position::Line { line, column, .. } => {
            object.put_number("line", line as u64);
            if column != 0 {
                object.put_number("column", column as u64);
            }
        }
        Position::Input(input) => object.put_number("input", input as u64),
        Position::Event(event) => object.put_number("event", event as u64),
        Position::Place {
            procedure,
            place,
            line,
        } => {
            object.put_number("procedure", procedure as u64);
            object.put_number("place", place as u64);
            if let Some(line) = line {
                object.put_number("line", line as u64);
            }
        }
    }
}

/// Returns the object of an error with these lines.
fn failure_object(alloc: Global, failure: Failure, lines: &[u8]) -> ObjectWriter {
    let mut object = ObjectWriter::new(alloc);
    if let Some(code) = failure.code {
        put_code_member(alloc, &mut object, code);
    }
    put_position(&mut object, failure.position);
    object.put_lines("lines", lines);
    object
}

/// Returns the lines of a reply that are between these numbers of bytes.
fn lines_between(error: &Reply, before: usize, end: usize) -> &[u8] {
    let end = end.min(error.text.len());
    &error.text[before.min(end)..end]
}

/// Returns where the lines of the first of these errors begin, or the reply's end.
fn end_before(error: &Reply, more: &[Failure]) -> usize {
    match more {
        [next, ..] => next.before,
        [] => error.text.len(),
    }
}

/// Returns the objects of further errors.
fn more_array(alloc: Global, error: &Reply, more: &[Failure]) -> ArrayWriter {
    let mut array = ArrayWriter::new(alloc);
    for index in 0..more.len() {
        let failure = more[index];
        let end = end_before(error, &more[index + 1..]);
        let lines = lines_between(error, failure.before, end);
        array.push(failure_object(alloc, failure, lines));
    }
    array
}

/// Returns the errors after the first of a reply.
fn errors_after(error: &Reply) -> &[Failure] {
    match &error.more {
        Some(more) => more,
        None => &[],
    }
}

/// Returns the object of an error's reply.
fn error_object(alloc: Global, error: &Reply) -> ObjectWriter {
    let failure = failure_of(error.close);
    let more = errors_after(error);
    let lines = lines_between(error, failure.before, end_before(error, more));
    let mut object = ObjectWriter::new(alloc);
    object.put_word("status", error_status(error.close));
    object.put_object("error", failure_object(alloc, failure, lines));
    if !more.is_empty() {
        object.put_array("more", more_array(alloc, error, more));
    }
    object
}

/// Returns the JSON line of an error's reply.
pub fn error_line(alloc: Global, error: &Reply) -> Result<String, AllocError>
    ensures { IfOk result (λ line. IsJsonLine (string_bytes line)) }
{
    error_object(alloc, error).line()
}

/// Returns the JSON line of an error's reply that has a listing before it.
pub fn listed_error_line(alloc: Global, error: &Reply) -> Result<String, AllocError>
    ensures { IfOk result (λ line. IsJsonLine (string_bytes line)) }
{
    let before = failure_of(error.close).before.min(error.text.len());
    let mut object = error_object(alloc, error);
    object.put_lines("listing", &error.text[..before]);
    object.line()
}
