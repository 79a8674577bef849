//! The object of a check's answer, for `check --json`.

ghost use Rattle.std.specs.Prelude.{IfOk};
ghost use Rattle.tw_json_output.specs.Lines.{IsJsonLine};

use crate::answer::{CheckAnswer, ProcedureRow};
use crate::bounds::bounds_object;
use crate::check::{needs_cells, procedure_cells};
use crate::requested::put_requested;
use crate::rows::row_object;
use std::alloc::{AllocError, Global};
use tw_json_output::{ArrayWriter, ObjectWriter};
use tw_order::{BoundsOf, CheckOrder};
use tw_source::example_lines;
use tw_verify::Verified;

/// Returns the object of a procedure, with its bounds if those of each are requested.
fn procedure_object(
    alloc: Global,
    whose: BoundsOf,
    answer: &CheckAnswer,
    row: ProcedureRow,
) -> ObjectWriter {
    let mut object = row_object(alloc, &procedure_cells(&answer.names, row));
    if let (BoundsOf::OfEach, Some(found)) = (whose, &answer.bounds) {
        object.put_object("bounds", bounds_object(alloc, found, row.number));
    }
    object
}

/// Returns the objects of the procedures.
fn procedure_array(alloc: Global, whose: BoundsOf, answer: &CheckAnswer) -> ArrayWriter {
    let mut array = ArrayWriter::new(alloc);
    for row in &answer.procedures {
        array.push(procedure_object(alloc, whose, answer, *row));
    }
    array
}

/// Adds how many procedures have a search, if any has.
fn put_searches(object: &mut ObjectWriter, searching: usize) {
    if searching > 0 {
        object.put_number("searches", searching as u64);
    }
}

/// Returns the JSON line of the check of an accepted program, with inputs that fit it.
pub(crate) fn check_line(
    alloc: Global,
    order: &CheckOrder,
    verified: &Verified,
    answer: &CheckAnswer,
) -> Result<Vec<u8>, AllocError>
    ensures { IfOk result (λ line. IsJsonLine line.items) }
{
    let inputs = example_lines(alloc, verified.signature())?;
    let mut object = ObjectWriter::new(alloc);
    object.put_word("status", "accepted");
    object.put_array(
        "procedures",
        procedure_array(alloc, order.lines.bounds, answer),
    );
    object.put_lines("inputs", &inputs);
    object.put_object("needs", row_object(alloc, &needs_cells(answer.needs)));
    put_searches(&mut object, answer.searching);
    put_requested(alloc, &mut object, answer);
    let line = object.line()?;
    Ok(line.into_bytes())
}
