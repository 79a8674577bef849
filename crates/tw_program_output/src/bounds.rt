//! Output of `check --bounds` about a program's runs.

use crate::answer::{CheckAnswer, FoundBounds};
use crate::place::{place_object, put_placed_text};
use crate::rows::{Cell, Shown, put_each, put_line, row_object};
use std::alloc::Global;
use tw_bounds::{Bound, Circle, LimitedBounds, RunBounds};
use tw_json_output::ObjectWriter;
use tw_order::BoundsOf;
use tw_source::SourceText;
use tw_writer::Writer;

// ---- rows

/// Returns a bound as a number, or why there is none.
fn bound_value(bound: Option<Bound>) -> Shown<'static> {
    match bound {
        Some(Bound::AtMost(number)) => Shown::Number(number),
        Some(Bound::Over) => Shown::Word("over"),
        Some(Bound::Endless) | None => Shown::Word("none"),
    }
}

/// Returns the cells of bounds of these kinds.
fn bound_cells(bounds: [Option<Bound>; 7]) -> [Cell<'static>; 7] {
    let [tasks, instructions, data, members, rules, bytes, events] = bounds;
    [
        Cell::new("tasks", "tasks ", bound_value(tasks)),
        Cell::new("instructions", "instructions ", bound_value(instructions)),
        Cell::new("data", "data ", bound_value(data)),
        Cell::new("members", "members ", bound_value(members)),
        Cell::new("rules", "rules ", bound_value(rules)),
        Cell::new("bytes", "bytes ", bound_value(bytes)),
        Cell::new("events", "events ", bound_value(events)),
    ]
}

/// Returns the bounds of a procedure's tasks.
fn run_cells(bounds: &RunBounds, number: usize) -> [Cell<'static>; 7] {
    bound_cells([
        bounds.tasks.get(number).copied(),
        bounds.instructions.get(number).copied(),
        bounds.data.get(number).copied(),
        bounds.members.get(number).copied(),
        bounds.rules.get(number).copied(),
        bounds.bytes.get(number).copied(),
        bounds.events.get(number).copied(),
    ])
}

/// Returns the bounds by a limit.
fn limit_cells(bounds: LimitedBounds) -> [Cell<'static>; 7] {
    bound_cells([
        Some(bounds.tasks),
        Some(bounds.instructions),
        Some(bounds.data),
        Some(bounds.members),
        Some(bounds.rules),
        Some(bounds.bytes),
        Some(bounds.events),
    ])
}

// ---- text

/// Adds the lines of the procedures' bounds.
fn put_bound_lines(out: &mut Writer, answer: &CheckAnswer, bounds: &RunBounds) {
    for row in &answer.procedures {
        out.put_numbered("bounds ", row.number);
        put_each(out, " ", &run_cells(bounds, row.number), "");
        let name = Shown::Name(answer.names.procedure(row.number));
        put_line(out, &[Cell::new("name", "", name)]);
    }
}

/// Adds why there are no bounds, with the line of the call if there is a text.
fn put_circle(out: &mut Writer, source: &Option<SourceText<'_>>, circle: Circle) {
    let (head, tail) = ("bound none: procedure ", " leads back to itself\n");
    put_placed_text(out, source, head, circle.procedure, circle.place, tail);
}

/// Adds main's bounds, or those of each procedure.
fn put_own_lines(out: &mut Writer, whose: BoundsOf, answer: &CheckAnswer, found: &FoundBounds) {
    match (whose, found.circle) {
        (BoundsOf::OfEach, _) => put_bound_lines(out, answer, &found.bounds),
        (_, None) => put_each(out, "bound ", &run_cells(&found.bounds, 0), "\n"),
        (_, Some(_)) => {}
    }
}

/// Adds the lines of the bounds, if they were found.
pub(crate) fn put_bounds(
    out: &mut Writer,
    source: &Option<SourceText<'_>>,
    whose: BoundsOf,
    answer: &CheckAnswer,
) {
    let Some(found) = &answer.bounds else {
        return;
    };
    put_own_lines(out, whose, answer, found);
    if let Some(circle) = found.circle {
        put_circle(out, source, circle);
    }
    if let Some(bounds) = found.limited {
        put_each(out, "limited ", &limit_cells(bounds), "\n");
    }
}

// ---- JSON

/// Adds main's bounds, a circle of calls and the bounds by the limit.
pub(crate) fn put_found(alloc: Global, object: &mut ObjectWriter, found: &FoundBounds) {
    object.put_object("bounds", bounds_object(alloc, found, 0));
    if let Some(at) = found.circle {
        object.put_object("circle", place_object(alloc, at.procedure, at.place));
    }
    if let Some(bounds) = found.limited {
        object.put_object("limited", row_object(alloc, &limit_cells(bounds)));
    }
}

/// Returns the object of a procedure's bounds.
pub(crate) fn bounds_object(alloc: Global, found: &FoundBounds, number: usize) -> ObjectWriter {
    row_object(alloc, &run_cells(&found.bounds, number))
}
