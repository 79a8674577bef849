//! Loops: their ends, the register that one changes, and skips that lead out of one.

use crate::meeting::{Difference, first_difference};
use crate::place::Place;
use crate::requirement::{put_held, put_right};
use tw_code::{Flow, Instr, flow_at};
use tw_verify::Held;
use tw_writer::Writer;

/// Returns the place of the END of the loop with this first place.
fn loop_end(code: &[Instr], first: usize) -> Option<usize> {
    let mut inner = 0usize;
    for place in first..code.len() {
        match flow_at(code, place) {
            Flow::Close if inner == 0 => return Some(place),
            Flow::Close => inner = inner.saturating_sub(1),
            Flow::Begin(_) => inner = inner.saturating_add(1),
            _ => {}
        }
    }
    None
}

/// Returns the register that is changed by the loop whose END is here, with both rights.
fn changed_at(at: &Place<'_>) -> Option<Difference> {
    let code = at.code();
    let here = at.typings.get(at.place)?;
    for begin in 0..code.len() {
        let first = begin.saturating_add(1);
        let is_begin = matches!(flow_at(code, begin), Flow::Begin(_));
        if is_begin && loop_end(code, first) == Some(at.place) {
            return first_difference(here, at.typings.get(first)?);
        }
    }
    None
}

/// Adds what a register holds at a loop's END, and what it held where the loop begins.
pub(crate) fn put_changed(out: &mut Writer, at: &Place<'_>) {
    let Some(found) = changed_at(at) else {
        return;
    };
    put_held(out, found.register, Held::Right(found.first));
    out.put(", required:");
    put_right(out, found.second);
    out.put(", as where the loop begins\n")
}

/// Adds where a skip leads, and why it may not: its goal is outside the loop, or outside the code.
pub(crate) fn put_goal(out: &mut Writer, at: &Place<'_>, skip: usize) {
    let code = at.code();
    let next = at.place.saturating_add(1);
    let goal = next.saturating_add(skip);
    out.put("the skip leads to ");
    at.put_other(out, goal);
    if goal >= code.len() {
        out.put_numbered(", the code has ", code.len());
        out.put("\n");
        return;
    }
    out.put(", which is not in the same loop");
    match loop_end(code, next) {
        Some(end) => {
            out.put("; a skip to END in ");
            at.put_other(out, end);
            out.put(" ends an iteration\n")
        }
        None => out.put("\n"),
    }
}
