//! Typings that differ where two ways meet.

ghost use Rattle.std.specs.List.{AllByRecursion};
ghost use Rattle.std.specs.Prelude.{◌<◌, ◌≤◌, ◌^◌, length};
ghost use Rattle.tw_code.specs.format.Program.{IsInstr, IsProcedure};

use crate::place::Place;
use crate::requirement::put_right;
use tw_code::{Instr, Way};
use tw_verify::{RightType, Typing, next_place};
use tw_writer::Writer;

/// A register on which two typings differ.
#[derive(Clone, Copy)]
pub(crate) struct Difference {
    pub(crate) register: u8,
    pub(crate) first: Option<RightType>,
    pub(crate) second: Option<RightType>,
}

/// Returns the first register on which two typings differ.
pub(crate) fn first_difference(first: &Typing, second: &Typing) -> Option<Difference> {
    for register in 0..16u8 {
        let (first, second) = (first.right_at(register), second.right_at(register));
        if first != second {
            return Some(Difference {
                register,
                first,
                second,
            });
        }
    }
    None
}

/// Returns whether an instruction at one place continues at another with this outcome.
pub(crate) fn goes_on(way: Way, before: usize, instr: &Instr, place: usize) -> bool
    requires { before < 2 ^ 32 }
{
    next_place(way, before, instr.flow()) == Some(place)
}

/// Returns the typing that an earlier place leaves at this one with this outcome, if it leads here.
fn leaving(at: &Place<'_>, way: Way, before: usize) -> Option<Typing>
    requires limit { length at.now.procedure.now.code ≤ 4096 }
    requires operands { AllByRecursion IsInstr at.now.procedure.now.code }
{
    let instr = at.code().get(before)?;
    let from = at.typings.get(before)?;
    if goes_on(way, before, instr, at.place) {
        Some(from.after(at.procedures, way, instr))
    } else {
        None
    }
}

/// Returns the difference, if any, between the typing here and the one that an earlier place leaves with this outcome, if it leads here.
fn difference_by(
    at: &Place<'_>,
    way: Way,
    before: usize,
    here: &Typing,
) -> Option<Option<Difference>>
    requires limit { length at.now.procedure.now.code ≤ 4096 }
    requires operands { AllByRecursion IsInstr at.now.procedure.now.code }
{
    let other = leaving(at, way, before)?;
    Some(first_difference(here, &other))
}

/// Two places that lead to a third with these outcomes, so that different rights arrive there.
#[derive(Clone, Copy)]
struct Meeting {
    first: (usize, Way),
    second: (usize, Way),
    difference: Difference,
}

/// Returns the first ways that lead here and leave the rights here, and others, and the first register that differs.
fn meeting_at(at: &Place<'_>) -> Option<Meeting>
    requires limit { length at.now.procedure.now.code ≤ 4096 }
    requires operands { AllByRecursion IsInstr at.now.procedure.now.code }
{
    let here = at.typings.get(at.place)?;
    let mut first = None;
    let mut second = None;
    for before in 0..at.place {
        for way in [Way::Completed, Way::Skipped] {
            match difference_by(at, way, before, here) {
                Some(None) => first = first.or(Some((before, way))),
                Some(Some(difference)) => second = second.or(Some((before, way, difference))),
                None => {}
            }
        }
    }
    let (place, way, difference) = second?;
    Some(Meeting {
        first: first?,
        second: (place, way),
        difference,
    })
}

/// Adds what the register holds on one path, with the path's last line, and whether that skips.
fn put_side(out: &mut Writer, at: &Place<'_>, last: (usize, Way), right: Option<RightType>) {
    put_right(out, right);
    match last.1 {
        Way::Completed => {
            out.put(" after ");
            at.put_other(out, last.0)
        }
        Way::Skipped => {
            out.put(" if ");
            at.put_other(out, last.0);
            out.put(" skips")
        }
    }
}

/// Adds which register differs where two ways meet, and what it holds on each.
pub(crate) fn put_meeting(out: &mut Writer, at: &Place<'_>)
    requires { IsProcedure at.now.procedure.now }
{
    let Some(found) = meeting_at(at) else {
        return;
    };
    let Meeting {
        first,
        second,
        difference,
    } = found;
    out.put_numbered("d", usize::from(difference.register));
    out.put(" is");
    put_side(out, at, first, difference.first);
    out.put(",");
    put_side(out, at, second, difference.second);
    out.put("\n")
}
