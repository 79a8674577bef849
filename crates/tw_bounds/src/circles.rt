//! Finds calls that lead back to their own procedure.

ghost use Rattle.std.specs.Prelude.{◌≡◌, ℕ, ◌↔◌, IfOk, IfSome, IsTrue, MatchOption, None};
ghost use Rattle.tw_bounds.specs.Bounds.{CallsEnd};
ghost use Rattle.tw_bounds.specs.Circles.{CallsEndless, IsCall, IsCircle, IsEndless};
ghost use Rattle.tw_bounds.specs.Reports.{AreReported, AreRunBounds};
ghost use Rattle.tw_bounds.specs.Runs.{tasks_alone};
ghost use Rattle.tw_bounds.specs.Solving.{IsBoundable};

use crate::bound::{Bound, RunBounds};
use std::alloc::{AllocError, Global};
use tw_code::{Instr, Procedure};
use tw_verify::Verified;

/// A call that leads back to its own procedure, directly or through others.
#[derive(Clone, Copy, Debug)]
pub struct Circle {
    /// The number of the procedure.
    pub procedure: usize,
    /// The place of its RULE or PUT.
    pub place: usize,
}

/// Returns the procedure that an instruction calls, if it calls one.
fn callee(instr: &Instr) -> Option<usize>
    ensures { MatchOption result ((q : ℕ) → IsCall instr.now q → ⊥) (IsCall instr.now) }
{
    match instr {
        Instr::Rule(action) => Some(usize::from(action.procedure)),
        Instr::Put(action) => Some(usize::from(action.procedure)),
        Instr::Local(_) | Instr::Data(_) | Instr::Ret => None,
    }
}

/// Returns whether a procedure has no bound, because its calls don't end.
fn is_endless(bounds: &[Bound], number: usize) -> bool
    ensures { IsTrue result ↔ IsEndless bounds.now number }
{
    matches!(bounds.get(number), Some(Bound::Endless))
}

/// Returns the procedure that an instruction calls, if it has no bound.
fn endless_callee(bounds: &[Bound], instr: &Instr) -> Option<usize>
    ensures { MatchOption result ((q : ℕ) → IsCall instr.now q → IsEndless bounds.now q → ⊥) (λ q. IsCall instr.now q × IsEndless bounds.now q) }
{
    callee(instr).filter(|number| is_endless(bounds, *number))
}

/// Returns the first place that calls a procedure without a bound, and that procedure.
fn endless_call(bounds: &[Bound], code: &[Instr]) -> Option<(usize, usize)>
    ensures { MatchOption result ((place q : ℕ) → CallsEndless bounds.now code.now place q → ⊥) (λ call. CallsEndless bounds.now code.now call.0 call.1) }
{
    for (place, instr) in code.iter().enumerate() {
        if let Some(number) = endless_callee(bounds, instr) {
            return Some((place, number));
        }
    }
    None
}

/// Follows calls of procedures without a bound from main on, until one leads back.
fn circle_from_main(
    alloc: Global,
    program: &[Procedure],
    bounds: &[Bound],
) -> Result<Circle, AllocError>
    requires boundable { IsBoundable program.now }
    requires reported { AreReported program.now tasks_alone bounds.now }
    requires endless { IsEndless bounds.now 0 }
    ensures { IfOk result (IsCircle program.now) }
{
    let mut chain = Vec::new(alloc);
    let mut procedure = 0;
    for _ in 0..program.len() {
        let Some((place, next)) = endless_call(bounds, program[procedure].code.as_slice()) else {
            unreachable!();
        };
        chain.push(procedure)?;
        if chain.contains(&next) {
            return Ok(Circle { procedure, place });
        }
        procedure = next;
    }
    unreachable!()
}

/// Returns a circle of calls to which main's calls lead, or `None` if main's calls end.
pub fn circle_of_calls(
    alloc: Global,
    verified: &Verified,
    bounds: &RunBounds,
) -> Result<Option<Circle>, AllocError>
    requires { AreRunBounds verified.now.program bounds.now }
    ensures found { IfOk result (λ o. IfSome o (IsCircle verified.now.program)) }
    ensures none { IfOk result (λ o. o ≡ None → CallsEnd verified.now.program 0) }
{
    let program = verified.program();
    let procedures = program.procedures();
    if !is_endless(&bounds.tasks, 0) {
        return Ok(None);
    }
    let circle = circle_from_main(alloc, procedures, &bounds.tasks)?;
    Ok(Some(circle))
}
