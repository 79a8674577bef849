//! Computes the bounds of all procedures.

ghost use Rattle.std.specs.Prelude.{◌≡◌, ◌+◌, ◌*◌, ◌^◌, ◌<◌, ◌≤◌, ℕ, IfOk, IfSome, List, None, Option, length, replicate};
ghost use Rattle.tw_code.specs.accepting.Structure.{IsStructured};
ghost use Rattle.tw_code.specs.format.Program.{IsProcedure, IsProgram};
ghost use Rattle.tw_bounds.specs.Bounds.{text_registers};
ghost use Rattle.tw_bounds.specs.Solving.{AreCapped, AreCappedBounds, AreWithin, CallsUnknown, IsBoundable, IsCappedBound, IsFixpoint, IsNext};
ghost use Rattle.tw_bounds.specs.Rows.{cap};

use crate::row::capped;
use crate::texts::text_registers;
use crate::walk::greatest_walk_cost;
use crate::weighing::place_costs;
use crate::weights::Weights;
use std::alloc::{AllocError, Global};
use tw_code::Procedure;

/// Returns how much a bound counts for a task and its registers.
fn task_weight(weights: &Weights, procedure: &Procedure) -> u64
    requires { IsProcedure procedure.now }
    ensures is { result ≡ weights.now.task + weights.now.text * text_registers procedure.now.registers }
    ensures small { result < 2 ^ 40 }
{
    let texts = text_registers(procedure.registers.as_slice()) as u64;
    u64::from(weights.task) + u64::from(weights.text) * texts
}

/// Returns the bound of a procedure, capped over the greatest one, or `None` if it calls one whose bound isn't known.
fn bound_of(
    alloc: Global,
    program: &[Procedure],
    weights: &Weights,
    known: &[Option<u64>],
    procedure: &Procedure,
) -> Result<Option<u64>, AllocError>
    requires limits { IsProgram program.now }
    requires within { IsProcedure procedure.now }
    requires structured { IsStructured procedure.now.code }
    requires known { AreWithin known.now }
    ensures found { (exact : List (Option ℕ)) → AreCapped known.now exact → IfOk result (λ o. IfSome o (IsCappedBound program.now weights.now exact procedure.now)) }
    ensures within { IfOk result (λ o. IfSome o (λ b. b ≤ cap)) }
    ensures unknown { IfOk result (λ o. o ≡ None → CallsUnknown program.now weights.now known.now procedure.now.registers procedure.now.code) }
{
    let registers = procedure.registers.as_slice();
    let code = procedure.code.as_slice();
    let Some(costs) = place_costs(alloc, program, weights, known, registers, code)? else {
        return Ok(None);
    };
    let walk = greatest_walk_cost(alloc, code, &costs)?;
    Ok(Some(capped(task_weight(weights, procedure) + walk)))
}

/// Returns the first procedure whose bound isn't known although its callees' bounds are, and its bound.
fn next_bound(
    alloc: Global,
    weights: &Weights,
    known: &[Option<u64>],
    program: &[Procedure],
) -> Result<Option<(usize, u64)>, AllocError>
    requires limits { IsProgram program.now }
    requires boundable { IsBoundable program.now }
    requires long { length known.now ≡ length program.now }
    requires known { AreWithin known.now }
    ensures found { (exact : List (Option ℕ)) → AreCapped known.now exact → IfOk result (λ o. IfSome o (λ e. IsNext program.now weights.now known.now exact e.0 e.1)) }
    ensures small { IfOk result (λ o. IfSome o (λ e. e.1 ≤ cap)) }
    ensures none { IfOk result (λ o. o ≡ None → IsFixpoint program.now weights.now known.now) }
{
    for (number, procedure) in program.iter().enumerate() {
        if known[number].is_none() {
            if let Some(bound) = bound_of(alloc, program, weights, known, procedure)? {
                return Ok(Some((number, bound)));
            }
        }
    }
    Ok(None)
}

/// Makes the list of the procedures' bounds in which none is known yet.
fn none_known(alloc: Global, count: usize) -> Result<Vec<Option<u64>>, AllocError>
    ensures { IfOk result (λ known. known.items ≡ replicate count None) }
{
    let mut known = Vec::new(alloc);
    for _ in 0..count {
        known.push(None)?;
    }
    Ok(known)
}

/// Returns for each procedure the bound of its tasks, capped over the greatest one, or `None` if its calls don't end.
pub(crate) fn bounds(
    alloc: Global,
    program: &[Procedure],
    weights: &Weights,
) -> Result<Vec<Option<u64>>, AllocError>
    requires limits { IsProgram program.now }
    requires boundable { IsBoundable program.now }
    ensures { IfOk result (λ bounds. AreCappedBounds program.now weights.now bounds.items) }
{
    let count = program.len();
    let mut known = none_known(alloc, count)?;
    for _ in 0..count {
        match next_bound(alloc, weights, &known, program)? {
            Some((number, bound)) => {
                known[number] = Some(bound);
            }
            None => return Ok(known),
        }
    }
    Ok(known)
}
