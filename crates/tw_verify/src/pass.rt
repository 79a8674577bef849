//! The passes over one procedure.

ghost use Rattle.std.specs.Prelude.{◌≡◌, ℕ, false, ◌≤◌, ◌<◌, Some, length, slice_get, IsTrue, IfOk, IfErr};
ghost use Rattle.std.specs.Option.{option_map};
ghost use Rattle.tw_code.specs.accepting.Flow.{flows};
ghost use Rattle.tw_code.specs.format.Program.{IsInstr, IsProcedure};
ghost use Rattle.tw_code.specs.accepting.Question.{rejection_in};
ghost use Rattle.tw_code.specs.accepting.Structure.{IsStructured};
ghost use Rattle.tw_code.specs.machine.Rights.{Typing};
ghost use Rattle.tw_code.specs.accepting.Typing.{requires_at};
ghost use Rattle.tw_code.specs.accepting.Walk.{IsBudget, greatest_budget};
ghost use Rattle.tw_code.specs.accepting.WellTyped.{IsEndOf, IsBudgetRejection, IsProcedureRejection};
ghost use Rattle.tw_verify.specs.Rejection.{verify_error_code};
ghost use Rattle.tw_verify.specs.Loops.{AreLoops};
ghost use Rattle.tw_verify.specs.Known.{AreKnown};
ghost use Rattle.tw_verify.specs.Passes.{IfFault, HasChanged, IsPass, lowest_at};
ghost use Rattle.tw_verify.specs.Verified.{AreFindings};

use crate::fault::Fault;
use crate::findings::Findings;
use crate::instructions::place_rejection;
use crate::loops::Loops;
use crate::questions::lowest;
use crate::quick::all_quick;
use crate::reached::{Reached, first_rows, row_at, send_both};
use crate::rejection::VerifyError;
use crate::searching::has_slow;
use crate::structure::ask_structure;
use crate::typing::Typing;
use std::alloc::{AllocError, Global};
use tw_budget::{BudgetError, budgets};
use tw_code::{Instr, Procedure};
use tw_types::{Items, keep};

/// Returns the typing of a place that the pass over a procedure has reached.
fn typing_at(typings: &[Typing], place: usize) -> Option<Typing>
    ensures { result ≡ slice_get typings.now place }
{
    typings.get(place).copied()
}

/// Returns whether the END at a place is reached with another typing than its loop's first place has.
fn is_changed(
    code: &[Instr],
    loops: &Loops,
    typings: &[Typing],
    place: usize,
    typing: &Typing,
) -> bool
    requires known { AreLoops code.now loops.now }
    requires within { place < length code.now }
    ensures found { IsTrue result → HasChanged code.now typings.now place typing.now }
    ensures all { (first : ℕ) (begun : Typing) → result ≡ false → IsEndOf code.now first place
        → slice_get typings.now first ≡ Some begun → typing.now ≡ begun }
{
    let Some(first) = loops.first(code, place) else {
        return false;
    };
    match typing_at(typings, first) {
        Some(begun) => !typing.is_same(&begun),
        None => false,
    }
}

/// Returns the lowest error of typing at a place that is reached.
fn typing_rejection(
    procedures: &[Procedure],
    procedure: &Procedure,
    place: usize,
    instr: &Instr,
    reached: &Reached,
    changed: bool,
) -> Option<VerifyError>
    requires { IsInstr instr.now }
    ensures { option_map verify_error_code result ≡ lowest_at
        (rejection_in (requires_at procedures.now procedure.now place instr.now reached.now.typing))
        reached.now.differs changed }
{
    let own = place_rejection(procedures, procedure, place, instr, &reached.typing);
    // V07
    let differs = if reached.differs {
        Some(VerifyError::TypingsDiffer)
    } else {
        None
    };
    // V08
    let changed = if changed {
        Some(VerifyError::TypingChanged)
    } else {
        None
    };
    lowest(lowest(own, differs), changed)
}

/// The result of a pass over a procedure, with the typing of each place that it reached.
#[derive(Drop)]
pub(crate) enum Pass {
    /// It passed the last place.
    Through(Items<Typing>),
    /// It stopped at a place with an error. The place's own typing is the last one, unless nothing leads there.
    Stopped(Items<Typing>, Fault),
}

/// Checks all places in order, up to the first one with an error of typing.
fn typing_pass(
    alloc: Global,
    procedures: &[Procedure],
    procedure: &Procedure,
    loops: &Loops,
) -> Result<Pass, AllocError>
    requires operands { IsProcedure procedure.now }
    requires known { AreLoops procedure.now.code loops.now }
    ensures { IfOk result (IsPass procedures.now procedure.now) }
{
    let code = procedure.code.as_slice();
    let mut rows = first_rows(
        alloc,
        code.len(),
        Typing::start(procedure.params.as_slice()),
    )?;
    let mut all = Vec::new(alloc);
    for (place, instr) in code.iter().enumerate() {
        let Some(reached) = row_at(&rows, place) else {
            let no = VerifyError::Unreached;
            return Ok(Pass::Stopped(Items::from(all), Fault { no, place }));
        };
        let changed = is_changed(code, loops, &all, place, &reached.typing);
        keep(&mut all, reached.typing)?;
        if let Some(no) = typing_rejection(procedures, procedure, place, instr, &reached, changed) {
            return Ok(Pass::Stopped(Items::from(all), Fault { no, place }));
        }
        send_both(&mut rows, procedures, place, instr, reached.typing);
    }
    Ok(Pass::Through(Items::from(all)))
}

/// Returns the typings that the verifier knows of a procedure, whether it is accepted or not.
pub(crate) fn known_typings(
    alloc: Global,
    procedures: &[Procedure],
    procedure: &Procedure,
) -> Result<Items<Typing>, AllocError>
    requires { IsProcedure procedure.now }
    ensures { IfOk result (AreKnown procedures.now procedure.now) }
{
    let code = procedure.code.as_slice();
    let loops = Loops::new(alloc, code)?;
    if let Err(_) = ask_structure(code, &loops) {
        return Ok(Items::from(Vec::new(alloc)));
    }
    match typing_pass(alloc, procedures, procedure, &loops)? {
        Pass::Through(typings) | Pass::Stopped(typings, _) => Ok(typings),
    }
}

/// Returns the budget of a procedure to the verifier. A budget that is too large is an error at place 0.
fn budget(alloc: Global, procedure: &Procedure) -> Result<u64, Fault>
    requires operands { IsProcedure procedure.now }
    requires structured { IsStructured procedure.now.code }
    ensures is { IfOk result (λ budget. IsBudget (flows procedure.now.code) budget) }
    ensures within { IfOk result (λ budget. budget ≤ greatest_budget) }
    ensures refused { IfErr result (λ fault. IfFault fault (IsBudgetRejection procedure.now)) }
{
    match budgets(alloc, procedure) {
        Ok(budget) => Ok(budget),
        Err(BudgetError::TooLarge) => Err(Fault {
            no: VerifyError::BudgetTooLarge,
            place: 0,
        }),
        Err(BudgetError::NoMemory) => Err(Fault::no_memory()),
    }
}

/// Verifies a procedure: its structure first, then its typings, then its budget.
pub(crate) fn procedure_findings(
    alloc: Global,
    procedures: &[Procedure],
    procedure: &Procedure,
) -> Result<Findings, Fault>
    requires { IsProcedure procedure.now }
    ensures accepted { IfOk result (AreFindings procedures.now procedure.now) }
    ensures refused { IfErr result
        (λ fault. IfFault fault (IsProcedureRejection procedures.now procedure.now)) }
{
    let code = procedure.code.as_slice();
    let loops = Loops::new(alloc, code)?;
    ask_structure(code, &loops)?;
    let typings = match typing_pass(alloc, procedures, procedure, &loops)? {
        Pass::Through(typings) => typings,
        Pass::Stopped(_typings, fault) => return Err(fault),
    };
    let budget = budget(alloc, procedure)?;
    let quick = all_quick(alloc, procedure.registers.as_slice(), code)?;
    Ok(Findings {
        typings,
        budget,
        quick: Items::from(quick),
        slow: has_slow(code),
    })
}
