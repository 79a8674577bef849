//! The bounds of a verified program's runs.

ghost use Rattle.std.specs.Prelude.{◌≡◌, IfOk, map};
ghost use Rattle.tw_bounds.specs.Reports.{AreReported, AreRunBounds, BoundsRuns, reported};

use crate::bound::{Bound, RunBounds};
use crate::solving::bounds;
use crate::weights::Weights;
use std::alloc::{AllocError, Global};
use tw_verify::Verified;

#[rattlefmt::skip]
const TASKS: Weights = Weights { task: 1, instr: 0, datum: 0, rule: 0, rule_event: 0, member: 0, text: 0 };

#[rattlefmt::skip]
const INSTRUCTIONS: Weights = Weights { task: 0, instr: 1, datum: 0, rule: 0, rule_event: 0, member: 0, text: 0 };

#[rattlefmt::skip]
const DATA: Weights = Weights { task: 0, instr: 0, datum: 1, rule: 0, rule_event: 0, member: 0, text: 0 };

#[rattlefmt::skip]
const RULES: Weights = Weights { task: 0, instr: 0, datum: 0, rule: 1, rule_event: 0, member: 0, text: 0 };

#[rattlefmt::skip]
const MEMBERS: Weights = Weights { task: 0, instr: 0, datum: 0, rule: 0, rule_event: 0, member: 1, text: 0 };

/// The longest text has 4,096 bytes.
#[rattlefmt::skip]
const BYTES: Weights = Weights { task: 0, instr: 0, datum: 0, rule: 0, rule_event: 0, member: 0, text: 4096 };

/// Each event except a Local takes a task, executes one instruction or is a rule's. A Local executes at least one instruction.
#[rattlefmt::skip]
const EVENTS: Weights = Weights { task: 1, instr: 1, datum: 0, rule: 0, rule_event: 1, member: 0, text: 0 };

/// Makes the list of reported bounds of procedures from capped numbers.
fn reports(alloc: Global, numbers: &[Option<u64>]) -> Result<Vec<Bound>, AllocError>
    ensures { IfOk result (λ bounds. bounds.items ≡ map reported numbers.now) }
{
    let mut bounds = Vec::new(alloc);
    for number in numbers.iter() {
        bounds.push(Bound::from_capped(*number))?;
    }
    Ok(bounds)
}

/// Returns the bounds of runs that count things by these weights, one for each procedure.
fn bounds_by(
    alloc: Global,
    verified: &Verified,
    weights: &Weights,
) -> Result<Vec<Bound>, AllocError>
    ensures { IfOk result (λ bounds. AreReported verified.now.program weights.now bounds.items) }
{
    let program = verified.program();
    let numbers = bounds(alloc, program.procedures(), weights)?;
    reports(alloc, &numbers)
}

/// Returns the bounds of each procedure's tasks. Takes time proportional to the number of procedures times the program's
/// length: call it once for a program.
pub fn run_bounds(alloc: Global, verified: &Verified) -> Result<RunBounds, AllocError>
    ensures are { IfOk result (AreRunBounds verified.now.program) }
    ensures runs { IfOk result (BoundsRuns verified.now.program) }
{
    // Their clauses say that the program is within the limits and rightly typed, which the theorem requires.
    let program = verified.program();
    let _within = program.procedures();
    Ok(RunBounds {
        tasks: bounds_by(alloc, verified, &TASKS)?,
        instructions: bounds_by(alloc, verified, &INSTRUCTIONS)?,
        data: bounds_by(alloc, verified, &DATA)?,
        rules: bounds_by(alloc, verified, &RULES)?,
        members: bounds_by(alloc, verified, &MEMBERS)?,
        bytes: bounds_by(alloc, verified, &BYTES)?,
        events: bounds_by(alloc, verified, &EVENTS)?,
    })
}
