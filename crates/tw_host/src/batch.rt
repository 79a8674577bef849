//! Several turns of one actor in a batch, which holds the lock once.

ghost use Rattle.std.specs.Prelude.{◌≡◌, ◌<◌, ◌≤◌, IfErr, IfOk, List, true, false, length};
ghost use Rattle.tw_types.specs.Actor.{is_in};
ghost use Rattle.tw_frame.specs.Banks.{HasText};
ghost use Rattle.tw_frame.specs.Ready.{IsStop};
ghost use Rattle.tw_pool.specs.declared.answer.Turn.{Turn as ATurn};
ghost use Rattle.tw_host.specs.Holds.{AreTurns, HasNextResult, IsBrief, RunsHere, IsAtStop};
ghost use Rattle.tw_host.specs.Sees.{IsDoneOf};

use std::alloc::Global;
use tw_code::Instr;
use tw_frame::{Done, Job};
use tw_pool::{Pool, Turn};
use tw_types::{Actor, Scalar};

/// The greatest number of turns in a batch.
pub const MOST_TURNS: usize = 64;

/// After so many turns a batch ends when a task ends: a longer batch could end with a new job, which must be run without the lock.
const ENOUGH_TURNS: usize = 56;

/// The greatest budget of a procedure whose jobs are run under the lock.
const FEW_INSTRUCTIONS: u64 = 256;

/// Returns whether a place has an instruction that isn't local, so that a job ends there.
fn stops_at(code: &[Instr], place: usize) -> bool
    ensures { result ≡ true → IsStop code.now place }
{
    match code.get(place) {
        Some(instr) => !instr.is_local(),
        None => false,
    }
}

/// Returns whether a job makes no step: whether its next instruction isn't local.
fn is_at_stop(job: &Job<'_>) -> bool
    ensures { result ≡ true → IsAtStop job.now }
{
    let lent = job.lent();
    let procedures = lent.program().program().procedures();
    match procedures.get(usize::from(lent.procedure())) {
        Some(procedure) => stops_at(procedure.code.as_slice(), lent.place()),
        None => false,
    }
}

/// Returns whether no register of a job's task is a text, so that its run under the lock allocates nothing.
fn has_no_text(types: &[Scalar]) -> bool
    ensures { result ≡ true → HasText types.now → ⊥ }
{
    for index in 0..types.len() {
        if types[index] == Scalar::Text {
            return false;
        }
    }
    true
}

/// Returns whether a job is run under the lock since its task executes at most `FEW_INSTRUCTIONS`, and allocates nothing for them.
fn is_brief(job: &Job<'_>) -> bool
    ensures { result ≡ true → IsBrief job.now }
{
    let lent = job.lent();
    let verified = lent.program();
    let number = usize::from(lent.procedure());
    match verified.program().procedures().get(number) {
        Some(procedure) => {
            verified.budget(number) <= FEW_INSTRUCTIONS
                && has_no_text(procedure.registers.as_slice())
        }
        None => false,
    }
}

/// Returns whether a job is to be run under the lock.
fn runs_here(job: &Job<'_>) -> bool
    ensures { result ≡ true → RunsHere job.now }
{
    is_at_stop(job) || is_brief(job)
}

/// Runs a job under the lock, and returns its `Done`.
fn done_at_once<'a>(alloc: Global, job: Job<'a>) -> Done<'a>
    requires { RunsHere job }
    ensures before { result.before ≡ job.entry }
    ensures few { result.steps ≤ 256 }
    ensures has_memory { result.short ≡ false }
{
    let done = job.run(alloc);
    let _steps = done.steps();
    done
}

/// Returns whether a scheduling step of a batch has ended a task.
fn has_ended(answer: &Turn<'_>) -> bool {
    match answer {
        Turn::Ended => true,
        _ => false,
    }
}

/// Returns the result of a job for the next scheduling step of the batch, if there is one, or the answer with which the batch ends.
fn next_result<'a>(alloc: Global, answer: Turn<'a>) -> Result<Option<Done<'a>>, Turn<'a>>
    ensures on { IfOk result (HasNextResult answer.entry) }
    ensures back { IfErr result (λ back. back ≡ answer.entry) }
{
    match answer {
        Turn::Ended | Turn::Went => Ok(None),
        Turn::Run(job) => {
            if runs_here(&job) {
                Ok(Some(done_at_once(alloc, job)))
            } else {
                Err(Turn::Run(job))
            }
        }
        other => Err(other),
    }
}

/// Makes at most `most` turns of an actor under the host's lock. Ends earlier with a job that isn't to be run under the lock, or
/// with a result that has no next turn. Only the first turn compares its result with the issued job.
pub(crate) fn take_turns<'a>(
    pool: &mut Pool<'a>,
    alloc: Global,
    actor: Actor,
    given: Option<Done<'a>>,
    most: usize,
) -> Turn<'a>
    requires some { 0 < most }
    requires actor { is_in pool.old.layout actor ≡ true }
    requires program { IsDoneOf pool.old.program given }
    ensures { (before : List ATurn) × (length before < most) × AreTurns pool.old actor given.entry before result pool.new }
{
    let mut answer = pool.turn(alloc, actor, given);
    for made in 1..most {
        if made >= ENOUGH_TURNS && has_ended(&answer) {
            return answer;
        }
        match next_result(alloc, answer) {
            Ok(next) => answer = pool.turn_owed(alloc, actor, next),
            Err(last) => return last,
        }
    }
    answer
}
