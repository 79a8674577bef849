//! The first contested insertion of a run, by executing its events on the reference machine.

ghost use Rattle.std.specs.Prelude.{◌≡◌, ◌<◌, ◌≤◌, ◌+◌, ◌^◌, ℕ, [], IfOk, MatchOption, None, OnOk, length};
ghost use Rattle.tw_types.specs.declared.ending.Ending.{Ending};
ghost use Rattle.tw_types.specs.Outcome.{Went};
ghost use Rattle.tw_code.specs.machine.Bounds.{AreBelow, opening_bound, size_of};
ghost use Rattle.tw_code.specs.machine.Inputs.{AreInputsOf};
ghost use Rattle.tw_code.specs.machine.Opening.{reached};
ghost use Rattle.tw_code.specs.machine.State.{State};
ghost use Rattle.tw_determinism.specs.Contested.{Copied, with_copy};
ghost use Rattle.tw_determinism.specs.OneResult.{IsOnlyResult, IsWholeRun};
ghost use Rattle.tw_certificate.specs.FirstContest.{IsFirstContest, IsFirstContestFrom};
ghost use Rattle.tw_certificate.specs.Noted.{AreShort, IsContestedAt, IsNoted, Notes};

use crate::contests::{contest_at, copied_by};
use std::alloc::{AllocError, Global};
use std::collections::BTreeSet;
use tw_binary::{decode, encode};
use tw_code::Program;
use tw_copies::CopyInsertion;
use tw_determinism::one_result_if_uncontested;
use tw_machine::Plain;
use tw_types::{DatumId, Event, Input, Layout};
use tw_verify::{Verified, no_trap};

/// Adds a datum to those whose write right has been copied, if there is one.
fn note(copied: &mut BTreeSet<u64>, id: Option<DatumId>) -> Result<(), AllocError>
    ensures { OnOk result ((c : Copied) → Notes copied.old c → Notes copied.new (with_copy c id)) }
{
    let Some(id) = id else {
        return Ok(());
    };
    copied.insert(id.number())?;
    Ok(())
}

/// Executes an event of a certificate's replay, and notes what it copies. Returns the event's place instead if it is a contested
/// insertion.
fn advance(
    alloc: Global,
    plain: &mut Plain,
    copied: &mut BTreeSet<u64>,
    event: Event,
) -> Result<Option<CopyInsertion>, AllocError>
    requires small { AreBelow (2 ^ 63) plain.old.state }
    requires size { size_of event < 2 ^ 63 }
    ensures found { IfOk result (λ found. MatchOption found
        (IsNoted plain.old.program plain.old.layout event plain.old.state plain.new.state copied.old copied.new)
        (IsContestedAt plain.old.program event plain.old.state copied.old)) }
    ensures program { plain.new.program ≡ plain.old.program }
    ensures layout { plain.new.layout ≡ plain.old.layout }
    ensures below { (bound : ℕ) → AreBelow bound plain.old.state → AreBelow (bound + size_of event) plain.new.state }
{
    let found = contest_at(plain, copied, &event);
    note(copied, copied_by(plain, &event))?;
    match plain.step(alloc, event) {
        Ok(()) => Ok(found),
        Err(_) => Err(AllocError),
    }
}

/// Executes events of a certificate's replay up to the first contested insertion.
fn first_contest_from(
    alloc: Global,
    plain: &mut Plain,
    copied: &mut BTreeSet<u64>,
    events: &[Event],
) -> Result<Option<CopyInsertion>, AllocError>
    requires none { copied.old.keys ≡ [] }
    requires below { AreBelow opening_bound plain.old.state }
    requires sizes { AreShort events.now }
    requires few { length events.now ≤ 1000000 }
    ensures { IfOk result (IsFirstContestFrom plain.old.program plain.old.layout events.now plain.old.state) }
{
    for event in events {
        if let Some(at) = advance(alloc, plain, copied, *event)? {
            return Ok(Some(at));
        }
    }
    Ok(None)
}

/// Returns a program like this one. Its encoding is decoded, since programs aren't shared with the reference machine.
fn copied(alloc: Global, program: &Program) -> Result<Program, AllocError>
    ensures { IfOk result (λ copy. copy ≡ program.now) }
{
    // For its clauses alone: they hold for a program's procedures.
    let _procedures = program.procedures();
    let Ok(bytes) = encode(alloc, program) else {
        return Err(AllocError);
    };
    match decode(alloc, &bytes) {
        Ok(copy) => Ok(copy),
        Err(_) => Err(AllocError),
    }
}

/// Returns the first contested insertion of a run, or none if it contests none. If there is none and the run has ended by itself, all runs with these
/// inputs that end by themselves, in any layout and order of events, end alike with the same outputs. Takes the time and the memory of a replay.
pub fn first_contest(
    alloc: Global,
    verified: &Verified,
    inputs: &[Input],
    layout: Layout,
    events: &[Event],
) -> Result<Option<CopyInsertion>, AllocError>
    requires inputs { AreInputsOf verified.now.program inputs.now }
    requires goes { (s : State) × (reached verified.now.program inputs.now layout events.now ≡ Went s) }
    requires few { length events.now ≤ 1000000 }
    ensures first { IfOk result (IsFirstContest verified.now.program inputs.now layout events.now) }
    ensures same { IfOk result (λ found. found ≡ None → (s : State) (end : Ending) → IsWholeRun verified.now.program inputs.now layout events.now s end → IsOnlyResult verified.now.program inputs.now s end) }
{
    one_result_if_uncontested(verified);
    no_trap(verified);
    let program = verified.program();
    let _procedures = program.procedures();
    let copy = copied(alloc, program)?;
    match Plain::open(alloc, copy, inputs, layout) {
        Ok(mut plain) => first_contest_from(alloc, &mut plain, &mut BTreeSet::new(alloc), events),
        Err(_) => Err(AllocError),
    }
}
