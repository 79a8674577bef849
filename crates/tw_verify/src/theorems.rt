//! Theorems on all programs, and on runs of accepted ones.

ghost use Rattle.std.specs.Prelude.{◌≡◌, List};
ghost use Rattle.tw_types.specs.declared.event.Event.{Event};
ghost use Rattle.tw_types.specs.declared.input.Input.{Input};
ghost use Rattle.tw_types.specs.Layout.{ActorCounts};
ghost use Rattle.tw_types.specs.Outcome.{Went};
ghost use Rattle.tw_code.specs.machine.Holders.{Typings};
ghost use Rattle.tw_code.specs.machine.Inputs.{AreInputsOf};
ghost use Rattle.tw_code.specs.machine.Opening.{reached};
ghost use Rattle.tw_code.specs.machine.State.{State};
ghost use Rattle.tw_soundness.specs.EndsWell.{EndsWell};
ghost use Rattle.tw_soundness.specs.InOrder.{StaysInOrder};
ghost use Rattle.tw_soundness.specs.NoTrap.{AreRight, NoTrap};
ghost use Rattle.tw_verify.specs.Theorems.{AcceptedUnrefused, OneFirstRejection};
ghost use Rattle.tw_verify.specs.Typed.{typings_of};

use crate::verified::Verified;

/// Proves that an accepted program doesn't trap, with any inputs of its signature, any layout and any events in any order. Each
/// running task has exactly one next step, which succeeds, and has spent less than its budget. Each state that the program reaches is
/// in order, for the program's own typings, which are right, and for any others that are.
pub fn no_trap(verified: &Verified)
    ensures right { AreRight verified.now.program (typings_of verified.now) }
    ensures safe { NoTrap verified.now.program }
    ensures ordered { StaysInOrder verified.now.program (typings_of verified.now) }
    ensures others { (typings : Typings) → AreRight verified.now.program typings → StaysInOrder verified.now.program typings }
{
    let _procedures = verified.program().procedures();
}

/// Proves how runs of an accepted program end. At a quiet end the live data are the host's outputs and their members, all
/// closed. In a stuck state each pending rule waits for an open datum that a pending rule may write, and the walk along these
/// finds a circle of rules. It finds one in stuck states only.
pub fn ends_well(verified: &Verified)
    ensures { (inputs : List Input) (layout : ActorCounts) (events : List Event) (s : State) → AreInputsOf verified.now.program inputs → reached verified.now.program inputs layout events ≡ Went s → EndsWell verified.now.program s }
{
    let _procedures = verified.program().procedures();
}

/// Proves that a program has at most one first error, and an accepted one has none. So the first error doesn't depend on how
/// `verify` works.
pub fn one_first_rejection()
    ensures one { OneFirstRejection }
    ensures accepted { AcceptedUnrefused }
{}
