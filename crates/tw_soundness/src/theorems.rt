//! The theorem that accepted programs don't trap, and the parts of its invariant. Nothing is computed here: the contracts are the
//! theorems.

ghost use Rattle.std.specs.Prelude.{◌≡◌, List};
ghost use Rattle.tw_types.specs.declared.event.Event.{Event};
ghost use Rattle.tw_types.specs.declared.input.Input.{Input};
ghost use Rattle.tw_types.specs.Layout.{ActorCounts};
ghost use Rattle.tw_types.specs.Outcome.{Went};
ghost use Rattle.tw_code.specs.declared.procedure.Procedure.{Procedure};
ghost use Rattle.tw_code.specs.format.Program.{IsProgram};
ghost use Rattle.tw_code.specs.machine.Holders.{Typings};
ghost use Rattle.tw_code.specs.machine.Inputs.{AreInputsOf};
ghost use Rattle.tw_code.specs.machine.Machine.{step};
ghost use Rattle.tw_code.specs.machine.Opening.{reached};
ghost use Rattle.tw_code.specs.machine.State.{State};
ghost use Rattle.tw_soundness.specs.EndsWell.{EndsWell};
ghost use Rattle.tw_soundness.specs.InOrder.{StaysInOrder};
ghost use Rattle.tw_soundness.specs.Invariant.{BudgetsHeld, CountsHeld, IsHeld, NumbersHeld, TypesHeld};
ghost use Rattle.tw_soundness.specs.Noticed.{NoticesHeld};
ghost use Rattle.tw_soundness.specs.NoTrap.{AreRight, NoTrap};

/// Proves that one event keeps the types of values and rights, and keeps numbers below the next ones.
pub fn types_held()
    ensures numbers { (program : List Procedure) (typings : Typings) (layout : ActorCounts) (event : Event) (s next : State) → IsProgram program → AreRight program typings → IsHeld program typings s → step program layout event s ≡ Went next → NumbersHeld next }
    ensures types { (program : List Procedure) (typings : Typings) (layout : ActorCounts) (event : Event) (s next : State) → IsProgram program → AreRight program typings → IsHeld program typings s → step program layout event s ≡ Went next → TypesHeld program typings next }
{}

/// Proves that one event keeps the counts of each datum equal to its holders, and one writer for each unset scalar.
pub fn counts_held()
    ensures { (program : List Procedure) (typings : Typings) (layout : ActorCounts) (event : Event) (s next : State) → IsProgram program → AreRight program typings → IsHeld program typings s → step program layout event s ≡ Went next → CountsHeld program typings next }
{}

/// Proves that after one event subscribers and notices name exactly the parameters that wait, each once.
pub fn notes_held()
    ensures { (program : List Procedure) (typings : Typings) (layout : ActorCounts) (event : Event) (s next : State) → IsProgram program → AreRight program typings → IsHeld program typings s → step program layout event s ≡ Went next → NoticesHeld next }
{}

/// Proves that after one event each running task is in loops that it has begun, and within its budget.
pub fn budgets_held()
    ensures { (program : List Procedure) (typings : Typings) (layout : ActorCounts) (event : Event) (s next : State) → IsProgram program → AreRight program typings → IsHeld program typings s → step program layout event s ≡ Went next → BudgetsHeld program next }
{}

/// Proves that accepted programs don't trap, with any inputs of the signature, any layout and any events in any order. Each state
/// that they reach is in order, with any right typings.
pub fn no_trap()
    ensures safe { (program : List Procedure) (typings : Typings) → IsProgram program → AreRight program typings → NoTrap program }
    ensures ordered { (program : List Procedure) (typings : Typings) → IsProgram program → AreRight program typings → StaysInOrder program typings }
{}

/// Proves how runs end, with any inputs, layout and events. At a quiet end only the outputs and their members are left, all
/// closed. In a stuck state each rule waits for a datum that a rule may write, and the walk along these finds a circle of rules.
/// The walk finds a circle in stuck states only.
pub fn ends_well()
    ensures { (program : List Procedure) (typings : Typings) (inputs : List Input) (layout : ActorCounts) (events : List Event) (s : State) → IsProgram program → AreRight program typings → AreInputsOf program inputs → reached program inputs layout events ≡ Went s → EndsWell program s }
{}
