//! Theorems on bounds of runs. Nothing is computed here: each contract is a theorem.

ghost use Rattle.std.specs.Prelude.{ℕ, List};
ghost use Rattle.tw_code.specs.accepting.Walk.{IsBudget};
ghost use Rattle.tw_code.specs.declared.flow.Flow.{Flow};
ghost use Rattle.tw_code.specs.declared.procedure.Procedure.{Procedure};
ghost use Rattle.tw_code.specs.format.Program.{IsProgram};
ghost use Rattle.tw_code.specs.machine.Holders.{Typings};
ghost use Rattle.tw_soundness.specs.NoTrap.{AreRight};
ghost use Rattle.tw_bounds.specs.declared.weights.Weights.{Weights};
ghost use Rattle.tw_bounds.specs.Cost.{IsGreatestCost};
ghost use Rattle.tw_bounds.specs.Runs.{IsBoundOfMain, IsWithinBound};

/// Proves that the weighted sum of a run's parts is at most main's bound, with any inputs, layout and events.
pub fn within_bound()
    ensures { (program : List Procedure) (typings : Typings) (weights : Weights) (bound : ℕ) → IsProgram program → AreRight program typings → IsBoundOfMain program weights bound → IsWithinBound program weights bound }
{}

/// Proves that a budget is the greatest cost of a walk when each place costs 1, and conversely.
pub fn budgets_are_costs()
    ensures costs { (code : List Flow) (n : ℕ) → IsBudget code n → IsGreatestCost code (λ _. 1) n }
    ensures budgets { (code : List Flow) (n : ℕ) → IsGreatestCost code (λ _. 1) n → IsBudget code n }
{}
