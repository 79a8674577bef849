//! Theorems on runs in one thread.

ghost use Rattle.std.specs.Prelude.{◌≡◌, Bool, ℕ, Option};
ghost use Rattle.tw_code.specs.format.Program.{IsProgram};
ghost use Rattle.tw_soundness.specs.NoTrap.{AreRight};
ghost use Rattle.tw_bounds.specs.Runs.{IsBoundOfMain, instructions_alone};
ghost use Rattle.tw_in_turn.specs.Bounded.{EndsByItself, ExecutesFew, HasFew, IsBoundedBy};
ghost use Rattle.tw_in_turn.specs.InTurn.{IsReachedWith, IsOver};
ghost use Rattle.tw_in_turn.specs.Same.{AreSameFinals};
ghost use Rattle.tw_in_turn.specs.Stopping.{IsLeftIf};
ghost use Rattle.tw_in_turn.specs.declared.rounds.End.TheVariants.{Over};
ghost use Rattle.tw_in_turn.specs.declared.run.EndedRun.{EndedRun};
ghost use Rattle.tw_pool.specs.PoolView.{PoolView};
ghost use Rattle.tw_verify.specs.Typed.{TypedProgram, typings_of};

/// Proves that two runs in one thread from the same opening, with the same seed or none, end in the same pool: with the same events. Also
/// that they leave the same results.
pub fn one_run()
    ensures pool { (seed : Option ℕ) (first p q : PoolView) → IsReachedWith seed first IsOver p → IsReachedWith seed first IsOver q → p ≡ q }
    ensures results { (seed : Option ℕ) (first : PoolView) (may_stop : Bool) (one other : EndedRun) → one.end ≡ Over → other.end ≡ Over
        → IsLeftIf may_stop seed first one → IsLeftIf may_stop seed first other → (one.history.events ≡ other.history.events) × AreSameFinals one.outcome other.outcome }
{}

/// Proves that no run of a program whose events have a bound has more of them, in threads or in one thread. Also that a run in one
/// thread never reaches a limit above the bound.
pub fn ends_below_limit()
    ensures few { (verified : TypedProgram) (most : ℕ) → IsBoundedBy verified most → HasFew verified most }
    ensures itself { (verified : TypedProgram) (most : ℕ) → IsBoundedBy verified most → EndsByItself verified most }
{}

/// Proves that no run executes more instructions than main's bound, also with those of a task that was cut off.
pub fn executes_few()
    ensures { (verified : TypedProgram) (most : ℕ) → IsProgram verified.program → AreRight verified.program (typings_of verified)
        → IsBoundOfMain verified.program instructions_alone most → ExecutesFew verified most }
{}
