//! Theorems on the results of whole runs. Nothing is computed here: the contracts are the theorems.

ghost use Rattle.tw_determinism.specs.OneResult.{CopiesNone, IsDeterministic, IsOnlyIfUncontested, IsOnlyIfUnrefused, NeverContests};

use tw_verify::{Verified, no_trap};

/// Proves that a whole run that refuses no insertion has the result of every run with the same inputs.
pub fn one_result_if_unrefused(verified: &Verified)
    ensures { IsOnlyIfUnrefused verified.now.program }
{
    no_trap(verified);
    let _procedures = verified.program().procedures();
}

/// Proves that a whole run has the result of every run with the same inputs if it refuses insertions only at containers whose write
/// right wasn't copied before.
pub fn one_result_if_uncontested(verified: &Verified)
    ensures only { IsOnlyIfUncontested verified.now.program }
    ensures deterministic { NeverContests verified.now.program → IsDeterministic verified.now.program }
{
    no_trap(verified);
    let _procedures = verified.program().procedures();
}

/// Proves that a program without DUPW has one result for each list of inputs, whatever is refused.
pub fn one_result_if_uncopied(verified: &Verified)
    ensures never { CopiesNone verified.now.program → NeverContests verified.now.program }
    ensures deterministic { CopiesNone verified.now.program → IsDeterministic verified.now.program }
{
    no_trap(verified);
    let _procedures = verified.program().procedures();
}
