//! The check.

ghost use Rattle.std.specs.Prelude.{◌≡◌, IfOk, None};
ghost use Rattle.tw_determinism.specs.OneResult.{IsDeterministic, NeverContests};
ghost use Rattle.tw_copies.specs.Copies.{IsFirstCopyInsertion};

use crate::insertions::first_insertion;
use crate::marks::marked;
use std::alloc::{AllocError, Global};
use tw_determinism::one_result_if_uncontested;
use tw_verify::Verified;

/// An insertion into a container or map by a right that may be a copy.
#[derive(Clone, Copy, Debug)]
pub struct CopyInsertion {
    /// The number of the procedure.
    pub procedure: usize,
    /// The place of its INS, TINS or MINS.
    pub place: usize,
}

/// Returns the first insertion by a right that may be a copy. If there is none, the order of events doesn't show in the outputs of
/// runs that end by themselves. Takes time proportional to the program's length times the number of registers that may hold copies.
pub fn first_copy_insertion(
    alloc: Global,
    verified: &Verified,
) -> Result<Option<CopyInsertion>, AllocError>
    ensures first { IfOk result (IsFirstCopyInsertion verified.now.program) }
    ensures never { IfOk result (λ found. found ≡ None → NeverContests verified.now.program) }
    ensures same { IfOk result (λ found. found ≡ None → IsDeterministic verified.now.program) }
{
    one_result_if_uncontested(verified);
    let program = verified.program().procedures();
    let marks = marked(alloc, program)?;
    Ok(first_insertion(program, &marks))
}
