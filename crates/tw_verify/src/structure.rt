//! The structure of a procedure's code: its skips, loops and ends.

ghost use Rattle.std.specs.Prelude.{◌≡◌, ◌<◌, length, OnOk, IfErr, ◌^◌};
ghost use Rattle.std.specs.Option.{option_map};
ghost use Rattle.tw_code.specs.accepting.Flow.{flows};
ghost use Rattle.tw_code.specs.accepting.Structure.{same_block, is_in_block, skips_in_block, is_matched, ends_well, structure_rejection_at, IsStructured, IsStructureRejection};
ghost use Rattle.tw_verify.specs.Rejection.{verify_error_code};
ghost use Rattle.tw_verify.specs.Loops.{AreLoops};

use crate::fault::Fault;
use crate::loops::Loops;
use crate::rejection::VerifyError;
use tw_code::{Flow, Instr, Procedure, flow_at};

/// Returns whether two places are in the same block: in one loop's body, or both in none.
fn is_same_block(left: Option<usize>, right: Option<usize>) -> bool
    ensures { result ≡ same_block left right }
{
    match (left, right) {
        (None, None) => true,
        (Some(a), Some(b)) => a == b,
        _ => false,
    }
}

/// Returns whether a place is in the code, and in the block of the instruction that skips to it.
fn is_goal_in_block(code: &[Instr], loops: &Loops, place: usize, goal: usize) -> bool
    requires known { AreLoops code.now loops.now }
    requires within { place < length code.now }
    ensures { result ≡ is_in_block (flows code.now) place goal }
{
    goal < code.len() && is_same_block(loops.block(code, goal), loops.block(code, place))
}

/// Returns whether an instruction's skip stays in its block; one without a skip passes.
fn is_skip_in_block(code: &[Instr], loops: &Loops, place: usize, flow: Flow) -> bool
    requires known { AreLoops code.now loops.now }
    requires within { place < length code.now }
    requires short { length code.now < 2 ^ 32 }
    ensures { result ≡ skips_in_block (flows code.now) place flow }
{
    match flow {
        Flow::Branch(skip) => is_goal_in_block(code, loops, place, place + 1 + skip as usize),
        Flow::Jump(skip) => is_goal_in_block(code, loops, place, place + 1 + skip as usize),
        Flow::Straight | Flow::Begin(_) | Flow::Close | Flow::Stop => true,
    }
}

/// Returns whether the structure of a loop is right: a REPEAT has its END and isn't the fifth of a nest, and an END has its
/// REPEAT.
fn has_partner(code: &[Instr], loops: &Loops, place: usize, flow: Flow) -> bool
    requires known { AreLoops code.now loops.now }
    requires within { place < length code.now }
    ensures { result ≡ is_matched (flows code.now) place flow }
{
    match flow {
        Flow::Begin(_) => loops.end(code, place + 1).is_some()
            && loops.depth(code, place) < Procedure::MAX_DEPTH,
        Flow::Close => loops.depth(code, place) > 0,
        Flow::Straight | Flow::Branch(_) | Flow::Jump(_) | Flow::Stop => true,
    }
}

/// Returns whether the structure at a code's end is right: a RET is in no loop, and another instruction isn't the last.
fn is_ending_well(code: &[Instr], loops: &Loops, place: usize, flow: Flow) -> bool
    requires known { AreLoops code.now loops.now }
    requires within { place < length code.now }
    ensures { result ≡ ends_well (flows code.now) place flow }
{
    match flow {
        Flow::Stop => loops.depth(code, place) == 0,
        Flow::Straight | Flow::Branch(_) | Flow::Jump(_) | Flow::Begin(_) | Flow::Close => place + 1
            != code.len(),
    }
}

/// Returns the lowest error of the structure at a place: skip, loop or end.
fn structure_rejection(code: &[Instr], loops: &Loops, place: usize) -> Option<VerifyError>
    requires known { AreLoops code.now loops.now }
    requires within { place < length code.now }
    requires short { length code.now < 2 ^ 32 }
    ensures { option_map verify_error_code result ≡ structure_rejection_at (flows code.now) place }
{
    let flow = flow_at(code, place);
    if !is_skip_in_block(code, loops, place, flow) {
        return Some(VerifyError::SkipLeavesBlock);
    }
    if !has_partner(code, loops, place, flow) {
        return Some(VerifyError::Unmatched);
    }
    if !is_ending_well(code, loops, place, flow) {
        return Some(VerifyError::MisplacedRet);
    }
    None
}

/// Checks the structure of all places in order. Fails at the first place with an error.
pub(crate) fn ask_structure(code: &[Instr], loops: &Loops) -> Result<(), Fault>
    requires known { AreLoops code.now loops.now }
    requires short { length code.now < 2 ^ 32 }
    ensures accepted { OnOk result (IsStructured code.now) }
    ensures refused { IfErr result
        (λ fault. IsStructureRejection code.now (verify_error_code fault.no) fault.place) }
{
    for place in 0..code.len() {
        if let Some(no) = structure_rejection(code, loops, place) {
            return Err(Fault { no, place });
        }
    }
    Ok(())
}
