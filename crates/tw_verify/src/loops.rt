//! Finds where loops begin and end.

ghost use Rattle.std.specs.Prelude.{◌≡◌, ℕ, ◌+◌, ◌<◌, ◌≤◌, [], ◌∷◌, Some, length, IfOk, ◌^◌};
ghost use Rattle.tw_code.specs.accepting.Flow.{flows};
ghost use Rattle.tw_code.specs.accepting.Structure.{end_of, depth_after, depth_of, block_of};
ghost use Rattle.tw_code.specs.accepting.WellTyped.{IsEndOf};
ghost use Rattle.tw_verify.specs.Loops.{EndsFrom, DepthsTo, AreFirsts, AreLoops};

use std::alloc::{AllocError, Global};
use tw_code::{Flow, Instr, flow_at};

/// Returns the END in the table of loops at a place. `from` is for the contract alone: ends from there on are known.
fn end_known(code: &[Instr], ends: &[Option<usize>], from: usize, place: usize) -> Option<usize>
    requires ahead { from ≤ place }
    requires within { place ≤ length code.now }
    requires known { EndsFrom (flows code.now) ends.now from }
    ensures { result ≡ end_of (flows code.now) place }
{
    ends[place]
}

/// Returns the next END that ends a loop begun before the place, from the ENDs of later places.
fn end_at(code: &[Instr], ends: &[Option<usize>], place: usize) -> Option<usize>
    requires within { place < length code.now }
    requires short { length code.now < 2 ^ 32 }
    requires known { EndsFrom (flows code.now) ends.now (place + 1) }
    ensures { result ≡ end_of (flows code.now) place }
{
    let next = end_known(code, ends, place + 1, place + 1);
    match flow_at(code, place) {
        Flow::Straight | Flow::Branch(_) | Flow::Jump(_) | Flow::Stop => next,
        Flow::Close => Some(place),
        Flow::Begin(_) => match next {
            Some(end) => end_known(code, ends, place + 1, end + 1),
            None => None,
        },
    }
}

/// Returns for each place, and after the last, the next END that ends a loop begun before it.
fn all_ends(alloc: Global, code: &[Instr]) -> Result<Vec<Option<usize>>, AllocError>
    requires { length code.now < 2 ^ 32 }
    ensures { IfOk result (λ ends. EndsFrom (flows code.now) ends.items 0) }
{
    let count = code.len();
    let mut ends = vec![in alloc; None; count + 1]?;
    ends[count] = None;
    for place in (0..count).rev() {
        ends[place] = end_at(code, &ends, place);
    }
    Ok(ends)
}

/// Returns how many loops are begun and not ended after an instruction of this flow.
fn deeper(depth: usize, flow: Flow) -> usize
    requires { depth < 2 ^ 32 }
    ensures depth { result ≡ depth_after depth (flow ∷ []) }
    ensures bound { result ≤ depth + 1 }
{
    match flow {
        Flow::Straight | Flow::Branch(_) | Flow::Jump(_) | Flow::Stop => depth,
        Flow::Begin(_) => depth + 1,
        Flow::Close => if depth == 0 { 0 } else { depth - 1 },
    }
}

/// Returns for each place of a code how many loops are begun and not ended before it.
fn all_depths(alloc: Global, code: &[Instr]) -> Result<Vec<usize>, AllocError>
    requires { length code.now < 2 ^ 32 }
    ensures { IfOk result (λ depths. DepthsTo (flows code.now) depths.items (length code.now)) }
{
    let mut depths = Vec::new(alloc);
    let mut depth = 0;
    for place in 0..code.len() {
        depths.push(depth)?;
        depth = deeper(depth, flow_at(code, place));
    }
    Ok(depths)
}

/// Returns the END of the loop that begins at a place, if one does.
fn end_of_begin(code: &[Instr], ends: &[Option<usize>], place: usize) -> Option<usize>
    requires within { place < length code.now }
    requires short { length code.now < 2 ^ 32 }
    requires known { EndsFrom (flows code.now) ends.now 0 }
    ensures found { (end : ℕ) → result ≡ Some end → IsEndOf code.now (place + 1) end }
    ensures all { (end : ℕ) → IsEndOf code.now (place + 1) end → result ≡ Some end }
{
    match flow_at(code, place) {
        Flow::Begin(_) => end_known(code, ends, 0, place + 1),
        Flow::Straight | Flow::Branch(_) | Flow::Jump(_) | Flow::Close | Flow::Stop => None,
    }
}

/// Returns for each END of a code the first place of its loop.
fn all_firsts(
    alloc: Global,
    code: &[Instr],
    ends: &[Option<usize>],
) -> Result<Vec<Option<usize>>, AllocError>
    requires short { length code.now < 2 ^ 32 }
    requires known { EndsFrom (flows code.now) ends.now 0 }
    ensures { IfOk result (λ firsts. AreFirsts code.now firsts.items (length code.now)) }
{
    let mut firsts = vec![in alloc; None; code.len()]?;
    for place in 0..code.len() {
        if let Some(end) = end_of_begin(code, ends, place) {
            firsts[end] = Some(place + 1);
        }
    }
    Ok(firsts)
}

/// Tables on the places of a code: the next END that ends a loop begun before, how many loops are begun there,
/// and, for an END, its loop's first place.
#[derive(Drop)]
pub(crate) struct Loops {
    ends: Vec<Option<usize>>,
    depths: Vec<usize>,
    firsts: Vec<Option<usize>>,
}

impl Loops {
    /// Computes the tables of a code's loops.
    pub(crate) fn new(alloc: Global, code: &[Instr]) -> Result<Loops, AllocError>
        requires { length code.now < 2 ^ 32 }
        ensures { IfOk result (AreLoops code.now) }
    {
        let ends = all_ends(alloc, code)?;
        let depths = all_depths(alloc, code)?;
        let firsts = all_firsts(alloc, code, &ends)?;
        Ok(Loops {
            ends,
            depths,
            firsts,
        })
    }

    /// Returns how many loops are begun and not ended before a place.
    pub(crate) fn depth(&self, code: &[Instr], place: usize) -> usize
        requires known { AreLoops code.now self.now }
        requires within { place < length code.now }
        ensures { result ≡ depth_of (flows code.now) place }
    {
        self.depths[place]
    }

    /// Returns the first END from a place on that ends no loop begun from there on.
    pub(crate) fn end(&self, code: &[Instr], place: usize) -> Option<usize>
        requires known { AreLoops code.now self.now }
        requires within { place ≤ length code.now }
        ensures { result ≡ end_of (flows code.now) place }
    {
        end_known(code, &self.ends, 0, place)
    }

    /// Returns the first place of the loop of the END at a place, if there is one.
    pub(crate) fn first(&self, code: &[Instr], place: usize) -> Option<usize>
        requires known { AreLoops code.now self.now }
        requires within { place < length code.now }
        ensures found { (first : ℕ) → result ≡ Some first → IsEndOf code.now first place }
        ensures all { (first : ℕ) → IsEndOf code.now first place → result ≡ Some first }
    {
        self.firsts[place]
    }

    /// Returns the END of the innermost loop whose body has the place, if there is one.
    pub(crate) fn block(&self, code: &[Instr], place: usize) -> Option<usize>
        requires known { AreLoops code.now self.now }
        requires within { place < length code.now }
        ensures { result ≡ block_of (flows code.now) place }
    {
        match self.end(code, place) {
            Some(end) => if self.depth(code, end) > 0 {
                Some(end)
            } else {
                None
            },
            None => None,
        }
    }
}
