//! Opens runs.

ghost use Rattle.std.specs.Prelude.{◌≡◌, IfErr, IfOk, MatchOption};
ghost use Rattle.tw_pool.specs.Openings.{IsRejection, MayOpen, open_error_code, opened};

use crate::history::History;
use crate::pool::Pool;
use std::alloc::{AllocError, Global};
use tw_code::{has_fitting_inputs, has_input_count};
use tw_pool_state::Parts;
use tw_types::{Input, Layout};
use tw_verify::Verified;

/// The error of a run that isn't opened.
#[derive(Clone, Copy, PartialEq, Eq)]
pub enum OpenError {
    /// O01: the number of inputs isn't the number that main takes.
    InputCount,
    /// O02: an input is of another type than its parameter, has a text that is too long, or has members that are too many or
    /// don't rise.
    InputType,
    /// O03: the layout lacks an actor that the program names as a target.
    MissingTarget,
    /// O04: the limit isn't from 1 to 1,000,000.
    LimitRange,
    /// O05: an allocation failed.
    NoMemory,
}

impl OpenError {
    /// Returns the code of the pool's error of opening without the letter O.
    pub fn number(self) -> u8
        ensures { result ≡ open_error_code self }
    {
        match self {
            OpenError::InputCount => 1,
            OpenError::InputType => 2,
            OpenError::MissingTarget => 3,
            OpenError::LimitRange => 4,
            OpenError::NoMemory => 5,
        }
    }
}

impl From<AllocError> for OpenError {
    ghost use Rattle.tw_pool.specs.declared.open.OpenError.TheVariants.{NoMemory};

    ghost from_gives = { λ _ e. e ≡ NoMemory };

    /// Returns the pool's error of opening for a failed allocation.
    fn from(_error: AllocError) -> OpenError {
        OpenError::NoMemory
    }
}

/// Returns why the pool can't be opened with these inputs, apart from a failed allocation.
fn rejection_of(
    verified: &Verified,
    inputs: &[Input],
    layout: Layout,
    limit: usize,
) -> Option<OpenError>
    ensures { MatchOption result (MayOpen verified.now.program inputs.now layout limit) (IsRejection verified.now.program inputs.now layout limit) }
{
    let program = verified.program().procedures();
    if !has_input_count(program, inputs) {
        return Some(OpenError::InputCount);
    }
    if !has_fitting_inputs(program, inputs) {
        return Some(OpenError::InputType);
    }
    let (engines, workers) = verified.needs();
    if layout.engines() < engines || layout.workers() < workers {
        return Some(OpenError::MissingTarget);
    }
    if limit == 0 || limit > History::MOST_EVENTS {
        return Some(OpenError::LimitRange);
    }
    None
}

impl<'a> Pool<'a> {
    /// Opens a pool before its first event, in which main waits. Allocates the memory for all its events.
    pub fn open(
        alloc: Global,
        verified: &'a Verified,
        inputs: &'a [Input],
        layout: Layout,
        limit: usize,
    ) -> Result<Pool<'a>, OpenError>
        ensures opened { IfOk result (λ p. p ≡ opened verified.now inputs.now layout limit) }
        ensures allowed { IfOk result (λ p. MayOpen verified.now.program inputs.now layout limit) }
        ensures refused { IfErr result (IsRejection verified.now.program inputs.now layout limit) }
    {
        if let Some(why) = rejection_of(verified, inputs, layout, limit) {
            return Err(why);
        }
        let history = History::with_capacity(alloc, limit)?;
        let parts = Parts::open(alloc, verified, inputs, layout)?;
        Ok(Pool {
            verified,
            inputs,
            layout,
            stopped: false,
            history,
            parts,
        })
    }
}
