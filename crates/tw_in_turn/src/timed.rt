//! A run whose time may be limited.

ghost use Rattle.std.specs.Prelude.{IfErr, IfOk, is_some};
ghost use Rattle.tw_pool.specs.Openings.{IsRejection, MayOpen, opened};
ghost use Rattle.tw_in_turn.specs.Stopping.{IsLeftIf};

use crate::run::{EndedRun, run_in_turn, run_until};
use std::alloc::Global;
use std::time::{Clock, Duration};
use tw_pool::OpenError;
use tw_stop::Deadline;
use tw_types::{Input, Layout};
use tw_verify::Verified;

/// Like `run_until`, with the signal that so many seconds have passed, if there is such a limit.
pub fn run_timed<C: Clock>(
    clock: &C,
    alloc: Global,
    verified: &Verified,
    inputs: &[Input],
    layout: Layout,
    limit: usize,
    seed: Option<u64>,
    seconds: Option<Duration>,
) -> Result<EndedRun, OpenError>
    ensures allowed { IfOk result (λ _. MayOpen verified.now.program inputs.now layout limit) }
    ensures left { IfOk result (IsLeftIf (is_some seconds) seed (opened verified.now inputs.now layout limit)) }
    ensures refused { IfErr result (IsRejection verified.now.program inputs.now layout limit) }
{
    match seconds {
        None => run_in_turn(alloc, verified, inputs, layout, limit, seed),
        Some(seconds) => {
            let mut deadline = Deadline::after(clock, seconds);
            run_until(alloc, verified, inputs, layout, limit, seed, &mut deadline)
        }
    }
}
