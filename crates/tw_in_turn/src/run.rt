//! A whole run in one thread.

ghost use Rattle.std.specs.Prelude.{◌≡◌, Bool, IfErr, IfOk, List, OnErr};
ghost use Rattle.tw_stop.specs.Looks.{Looked};
ghost use Rattle.tw_pool.specs.Openings.{IsRejection, MayOpen, opened};
ghost use Rattle.tw_pool.specs.PoolView.{PoolView};
ghost use Rattle.tw_in_turn.specs.Stopping.{IsLeftBy, IsLeftIf, cut_of, left_closing};
ghost use Rattle.tw_in_turn.specs.Rounds.{AreKept, IsOpened, all_owed};

use crate::rounds::{End, turn_all};
use std::alloc::{AllocError, Global};
use tw_frame::Done;
use tw_pool::{Closing, Final, History, OpenError, Pool};
use tw_stop::{Never, StopSignal};
use tw_types::{Input, Layout};
use tw_verify::Verified;

/// A finished run.
#[derive(Drop)]
pub struct EndedRun {
    pub outcome: Final,
    pub history: History,
    pub end: End,
}

impl EndedRun {
    /// Returns how many local instructions a task that was cut off had executed.
    pub fn cut(&self) -> u64
        ensures { result ≡ cut_of self.now.end }
    {
        match self.end {
            End::Stopped(cut) => cut,
            End::Over | End::NoMemory => 0,
        }
    }

    /// Returns why the run is over, if memory lasted. One that was stopped may have reached its end before.
    pub fn closing(&self) -> Option<Closing>
        ensures { result ≡ left_closing self.now }
    {
        match self.end {
            End::Over => self.outcome.closing(),
            End::NoMemory => None,
            End::Stopped(_) => Some(self.outcome.closing().unwrap_or(Closing::Stopped)),
        }
    }
}

/// Returns the kept `Done`s before a run in one thread: none for each actor.
fn nothing_kept<'a>(alloc: Global, count: usize) -> Result<Vec<Option<Done<'a>>>, AllocError>
    ensures kept { (p : PoolView) → IsOpened p count → IfOk result (λ kept. AreKept p kept.items) }
    ensures nothing { IfOk result (λ kept. all_owed kept.items ≡ 0) }
{
    let mut kept = Vec::with_capacity(alloc, count)?;
    for _ in 0..count {
        kept.push(None)?;
    }
    Ok(kept)
}

/// Runs a program in this thread: engines, then servers, then workers make one step each, again and again, until the run is
/// over. A seed decides another order of the steps, the same in each run. Looks at a stop signal before each step that may make an event,
/// and while a task runs: once in 65,536 of its local instructions. Stops the run if it is raised.
pub fn run_until<S: StopSignal>(
    alloc: Global,
    verified: &Verified,
    inputs: &[Input],
    layout: Layout,
    limit: usize,
    seed: Option<u64>,
    stop: &mut S,
) -> Result<EndedRun, OpenError>
    ensures allowed { IfOk result (λ _. MayOpen verified.now.program inputs.now layout limit) }
    ensures left { IfOk result (λ left. (answers : List Bool) × Looked S.says stop.old stop.new answers × IsLeftBy seed (opened verified.now inputs.now layout limit) answers left) }
    ensures refused { IfErr result (IsRejection verified.now.program inputs.now layout limit) }
    ensures unseen { OnErr result (stop.new ≡ stop.old) }
{
    let mut pool = Pool::open(alloc, verified, inputs, layout, limit)?;
    let Ok(mut kept) = nothing_kept(alloc, layout.actor_count()) else {
        let (_outcome, _history) = pool.shut();
        return Err(OpenError::NoMemory);
    };
    let end = turn_all(alloc, &mut pool, kept.as_mut_slice(), seed, stop);
    let (outcome, history) = pool.shut();
    Ok(EndedRun {
        outcome,
        history,
        end,
    })
}

/// Like `run_until`, without a stop signal.
pub fn run_in_turn(
    alloc: Global,
    verified: &Verified,
    inputs: &[Input],
    layout: Layout,
    limit: usize,
    seed: Option<u64>,
) -> Result<EndedRun, OpenError>
    ensures allowed { IfOk result (λ _. MayOpen verified.now.program inputs.now layout limit) }
    ensures left { (may_stop : Bool) → IfOk result (IsLeftIf may_stop seed (opened verified.now inputs.now layout limit)) }
    ensures refused { IfErr result (IsRejection verified.now.program inputs.now layout limit) }
{
    run_until(alloc, verified, inputs, layout, limit, seed, &mut Never)
}
