//! Scheduling steps, round by round.

ghost use Rattle.std.specs.Prelude.{◌≡◌, ◌≤◌, None, Some, true, ℕ};
ghost use Rattle.tw_stop.specs.Looks.{Looked};
ghost use Rattle.tw_types.specs.Actor.{is_in};
ghost use Rattle.tw_in_turn.specs.Rounds.{AreKept, IsRoundResult, EndsBy, IsGrown, IsTurned, IsWatched, Keeps, MayTurn};

use crate::drawn::place_for;
use std::alloc::Global;
use tw_frame::Done;
use tw_pool::{History, Pool, Turn};
use tw_stop::StopSignal;
use tw_types::Actor;

/// The reason why no step of a run in one thread follows another.
#[derive(Clone, Copy)]
pub enum End {
    /// The run has ended by itself, or has reached the limit.
    Over,
    /// An allocation failed.
    NoMemory,
    /// The stop signal is raised. The number is that of the local instructions of a task that was cut off, whose event isn't made.
    Stopped(u64),
}

/// Makes one step of an actor, with its kept `Done`. Runs a job that it is issued at once, and keeps the `Done` for its next step. The job
/// is cut off if the stop signal is raised.
#[inline(always)]
fn turn_one<'a, S: StopSignal>(
    alloc: Global,
    pool: &mut Pool<'a>,
    actor: Actor,
    kept: &mut Option<Done<'a>>,
    stop: &mut S,
) -> Option<End>
    requires actor { is_in pool.old.layout actor ≡ true }
    requires may { MayTurn pool.old }
    requires keeps { Keeps pool.old actor kept.old }
    ensures turned { IsTurned pool.old actor pool.new kept.new result }
    ensures watched { IsWatched (Looked S.says stop.old stop.new) pool.old kept.old pool.new kept.new result }
{
    match pool.turn_owed(alloc, actor, kept.take()) {
        Turn::Run(job) => {
            let done = match job.run_until(alloc, stop) {
                Ok(done) => done,
                Err(cut) => return Some(End::Stopped(cut.steps)),
            };
            let _steps = done.steps();
            if done.short() {
                return Some(End::NoMemory);
            }
            *kept = Some(done);
            None
        }
        Turn::Ended | Turn::Went | Turn::Idle => None,
        Turn::Over(_) => Some(End::Over),
        Turn::NoMemory(_) => Some(End::NoMemory),
        Turn::Foreign(_) | Turn::Owed => unreachable!(),
    }
}

/// Makes one step for each actor, in their order. Passes over idle ones, and looks at the stop signal before each other, and while a task
/// runs.
fn turn_round<'a, S: StopSignal>(
    alloc: Global,
    pool: &mut Pool<'a>,
    kept: &mut [Option<Done<'a>>],
    stop: &mut S,
) -> Option<End>
    requires may { MayTurn pool.old }
    requires kept { AreKept pool.old kept.old }
    ensures round { (rounds : ℕ) → IsRoundResult (Looked S.says stop.old stop.new) None rounds pool.old kept.old pool.new kept.new result }
    ensures grown { IsGrown pool.old pool.new }
{
    let layout = pool.layout();
    let mut from = 0;
    while let Some(index) = pool.next_busy(from) {
        if stop.is_raised() {
            return Some(End::Stopped(0));
        }
        let actor = layout.actor_at(index);
        if let Some(end) = turn_one(alloc, pool, actor, &mut kept[index], stop) {
            return Some(end);
        }
        from = index + 1;
    }
    None
}

/// Makes the step of the first actor that isn't idle, from the place on that the seed draws for it, after so many steps. Looks at the
/// stop signal before each that may not be.
fn turn_drawn<'a, S: StopSignal>(
    alloc: Global,
    pool: &mut Pool<'a>,
    kept: &mut [Option<Done<'a>>],
    seed: u64,
    steps: usize,
    stop: &mut S,
) -> Option<End>
    requires may { MayTurn pool.old }
    requires kept { AreKept pool.old kept.old }
    ensures round { IsRoundResult (Looked S.says stop.old stop.new) (Some seed) steps pool.old kept.old pool.new kept.new result }
    ensures grown { IsGrown pool.old pool.new }
{
    let layout = pool.layout();
    let count = layout.actor_count();
    let first = place_for(seed, steps as u64, count);
    let events = pool.history().len();
    for skipped in 0..count {
        let index = (first + skipped) % count;
        let actor = layout.actor_at(index);
        if pool.is_idle(actor) {
            continue;
        }
        if stop.is_raised() {
            return Some(End::Stopped(0));
        }
        if let Some(end) = turn_one(alloc, pool, actor, &mut kept[index], stop) {
            return Some(end);
        }
        if events < pool.history().len() {
            return None;
        }
    }
    unreachable!()
}

/// Makes the round after so many: a step for each actor, or with a seed one step.
fn turn_next<'a, S: StopSignal>(
    alloc: Global,
    pool: &mut Pool<'a>,
    kept: &mut [Option<Done<'a>>],
    seed: Option<u64>,
    rounds: usize,
    stop: &mut S,
) -> Option<End>
    requires may { MayTurn pool.old }
    requires kept { AreKept pool.old kept.old }
    ensures round { IsRoundResult (Looked S.says stop.old stop.new) seed rounds pool.old kept.old pool.new kept.new result }
    ensures grown { IsGrown pool.old pool.new }
{
    match seed {
        None => turn_round(alloc, pool, kept, stop),
        Some(seed) => turn_drawn(alloc, pool, kept, seed, rounds, stop),
    }
}

/// Makes rounds until the run is over, an allocation fails or the stop signal is raised. Each round that isn't the last makes an event.
pub(crate) fn turn_all<'a, S: StopSignal>(
    alloc: Global,
    pool: &mut Pool<'a>,
    kept: &mut [Option<Done<'a>>],
    seed: Option<u64>,
    stop: &mut S,
) -> End
    requires may { MayTurn pool.old }
    requires few { pool.old.limit ≤ 1000000 }
    requires kept { AreKept pool.old kept.old }
    ensures ends { EndsBy (Looked S.says stop.old stop.new) seed pool.old kept.old result pool.new }
    ensures grown { IsGrown pool.old pool.new }
{
    for rounds in 0..History::MOST_EVENTS + 1 {
        if let Some(end) = turn_next(alloc, pool, kept, seed, rounds, stop) {
            return end;
        }
    }
    unreachable!()
}
