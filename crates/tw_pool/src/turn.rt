//! The scheduling step of an actor: chooses between a job's result, an owed result, and new work.

ghost use Rattle.std.specs.Prelude.{◌≡◌, IfSome, MatchBool, IsSome, None, true};
ghost use Rattle.std.specs.FinMap.{get};
ghost use Rattle.tw_types.specs.Actor.{is_in};
ghost use Rattle.tw_code.specs.machine.Ending.{ending};
ghost use Rattle.tw_code.specs.machine.State.{State};
ghost use Rattle.tw_pool_state.specs.RunningTasks.{HasSlot};
ghost use Rattle.tw_pool.specs.Kept.{IsOwedBy};
ghost use Rattle.tw_pool.specs.PoolView.{HasState};
ghost use Rattle.tw_pool.specs.Turns.{IsTurn, closing_at, closing_of};

use crate::answer::{Closing, Turn};
use crate::pool::Pool;
use std::alloc::Global;
use tw_frame::Done;
use tw_pool_state::Parts;
use tw_types::{Actor, Ending};

/// Returns the closing of a pool whose run ended by itself.
fn closing_of(ending: Ending) -> Closing
    ensures { result ≡ closing_of ending }
{
    match ending {
        Ending::Quiet => Closing::Quiet,
        Ending::Stuck(rules) => Closing::Stuck(rules),
    }
}

/// Returns whether the actor has a task in the pool. Its job is then always issued.
pub(crate) fn has_task(parts: &Parts<'_>, actor: Actor) -> bool
    requires { HasSlot actor }
    ensures { MatchBool result (IsSome (get parts.now.running_tasks.tasks actor)) (get parts.now.running_tasks.tasks actor ≡ None) }
{
    match parts.running_tasks.get(actor) {
        Some(_frame) => true,
        None => false,
    }
}

impl<'a> Pool<'a> {
    /// Returns `Quiet` or `Stuck` if no event of the pool is enabled.
    #[inline(always)]
    pub fn ending(&self) -> Option<Ending>
        ensures { (s : State) → HasState self.now s → result ≡ ending s }
    {
        self.parts.ending(self.layout)
    }

    /// Returns why the pool's run is over, or `None` if it isn't: it ended by itself, was stopped, or is at its limit, in this
    /// order.
    #[inline(always)]
    pub fn closing(&self) -> Option<Closing>
        ensures { (s : State) → HasState self.now s → result ≡ closing_at self.now s }
    {
        if let Some(ending) = self.ending() {
            return Some(closing_of(ending));
        }
        if self.stopped {
            return Some(Closing::Stopped);
        }
        if self.history.is_full() {
            return Some(Closing::Limit);
        }
        None
    }

    /// Makes one scheduling step (a turn) of an actor of the layout. `given` is the result of the actor's job, if it has one to
    /// submit. A step makes at most two events, all by this actor: the job's local steps, and the instruction after them. If an
    /// allocation fails, nothing changes, and `NoMemory` returns `given`.
    pub fn turn(&mut self, alloc: Global, actor: Actor, given: Option<Done<'a>>) -> Turn<'a>
        requires actor { is_in self.old.layout actor ≡ true }
        requires program { IfSome given (λ d. d.before.program ≡ self.old.program) }
        ensures { IsTurn self.old actor given.entry result self.new }
    {
        if let Some(closing) = self.closing() {
            return Turn::Over(closing);
        }
        match given {
            Some(done) => self.submit(alloc, actor, done),
            None => {
                if has_task(&self.parts, actor) {
                    Turn::Owed
                } else {
                    self.schedule(alloc, actor)
                }
            }
        }
    }

    /// Like `turn`, with a result of the job that is issued to the actor, or none. Doesn't compare it with that job.
    #[inline(always)]
    pub fn turn_owed(&mut self, alloc: Global, actor: Actor, given: Option<Done<'a>>) -> Turn<'a>
        requires actor { is_in self.old.layout actor ≡ true }
        requires owed { IfSome given (λ d. IsOwedBy self.old actor d) }
        requires program { IfSome given (λ d. d.before.program ≡ self.old.program) }
        ensures { IsTurn self.old actor given.entry result self.new }
    {
        if let Some(closing) = self.closing() {
            return Turn::Over(closing);
        }
        match given {
            Some(done) => self.complete(alloc, actor, done),
            None => {
                if has_task(&self.parts, actor) {
                    Turn::Owed
                } else {
                    self.schedule(alloc, actor)
                }
            }
        }
    }
}
