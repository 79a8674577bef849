//! The turns of a run in one thread, which another thread observes.

use std::sync::Wait;
use std::sync::atomic::{AtomicBool, AtomicU64, Ordering};
use std::time::{Clock, Duration};
use tw_stop::{Deadline, StopSignal};
use tw_workers::{Progress, SoFar};

/// Counts the turns of a run, for whoever observes it. It is also how an observer stops the run.
#[derive(Drop)]
pub struct Turns {
    taken: AtomicU64,
    is_over: AtomicBool,
    is_stopped: AtomicBool,
}

impl Turns {
    /// Makes the count of a run that begins.
    pub fn new() -> Turns {
        Turns {
            taken: AtomicU64::new(0),
            is_over: AtomicBool::new(false),
            is_stopped: AtomicBool::new(false),
        }
    }

    /// Publishes that the run is over.
    pub fn end(&self) {
        self.is_over.store(true, Ordering::SeqCst);
    }
}

impl Progress for Turns {
    /// Returns how many turns were made, or `None` after the end.
    fn so_far(&self) -> Option<SoFar> {
        if self.is_over.load(Ordering::SeqCst) {
            return None;
        }
        Some(SoFar::Turns(self.taken.load(Ordering::SeqCst)))
    }

    /// Stops the run before its next turn.
    fn stop<R: Wait>(&self, _rt: &R) {
        self.is_stopped.store(true, Ordering::SeqCst);
    }
}

/// The stop signal of a run in one thread, which looks at it before each turn. So it counts them.
#[derive(Drop)]
pub struct TurnSignal<'a, C: Clock> {
    turns: &'a Turns,
    deadline: Option<Deadline<'a, C>>,
}

impl<'a, C: Clock> TurnSignal<'a, C> {
    /// Makes the signal of a run that begins, whose time may be limited. Without a limit the clock isn't read.
    pub fn new(clock: &'a C, turns: &'a Turns, seconds: Option<Duration>) -> TurnSignal<'a, C> {
        let deadline = match seconds {
            Some(seconds) => Some(Deadline::after(clock, seconds)),
            None => None,
        };
        TurnSignal { turns, deadline }
    }
}

impl<'a, C: Clock> StopSignal for TurnSignal<'a, C> {
    ghost use Rattle.std.specs.Prelude.{Bool};

    ghost says = { λ _ _ _. Unit {0} };

    /// Counts a turn, and returns whether an observer stops the run or its time is over.
    fn is_raised(&mut self) -> bool {
        self.turns.taken.fetch_add(1, Ordering::SeqCst);
        if self.turns.is_stopped.load(Ordering::SeqCst) {
            return true;
        }
        match &self.deadline {
            Some(deadline) => deadline.is_over(),
            None => false,
        }
    }
}
