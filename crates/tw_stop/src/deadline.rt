//! A time after which a run stops.

use crate::signal::StopSignal;
use std::time::{Clock, Duration, Instant};

/// A signal that is raised once some time has passed.
#[derive(Drop)]
pub struct Deadline<'r, R: Clock> {
    clock: &'r R,
    begun: Option<Instant>,
    time: Duration,
}

impl<'r, R: Clock> Deadline<'r, R> {
    /// Begins now.
    pub fn after(clock: &'r R, time: Duration) -> Deadline<'r, R> {
        Deadline {
            clock,
            begun: Instant::now(clock).ok(),
            time,
        }
    }

    /// Returns whether the time has passed. A clock that can't be read counts as a time that has passed.
    pub fn is_over(&self) -> bool {
        match self.begun {
            Some(begun) => match begun.elapsed(self.clock) {
                Ok(elapsed) => elapsed >= self.time,
                Err(_) => true,
            },
            None => true,
        }
    }
}

impl<'r, R: Clock> StopSignal for Deadline<'r, R> {
    ghost use Rattle.std.specs.Prelude.{Bool};

    ghost says = { λ _ _ _. Unit {0} };

    fn is_raised(&mut self) -> bool {
        self.is_over()
    }
}
