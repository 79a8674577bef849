//! How many lines are answered before their answers are written.

ghost use Rattle.std.specs.Prelude.{◌<◌, ◌≤◌};

use std::io;
use std::time::{Clock, Duration, Instant};

/// The time after which answers are to be written, in milliseconds.
const LONG: u64 = 20;

/// The most lines of a thread that are answered before their answers are written.
const MOST: usize = 256;

/// How many lines are answered at once: few if that takes long, so that each answer is written soon.
#[derive(Clone, Copy)]
pub(crate) struct Pace {
    jobs: usize,
    lines: usize,
}

/// The time at which lines were begun, if there is a clock.
#[derive(Drop)]
pub(crate) struct Begun {
    at: io::Result<Instant>,
}

impl Begun {
    /// Notes when a batch of lines begins.
    pub(crate) fn now(clock: &impl Clock) -> Begun {
        Begun {
            at: Instant::now(clock),
        }
    }

    /// Returns whether the lines took long.
    fn was_long_ago(self, clock: &impl Clock) -> bool {
        match self.at.and_then(|at| at.elapsed(clock)) {
            Ok(took) => took >= Duration::from_millis(LONG),
            Err(_) => false,
        }
    }
}

impl Pace {
    /// Begins with a line for each thread.
    pub(crate) fn new(jobs: usize) -> Pace {
        Pace { jobs, lines: jobs }
    }

    /// Returns how many of the other lines are answered next, at least one.
    pub(crate) fn lines(self, others: usize) -> usize
        ensures most { result ≤ others }
        ensures least { 0 < others → 0 < result }
    {
        self.lines.max(1).min(others)
    }

    /// Returns the pace after lines that were begun then.
    pub(crate) fn after(self, begun: Begun, clock: &impl Clock) -> Pace {
        let most = self.jobs.saturating_mul(MOST);
        let lines = if begun.was_long_ago(clock) {
            self.jobs
        } else {
            self.lines.saturating_mul(2).min(most)
        };
        Pace { lines, ..self }
    }
}
