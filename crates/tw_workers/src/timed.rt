//! A job observer that stops work after some time.

ghost use Rattle.std.specs.Prelude.{◌≡◌, false};

use crate::gate::{Gate, Progress, SoFar};
use std::sync::Wait;
use std::sync::atomic::{AtomicU64, Ordering};
use std::thread;
use std::time::{Clock, Duration};
use tw_stop::Deadline;
use tw_types::Actor;

/// The first pause between two looks at the clock, in microseconds.
const SHORTEST: u64 = 20;

/// The longest pause between two looks, in microseconds.
const LONGEST: u64 = 640;

/// Work that is stopped at the first look past a deadline.
#[derive(Drop)]
struct TimedWork<'w, P: Progress, C: Clock, R: Wait> {
    work: &'w P,
    deadline: &'w Deadline<'w, C>,
    rt: &'w R,
}

impl<'w, P: Progress, C: Clock, R: Wait> Progress for TimedWork<'w, P, C, R> {
    /// Returns how far timed work has got, and stops it if its deadline is past.
    fn so_far(&self) -> Option<SoFar> {
        let so_far = self.work.so_far();
        if so_far.is_some() && self.deadline.is_over() {
            self.work.stop(self.rt);
        }
        so_far
    }

    /// Stops the work that has a deadline.
    fn stop<S: Wait>(&self, rt: &S) {
        self.work.stop(rt);
    }
}

/// Looks at timed work until it is over. The pause between two looks doubles up to the longest one, so that short work isn't
/// delayed.
fn watch<R: Wait + Clock, P: Progress>(rt: &R, work: &P) {
    let mut pause = SHORTEST;
    for _ in rt.forever() {
        if work.so_far().is_none() {
            return;
        }
        thread::sleep(rt, Duration::from_micros(pause));
        if pause < LONGEST {
            pause *= 2;
        }
    }
    unreachable!()
}

/// Another job observer, a deadline after which the work is stopped, and what the jobs executed that were cut off then.
#[derive(Drop)]
pub struct Timed<'g, G: Gate, C: Clock> {
    gate: &'g G,
    deadline: &'g Deadline<'g, C>,
    cut: AtomicU64,
}

impl<'g, G: Gate, C: Clock> Timed<'g, G, C> {
    /// Makes the observer of work that begins, beside another one.
    pub fn new(gate: &'g G, deadline: &'g Deadline<'g, C>) -> Timed<'g, G, C> {
        Timed {
            gate,
            deadline,
            cut: AtomicU64::new(0),
        }
    }
}

impl<'g, G: Gate, C: Clock> Gate for Timed<'g, G, C> {
    ghost unwatched = { G.unwatched };

    ghost stoppable = { Unit {0} };

    /// Returns whether the other observer, beside the deadline, has to see each job.
    fn watches(&self) -> bool {
        self.gate.watches()
    }

    /// Returns that an observer with a deadline may stop the run.
    fn may_stop(&self) -> bool {
        true
    }

    /// Calls the other observer, beside the deadline, before a job.
    fn before_job<R: Wait>(&self, rt: &R, actor: Actor, task: u64) {
        self.gate.before_job(rt, actor, task);
    }

    /// Calls the other observer, beside the deadline, after a job.
    fn after_job<R: Wait>(&self, rt: &R, actor: Actor, task: u64) {
        self.gate.after_job(rt, actor, task);
    }

    /// Adds the local instructions of a job that was cut off at the deadline.
    fn cut_off(&self, steps: u64) {
        self.cut.fetch_add(steps, Ordering::SeqCst);
    }

    /// Returns the local instructions of the jobs that were cut off at the deadline.
    fn cut(&self) -> u64 {
        self.cut.load(Ordering::SeqCst)
    }

    /// Stops the work once the deadline is past. The other observer monitors it, too, for as long as it likes.
    fn monitor<R: Wait + Clock, P: Progress>(&self, rt: &R, work: &P) {
        let timed = TimedWork {
            work,
            deadline: self.deadline,
            rt,
        };
        self.gate.monitor(rt, &timed);
        watch(rt, &timed);
    }

    /// Reports lost wakes to the other observer, beside the deadline.
    fn missed_wakes(&self, late: u64) {
        self.gate.missed_wakes(late);
    }
}
