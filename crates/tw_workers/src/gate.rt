//! Job observers, which are called before and after each job.

ghost use Rattle.std.specs.Prelude.{◌≡◌, false, true};

use std::sync::Wait;
use std::time::Clock;
use tw_host::{Host, Named};
use tw_types::Actor;

/// How far work has got.
#[derive(Clone, Copy)]
pub enum SoFar {
    /// A run has this many events.
    Events(u64),
    /// In one thread, actors have taken this many turns, and 65,536 instructions of a task count as one, too.
    Turns(u64),
    /// This many lines of inputs are answered.
    Lines(u64),
}

/// Progress of work that other threads do: of a run, or of the runs of many lines.
pub trait Progress {
    /// Returns how far observed work had got recently, or `None` once it is over.
    fn so_far(&self) -> Option<SoFar>;

    /// Stops observed work, if it can be stopped.
    fn stop<R: Wait>(&self, _rt: &R) {}
}

impl<'a, N: Named> Progress for Host<'a, N> {
    /// Returns the host's recent number of events as an observer's progress, or `None` once its run is over.
    fn so_far(&self) -> Option<SoFar> {
        Some(SoFar::Events(self.events_so_far()?))
    }

    /// Stops the host's run for an observer.
    fn stop<R: Wait>(&self, rt: &R) {
        Host::stop(self, rt);
    }
}

/// A job observer. It is called before and after each job, in the thread that runs it, with its actor and its task's number.
pub trait Gate {
    /// Holds if the observer loses nothing by not seeing each job.
    ghost unwatched: { Type 0 } = { ⊥ };

    /// Returns whether an observer has to see each job. If not, a job whose next instruction isn't local, or whose task is brief,
    /// is run and submitted under the same lock, without calls of the observer.
    fn watches(&self) -> bool
        ensures { result ≡ false → unwatched }
    {
        true
    }

    /// Holds if the observer may stop the run.
    ghost stoppable: { Type 0 } = { ⊥ };

    /// Returns whether an observer may stop the run. If so, jobs look whether the run is over, and are cut off then.
    fn may_stop(&self) -> bool
        ensures { result ≡ true → stoppable }
    {
        false
    }

    /// Is called before each job that the observer has to see, in the thread that runs it.
    fn before_job<R: Wait>(&self, rt: &R, actor: Actor, task: u64);

    /// Is called after each job that the observer has to see, in the thread that has run it.
    fn after_job<R: Wait>(&self, rt: &R, actor: Actor, task: u64);

    /// Receives for an observer how many local instructions a job had executed when it was cut off.
    fn cut_off(&self, _steps: u64) {}

    /// Returns how many local instructions an observer's jobs that were cut off had executed, if it counts them.
    fn cut(&self) -> u64 {
        0
    }

    /// Is called once by an observer's run, beside the threads that do the work. It may look at their progress until the work is
    /// over, as often as it likes.
    fn monitor<R: Wait + Clock, P: Progress>(&self, _rt: &R, _work: &P) {}

    /// Receives for an observer how many wakes of idle threads were lost. It is called once, after the last driver has ended. The
    /// number is 0 unless the host has a bug.
    fn missed_wakes(&self, _late: u64) {}
}

/// A job observer that does nothing.
#[derive(Clone, Copy)]
pub struct NoGate;

impl Gate for NoGate {
    ghost unwatched = { Unit {0} };

    /// Returns that the observer which does nothing needn't see each job.
    fn watches(&self) -> bool {
        false
    }

    /// Does nothing before a job.
    fn before_job<R: Wait>(&self, _rt: &R, _actor: Actor, _task: u64) {}

    /// Does nothing after a job.
    fn after_job<R: Wait>(&self, _rt: &R, _actor: Actor, _task: u64) {}
}
