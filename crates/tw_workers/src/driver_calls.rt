//! The interface between a driver and a host.

ghost use Rattle.std.specs.Prelude.{◌≡◌, Bool, Ok, IfOk, IfSome, MatchOption};
ghost use Rattle.tw_verify.specs.Typed.{TypedProgram};
ghost use Rattle.tw_host.specs.Seats.{seen_by};
ghost use Rattle.tw_host.specs.Sees.{IsAnswerOf, IsDoneOf};
ghost use Rattle.tw_workers.specs.AtHost.{AtSeat};
ghost use Rattle.tw_workers.specs.Driving.{Step, Turned, Stopped, Before, Ran, Left, After, step_or_batch};

use crate::gate::Gate;
use std::alloc::Global;
use std::sync::Wait;
use tw_frame::{Done, Job};
use tw_host::{Host, MOST_TURNS, Named, Seat, Strange};
use tw_pool::Turn;
use tw_stop::StopSignal;
use tw_types::Actor;

/// The calls that a driver makes for a seat: of a host, of a job observer (`Gate`), and of a job. Each call is a step of
/// the seat, so that a driver's contract can list its steps.
pub trait DriverCalls<'a> {
    type Seat;

    ghost program: { TypedProgram };

    /// The effect of a step on a seat.
    ghost does: { Self.Seat → Step → Self.Seat → Type 0 };

    /// Makes one scheduling step of the seat that a driver drives.
    fn turn<R: Wait>(
        &self,
        rt: &R,
        alloc: Global,
        seat: &mut Self::Seat,
        done: Option<Done<'a>>,
    ) -> Result<Turn<'a>, Strange<'a>>
        requires { IsDoneOf program done }
        ensures does { does seat.old (Turned done.entry result) seat.new }
        ensures program { IfOk result (IsAnswerOf program) };

    /// Makes one scheduling step of the seat that a driver drives, or a batch.
    fn make_steps<R: Wait>(
        &self,
        rt: &R,
        alloc: Global,
        seat: &mut Self::Seat,
        done: Option<Done<'a>>,
    ) -> Result<Turn<'a>, Strange<'a>>
        requires { IsDoneOf program done }
        ensures does { (several : Bool) × does seat.old (step_or_batch several done.entry result) seat.new }
        ensures program { IfOk result (IsAnswerOf program) };

    /// Parks the thread of a seat whose last step was idle, until there is work for it or the run is over. It may also return without a
    /// reason.
    fn park<R: Wait>(&self, rt: &R, seat: &Self::Seat);

    /// Stops the run of the seat that a driver drives.
    fn stop<R: Wait>(&self, rt: &R, seat: &mut Self::Seat)
        ensures { does seat.old Stopped seat.new };

    /// Calls the observer before the driver runs a job of its seat.
    fn before_job<R: Wait>(&self, rt: &R, seat: &mut Self::Seat, actor: Actor, task: u64)
        ensures { does seat.old (Before actor task) seat.new };

    /// Runs a job of the seat that a driver drives, or returns nothing if the run is over meanwhile.
    fn run(&self, alloc: Global, seat: &mut Self::Seat, job: Job<'a>) -> Option<Done<'a>>
        ensures does { MatchOption result (does seat.old (Left job.entry) seat.new) (λ done. does seat.old (Ran job.entry done) seat.new) }
        ensures before { IfSome result (λ done. done.before ≡ job.entry) };

    /// Calls the observer after the driver has run a job of its seat.
    fn after_job<R: Wait>(&self, rt: &R, seat: &mut Self::Seat, actor: Actor, task: u64)
        ensures { does seat.old (After actor task) seat.new };
}

/// A signal that is raised once a run is over.
#[derive(Drop)]
struct RunEnd<'h, 'a, N: Named> {
    host: &'h Host<'a, N>,
}

impl<'h, 'a, N: Named> StopSignal for RunEnd<'h, 'a, N> {
    ghost says = { λ _ _ _. Unit {0} };

    /// Returns whether the host's run is over, so that a driver's job is cut off.
    fn is_raised(&mut self) -> bool {
        self.host.events_so_far().is_none()
    }
}

/// A host, and the observer of its jobs.
#[derive(Drop)]
pub struct ObservedHost<'h, 'a, N: Named, G: Gate> {
    pub host: &'h Host<'a, N>,
    pub gate: &'h G,
}

impl<'h, 'a, N: Named, G: Gate> DriverCalls<'a> for ObservedHost<'h, 'a, N, G> {
    type Seat = Seat<N>;

    ghost program = { N.run.program };

    ghost does = { λ old step new. AtSeat N.run G.unwatched G.stoppable (seen_by old.actor old.events.items) step (seen_by new.actor new.events.items) };

    /// Makes one scheduling step of the seat on the observed host.
    fn turn<R: Wait>(
        &self,
        rt: &R,
        alloc: Global,
        seat: &mut Seat<N>,
        done: Option<Done<'a>>,
    ) -> Result<Turn<'a>, Strange<'a>> {
        self.host.turn(rt, alloc, seat, done)
    }

    /// Makes a batch of the seat's steps on the observed host, or one step if the observer watches each job.
    fn make_steps<R: Wait>(
        &self,
        rt: &R,
        alloc: Global,
        seat: &mut Seat<N>,
        done: Option<Done<'a>>,
    ) -> Result<Turn<'a>, Strange<'a>> {
        if self.gate.watches() {
            self.host.turn(rt, alloc, seat, done)
        } else {
            self.host.run_batch(rt, alloc, seat, done, MOST_TURNS)
        }
    }

    /// Parks the thread of a seat on the observed host.
    fn park<R: Wait>(&self, rt: &R, seat: &Seat<N>) {
        self.host.park(rt, seat);
    }

    /// Stops the run of the observed host.
    fn stop<R: Wait>(&self, rt: &R, _seat: &mut Seat<N>) {
        self.host.stop(rt);
    }

    /// Calls the observer of the host before a job.
    fn before_job<R: Wait>(&self, rt: &R, _seat: &mut Seat<N>, actor: Actor, task: u64) {
        self.gate.before_job(rt, actor, task);
    }

    /// Runs a job for the observed host, cut off at the end of the run if the observer may stop it.
    fn run(&self, alloc: Global, _seat: &mut Seat<N>, job: Job<'a>) -> Option<Done<'a>> {
        if self.gate.may_stop() {
            let mut end = RunEnd { host: self.host };
            match job.run_until(alloc, &mut end) {
                Ok(done) => Some(done),
                Err(cut) => {
                    self.gate.cut_off(cut.steps);
                    None
                }
            }
        } else {
            Some(job.run(alloc))
        }
    }

    /// Calls the observer of the host after a job.
    fn after_job<R: Wait>(&self, rt: &R, _seat: &mut Seat<N>, actor: Actor, task: u64) {
        self.gate.after_job(rt, actor, task);
    }
}
