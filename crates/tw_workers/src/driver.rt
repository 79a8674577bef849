//! Drivers, each of which drives a seat until the run is over.

ghost use Rattle.std.specs.Prelude.{◌≡◌, IfOk, IfSome, List, None, Some};
ghost use Rattle.std.specs.List.{FoldsTo};
ghost use Rattle.tw_pool.specs.declared.answer.Turn.TheVariants as turn;
ghost use Rattle.tw_host.specs.Seats.{seen_by};
ghost use Rattle.tw_host.specs.Sees.{IsAnswerOf, IsDoneOf};
ghost use Rattle.tw_workers.specs.AtHost.{AtSeat};
ghost use Rattle.tw_workers.specs.Driving.{Drives, Follows, GivesUp, Step, working};

use crate::driver_calls::{DriverCalls, ObservedHost};
use crate::gate::Gate;
use std::alloc::Global;
use std::sync::Wait;
use std::time::Clock;
use tw_frame::{Done, Job};
use tw_host::{Host, Named, Seat, Strange};
use tw_pool::Turn;

/// A seat after its driver has ended, and whether an allocation failed.
pub struct Driven<N: Named> {
    pub seat: Seat<N>,
    pub memory: bool,
}

/// The end of a driver, and whether an allocation failed.
#[derive(Drop)]
struct End {
    memory: bool,
}

/// Runs a job of a driver's seat between the two calls of the observer. Returns nothing if the run is over meanwhile.
fn run_job<'a, D: DriverCalls<'a>, R: Wait>(
    rt: &R,
    alloc: Global,
    driver_calls: &D,
    seat: &mut D::Seat,
    job: Job<'a>,
) -> Option<Done<'a>>
    ensures before { IfSome result (λ done. done.before ≡ job.entry) }
    ensures steps { FoldsTo D.does seat.old (working job.entry result) seat.new }
{
    let lent = job.lent();
    let (actor, task) = (lent.actor(), lent.task().number());
    driver_calls.before_job(rt, seat, actor, task);
    let done = driver_calls.run(alloc, seat, job);
    driver_calls.after_job(rt, seat, actor, task);
    done
}

/// Submits a `Done` once more after a failed allocation, and stops the run.
fn retry_and_stop<'a, D: DriverCalls<'a>, R: Wait>(
    rt: &R,
    alloc: Global,
    driver_calls: &D,
    seat: &mut D::Seat,
    done: Option<Done<'a>>,
)
    requires { IsDoneOf D.program done }
    ensures { (steps : List Step) × FoldsTo D.does seat.old steps seat.new × GivesUp done.entry steps }
{
    let Some(done) = done else {
        driver_calls.stop(rt, seat);
        return;
    };
    let _ = driver_calls.turn(rt, alloc, seat, Some(done));
    driver_calls.stop(rt, seat);
}

/// Runs a job of a driver's seat, whose `Done` is submitted with the next step. A short one ends the driver, and so does the end
/// of the run.
fn work<'a, D: DriverCalls<'a>, R: Wait>(
    rt: &R,
    alloc: Global,
    driver_calls: &D,
    seat: &mut D::Seat,
    job: Job<'a>,
) -> Result<Option<Done<'a>>, End>
    requires { job.program ≡ D.program }
    ensures program { IfOk result (IsDoneOf D.program) }
    ensures steps { (steps : List Step) × FoldsTo D.does seat.old steps seat.new × Follows (Ok (turn.Run job.entry)) steps result }
{
    let Some(done) = run_job(rt, alloc, driver_calls, seat, job) else {
        return Err(End { memory: false });
    };
    if done.short() {
        retry_and_stop(rt, alloc, driver_calls, seat, Some(done));
        return Err(End { memory: true });
    }
    Ok(Some(done))
}

/// Handles the result of a step. Returns the `Done` for the next one, or the end of the driver.
fn handle_turn<'a, D: DriverCalls<'a>, R: Wait + Clock>(
    rt: &R,
    alloc: Global,
    driver_calls: &D,
    seat: &mut D::Seat,
    answer: Result<Turn<'a>, Strange<'a>>,
) -> Result<Option<Done<'a>>, End>
    requires { IfOk answer (IsAnswerOf D.program) }
    ensures program { IfOk result (IsDoneOf D.program) }
    ensures steps { (steps : List Step) × FoldsTo D.does seat.old steps seat.new × Follows answer.entry steps result }
{
    match answer {
        Ok(Turn::Over(_)) => Err(End { memory: false }),
        Ok(Turn::Run(job)) => work(rt, alloc, driver_calls, seat, job),
        Ok(Turn::Ended) | Ok(Turn::Went) => Ok(None),
        Ok(Turn::Idle) => {
            driver_calls.park(rt, seat);
            Ok(None)
        }
        Ok(Turn::NoMemory(done)) => {
            retry_and_stop(rt, alloc, driver_calls, seat, done);
            Err(End { memory: true })
        }
        Ok(Turn::Foreign(_)) | Ok(Turn::Owed) | Err(_) => {
            driver_calls.stop(rt, seat);
            Err(End { memory: false })
        }
    }
}

/// Drives a seat by any `DriverCalls` until the run is over. Stops the run if an allocation fails, or if a result isn't one that this driver
/// expects. Returns whether an allocation failed.
pub fn drive_at<'a, D: DriverCalls<'a>, R: Wait + Clock>(
    rt: &R,
    alloc: Global,
    driver_calls: &D,
    seat: &mut D::Seat,
) -> bool
    ensures { (steps : List Step) × FoldsTo D.does seat.old steps seat.new × Drives None steps result }
{
    let mut done: Option<Done<'a>> = None;
    for _ in rt.forever() {
        let answer = driver_calls.make_steps(rt, alloc, seat, done.take());
        match handle_turn(rt, alloc, driver_calls, seat, answer) {
            Ok(next) => done = next,
            Err(End { memory }) => return memory,
        }
    }
    unreachable!()
}

/// Drives a seat until the run is over. Stops the run if an allocation fails, or if a result of the host isn't one that a driver
/// expects.
pub fn drive<'a, N: Named, G: Gate, R: Wait + Clock>(
    rt: &R,
    alloc: Global,
    host: &Host<'a, N>,
    seat: Seat<N>,
    gate: &G,
) -> Driven<N>
    ensures actor { result.seat.actor ≡ seat.actor }
    ensures driven { (steps : List Step) × FoldsTo (AtSeat N.run G.unwatched G.stoppable) (seen_by seat.actor seat.events.items) steps (seen_by result.seat.actor result.seat.events.items) × Drives None steps result.memory }
{
    let mut seat = seat;
    let memory = drive_at(rt, alloc, &ObservedHost { host, gate }, &mut seat);
    Driven { seat, memory }
}
