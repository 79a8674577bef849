//! Runs in threads.

ghost use Rattle.std.specs.Prelude.{◌≡◌, List, [], IfErr, IfOk, map, reverse, vec_len, vec_capacity};
ghost use Rattle.tw_pool.specs.Openings.{IsRejection, MayOpen};
ghost use Rattle.tw_host.specs.Ends.{Closes, IsDifference, IsOneEach};
ghost use Rattle.tw_host.specs.Run.{Run};
ghost use Rattle.tw_host.specs.Seats.{SeatEvents, actor_count, actors_of, seen_by};
ghost use Rattle.tw_workers.specs.Threads.{AllDrove, Drove};

use crate::driver::{Driven, drive};
use crate::gate::Gate;
use std::alloc::Global;
use std::marker::{Brand, PhantomData};
use std::snapshot::Snapshot;
use std::sync::Wait;
use std::sync::ledger::Blank;
use std::thread;
use std::thread::{Promise, PromisedHandle, Scope, SpawnError, Threads};
use std::time::Clock;
use tw_host::{Closed, Host, Named, Seat, SentSeat, SentSeats};
use tw_pool::OpenError;
use tw_types::{Input, Layout};
use tw_verify::Verified;

/// The result of a driver's thread: the seat that it left, and whether an allocation failed.
#[derive(Drop)]
struct Returned<N: Named> {
    sent: SentSeat<N>,
    memory: bool,
}

/// The promise of a seat's driver: it drove the seat from there.
#[derive(Drop)]
struct DriverPromise<N: Named, G: Gate> {
    seat: Snapshot<Seat<N>>,
    gate: PhantomData<G>,
}

impl<N: Named, G: Gate> Promise<Returned<N>> for DriverPromise<N, G> {
    ghost kept_by = { λ b r. Drove N.run G.unwatched G.stoppable (seen_by b.seat.value.actor b.seat.value.events.items) (seen_by r.sent.seat.actor r.sent.seat.events.items) r.memory };
}

/// Drives a seat that was sent to a thread until the run is over.
fn drive_sent<'a, N: Named, G: Gate, R: Wait + Clock>(
    rt: &R,
    alloc: Global,
    host: &Host<'a, N>,
    sent: SentSeat<N>,
    gate: &G,
) -> Returned<N>
    ensures { Drove N.run G.unwatched G.stoppable (seen_by sent.seat.actor sent.seat.events.items) (seen_by result.sent.seat.actor result.sent.seat.events.items) result.memory }
{
    let Driven { seat, memory } = drive(rt, alloc, host, sent.into_seat(), gate);
    Returned {
        sent: SentSeat { seat },
        memory,
    }
}

/// Starts to drive a seat in its own thread. If there is no thread, stops the run and drives the seat here.
fn begin<'s, 'e, 'a, N: Named + Send + Sync, G: Gate + Sync, R: Threads + Wait + Clock + Sync>(
    rt: &'e R,
    alloc: Global,
    scope: &Scope<'s, &'e ()>,
    host: &'e Host<'a, N>,
    seat: Seat<N>,
    gate: &'e G,
) -> Result<PromisedHandle<Returned<N>, DriverPromise<N, G>>, Returned<N>>
    ensures there { IfOk result (λ driver. driver.promise.seat.value ≡ seat) }
    ensures here { IfErr result (λ here. Drove N.run G.unwatched G.stoppable (seen_by seat.actor seat.events.items) (seen_by here.sent.seat.actor here.sent.seat.events.items) here.memory) }
{
    let begun = DriverPromise::<N, G> {
        seat: Snapshot::of(&seat),
        gate: PhantomData,
    };
    let sent = SentSeat { seat };
    let work = move || -> Returned<N>
        ensures { Drove N.run G.unwatched G.stoppable (seen_by sent.seat.actor sent.seat.events.items) (seen_by result.sent.seat.actor result.sent.seat.events.items) result.memory }
    { drive_sent(rt, alloc, host, sent, gate) };
    match scope.spawn_with(begun, work) {
        Ok(driver) => Ok(driver),
        Err(back) => {
            host.stop(rt);
            let SpawnError { value: work } = back;
            Err(work())
        }
    }
}

/// Drives each of these seats in its own thread, from the last on, lets the observer monitor the run, and joins the threads. Each seat
/// is then where it was. Returns whether an allocation failed or a seat had no thread.
fn drive_each<'s, 'e, 'a, N: Named + Send + Sync, G: Gate + Sync, R: Threads + Wait + Clock + Sync>(
    rt: &'e R,
    alloc: Global,
    scope: &Scope<'s, &'e ()>,
    host: &'e Host<'a, N>,
    seats: &mut Vec<Seat<N>>,
    gate: &'e G,
) -> bool
    ensures drove { AllDrove N.run G.unwatched G.stoppable (map (λ s. seen_by s.actor s.events.items) (reverse seats.old.items)) (map (λ s. seen_by s.actor s.events.items) (reverse seats.new.items)) result }
    ensures len { vec_len seats.new ≡ vec_len seats.old }
    ensures capacity { vec_capacity seats.new ≡ vec_capacity seats.old }
{
    let Some(seat) = seats.pop() else {
        gate.monitor(rt, host);
        return false;
    };
    match begin(rt, alloc, scope, host, seat, gate) {
        Ok(driver) => {
            let others = drive_each(rt, alloc, scope, host, seats, gate);
            let Returned { sent, memory } = driver.join(rt);
            seats.push_reserved(sent.into_seat());
            memory || others
        }
        Err(Returned { sent, memory: _ }) => {
            drive_each(rt, alloc, scope, host, seats, gate);
            seats.push_reserved(sent.into_seat());
            true
        }
    }
}

/// Drives each seat in its own thread, from the first on. Returns the seats, and whether an allocation failed or a seat had no thread.
fn drive_all<'a, N: Named + Send + Sync, G: Gate + Sync, R: Threads + Wait + Clock + Sync>(
    rt: &R,
    alloc: Global,
    host: &Host<'a, N>,
    seats: Vec<Seat<N>>,
    gate: &G,
) -> (Vec<Seat<N>>, bool)
    ensures drove { AllDrove N.run G.unwatched G.stoppable (map (λ s. seen_by s.actor s.events.items) seats.items) (map (λ s. seen_by s.actor s.events.items) result.0.items) result.1 }
    ensures len { vec_len result.0 ≡ vec_len seats }
{
    let sent = SentSeats { seats };
    thread::scope(
        thread::scope_env(),
        rt,
        |scope| -> (Vec<Seat<N>>, bool)
            ensures drove { AllDrove N.run G.unwatched G.stoppable (map (λ s. seen_by s.actor s.events.items) sent.seats.items) (map (λ s. seen_by s.actor s.events.items) result.0.items) result.1 }
            ensures len { vec_len result.0 ≡ vec_len sent.seats }
        {
            let mut seats = sent.into_seats();
            seats.reverse();
            let memory = drive_each(rt, alloc, scope, host, &mut seats, gate);
            seats.reverse();
            (seats, memory)
        },
    )
}

/// Drives all seats in their own threads until the run is over, and closes the host with the seats as they are then. Also returns whether
/// an allocation failed or a seat had no thread.
pub fn run_all<'a, N: Named + Send + Sync, G: Gate + Sync, R: Threads + Wait + Clock + Sync>(
    rt: &R,
    alloc: Global,
    host: Host<'a, N>,
    seats: Vec<Seat<N>>,
    gate: &G,
) -> (Closed, bool)
    requires all { vec_len seats ≡ actor_count N.run.layout }
    ensures { (lefts : List SeatEvents) × AllDrove N.run G.unwatched G.stoppable (map (λ s. seen_by s.actor s.events.items) seats.items) lefts result.1 × Closes N.run lefts result.0
        × (IsOneEach N.run.layout lefts → IsDifference lefts result.0) }
{
    let (seats, memory) = drive_all(rt, alloc, &host, seats, gate);
    gate.missed_wakes(host.missed_wakes(rt));
    (host.close(seats), memory)
}

/// Makes one run in threads, with the run's name as a type.
fn run_named<N: Named + Send + Sync, G: Gate + Sync, R: Threads + Wait + Clock + Sync>(
    rt: &R,
    alloc: Global,
    blank: Blank,
    verified: &Verified,
    inputs: &[Input],
    layout: Layout,
    limit: usize,
    gate: &G,
) -> Result<(Closed, bool), OpenError>
    requires ledger { (blank.name ≡ N.name) × (blank.parts ≡ N.parts) × (blank.parts ≡ actor_count layout) }
    requires run { N.run ≡ record { program = verified.now; inputs = inputs.now; layout = layout; limit = limit } }
    ensures allowed { IfOk result (λ _. MayOpen verified.now.program inputs.now layout limit) }
    ensures closes { IfOk result (λ r. (lefts : List SeatEvents) × AllDrove N.run G.unwatched G.stoppable (map (λ a. seen_by a []) (actors_of layout)) lefts r.1 × Closes N.run lefts r.0 × IsDifference lefts r.0) }
    ensures refused { IfErr result (IsRejection verified.now.program inputs.now layout limit) }
{
    let (host, seats) = Host::<N>::open(alloc, blank, verified, inputs, layout, limit)?;
    Ok(run_all(rt, alloc, host, seats, gate))
}

/// Runs a verified program in as many threads as there are actors. Also returns whether an allocation failed or a seat had no
/// thread.
pub fn run<G: Gate + Sync, R: Threads + Wait + Clock + Sync>(
    rt: &R,
    alloc: Global,
    verified: &Verified,
    inputs: &[Input],
    layout: Layout,
    limit: usize,
    gate: &G,
) -> Result<(Closed, bool), OpenError>
    ensures allowed { IfOk result (λ _. MayOpen verified.now.program inputs.now layout limit) }
    ensures closes { let run : Run = record { program = verified.now; inputs = inputs.now; layout = layout; limit = limit } in IfOk result
        (λ r. (lefts : List SeatEvents) × AllDrove run G.unwatched G.stoppable (map (λ a. seen_by a []) (actors_of layout)) lefts r.1 × Closes run lefts r.0 × IsDifference lefts r.0) }
    ensures refused { IfErr result (IsRejection verified.now.program inputs.now layout limit) }
{
    let blank = Blank::new(layout.actor_count() as u64);
    run_named::<Brand, G, R>(rt, alloc, blank, verified, inputs, layout, limit, gate)
}
