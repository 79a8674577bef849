//! The pool of a run under its lock.

ghost use Rattle.std.specs.Prelude.{◌≡◌, ◌<◌, ◌≤◌, IfErr, IfOk, [], map, vec_len, vec_capacity};
ghost use Rattle.tw_pool.specs.Openings.{IsRejection, MayOpen};
ghost use Rattle.tw_host.specs.Seats.{actors_of, actor_count};
ghost use Rattle.tw_host.specs.Holds.{SeesUpTo, most_turns};
ghost use Rattle.tw_host.specs.Sees.{IsAnswerOf, IsDoneOf, Sees};

use crate::locked::{Locked, Strange};
use crate::named::Named;
use crate::parkers::Parkers;
use crate::progress::RunProgress;
use crate::seat::{Seat, seat_memory, seats_of};
use crate::sleepers::Sleepers;
use crossbeam_utils::CachePadded;
use std::alloc::Global;
use std::hint;
use std::sync::ledger::Blank;
use std::sync::{Mutex, MutexGuard, Wait};
use tw_frame::Done;
use tw_pool::{Events, OpenError, Pool, Turn};
use tw_types::{Input, Layout};
use tw_verify::Verified;

/// How often a thread tries to take the lock before it sleeps: for some 50,000 pauses of the processor, or 10 to 30 full batches.
const TRIES: u32 = 100;

/// The greatest number of pauses between two tries, as a power of two.
const LONGEST_PAUSE: u32 = 9;

/// Pauses after a try to take the host's lock, twice as long as after the one before. Never yields the processor, since on a busy
/// machine that costs a time slice.
fn pause_after(tries: u32) {
    for _ in 0..1u32 << tries.min(LONGEST_PAUSE) {
        hint::spin_loop();
    }
}

/// Takes the host's lock, which is held for short times. Spins first, since a lock that is passed to a sleeping thread is idle
/// until that thread runs. Tries seldom, so that the holder may take the lock again and the data stay in its processor's cache.
fn locked_soon<'b, T, R: Wait>(lock: &'b Mutex<T>, rt: &R) -> MutexGuard<'b, T> {
    for tries in 0..TRIES {
        if let Some(guard) = lock.try_lock() {
            return guard;
        }
        pause_after(tries);
    }
    lock.lock(rt)
}

/// The pool of a run under its one lock.
pub struct Host<'a, N: Named> {
    pub(crate) verified: &'a Verified,
    /// The padding keeps the lock's word on a cache line of its own: each attempt to take the lock moves that line between processors.
    pub(crate) locked: Mutex<CachePadded<Locked<'a, N>>>,
    pub(crate) by_seat: Vec<Events>,
    pub(crate) progress: RunProgress,
    pub(crate) parkers: Parkers,
    pub(crate) layout: Layout,
    ghost program: { verified.now ≡ N.run.program },
    ghost empty: { by_seat.items ≡ [] },
    ghost room: { actor_count N.run.layout ≤ vec_capacity by_seat },
}

impl<'a, N: Named> Host<'a, N> {
    /// Opens a host before its run's first event, with a seat for each actor, in the order of `actor_at`. Allocates all memory for
    /// the seats before it makes one.
    pub fn open(
        alloc: Global,
        blank: Blank,
        verified: &'a Verified,
        inputs: &'a [Input],
        layout: Layout,
        limit: usize,
    ) -> Result<(Host<'a, N>, Vec<Seat<N>>), OpenError>
        requires ledger { (blank.name ≡ N.name) × (blank.parts ≡ N.parts) × (blank.parts ≡ actor_count layout) }
        requires run { N.run ≡ record { program = verified.now; inputs = inputs.now; layout = layout; limit = limit } }
        ensures allowed { IfOk result (λ _. MayOpen verified.now.program inputs.now layout limit) }
        ensures len { IfOk result (λ r. vec_len r.1 ≡ actor_count layout) }
        ensures actors { IfOk result (λ r. map (λ s. s.actor) r.1.items ≡ actors_of layout) }
        ensures events { IfOk result (λ r. map (λ s. s.events.items) r.1.items ≡ map (λ _. []) (actors_of layout)) }
        ensures refused { IfErr result (IsRejection verified.now.program inputs.now layout limit) }
    {
        let pool = Pool::open(alloc, verified, inputs, layout, limit)?;
        let Ok(parkers) = Parkers::new(alloc, layout) else {
            let _ = pool.shut();
            return Err(OpenError::NoMemory);
        };
        let Ok((seats, by_seat)) = seat_memory(alloc, layout.actor_count()) else {
            let _ = pool.shut();
            return Err(OpenError::NoMemory);
        };
        let (book, mut spare) = blank.open::<N>();
        let seats = seats_of(alloc, layout, seats, &mut spare);
        let locked = Mutex::new(CachePadded::new(Locked {
            pool,
            book,
            spare,
            sleepers: Sleepers::new(),
        }));
        let host = Host {
            verified,
            locked,
            by_seat,
            progress: RunProgress::new(),
            parkers,
            layout,
        };
        Ok((host, seats))
    }

    /// Returns the verified program that the host runs.
    pub fn program(&self) -> &'a Verified
        ensures { result.now ≡ N.run.program }
    {
        self.verified
    }

    /// Makes one step of the seat's actor under the lock. The seat gets the events that it appends. If an allocation for these
    /// fails, the pool doesn't change. If the seat's list isn't as long as the pool's, nothing changes either.
    #[inline(always)]
    pub fn turn(
        &self,
        rt: &impl Wait,
        alloc: Global,
        seat: &mut Seat<N>,
        done: Option<Done<'a>>,
    ) -> Result<Turn<'a>, Strange<'a>>
        requires program { IsDoneOf N.run.program done }
        ensures actor { seat.new.actor ≡ seat.old.actor }
        ensures events { Sees N.run seat.old.actor seat.old.events.items seat.new.events.items done.entry result }
        ensures program { IfOk result (IsAnswerOf N.run.program) }
    {
        self.run_batch(rt, alloc, seat, done, 1)
    }

    /// Makes steps of the seat's actor, at most `most`, and holds the lock once. It continues while a step returns `Went` or `Ended`, or
    /// issues a job that it runs at once: one whose next instruction isn't local or whose task is brief. The seat gets the events that
    /// they append. If an allocation for these fails, the pool doesn't change. If the seat's list isn't as long as the pool's, nothing
    /// changes either.
    #[inline(always)]
    pub fn run_batch(
        &self,
        rt: &impl Wait,
        alloc: Global,
        seat: &mut Seat<N>,
        done: Option<Done<'a>>,
        most: usize,
    ) -> Result<Turn<'a>, Strange<'a>>
        requires some { 0 < most }
        requires few { most ≤ most_turns }
        requires program { IsDoneOf N.run.program done }
        ensures actor { seat.new.actor ≡ seat.old.actor }
        ensures events { SeesUpTo most N.run seat.old.actor seat.old.events.items seat.new.events.items done.entry result }
        ensures program { IfOk result (IsAnswerOf N.run.program) }
    {
        if seat.events.reserve(2 * most).is_err() {
            return Ok(Turn::NoMemory(done));
        }
        let mut due = 0;
        let mut guard = locked_soon(&self.locked, rt);
        let locked = &mut **guard;
        let is_over = self.progress.is_over();
        let answer = locked.turn_seat(alloc, seat, done, most, is_over, &mut due);
        self.progress.set_events(locked.len());
        drop(guard);
        if let Ok(Turn::Over(_)) = answer {
            self.progress.end();
        }
        self.parkers.unpark(due);
        answer
    }

    /// Returns a recent number of events, or `None` once a step or a stop has found the run over. It is read without the lock. No
    /// decision depends on it.
    pub fn events_so_far(&self) -> Option<u64> {
        self.progress.events()
    }

    /// Stops the host's run: from now on no step makes an event.
    pub fn stop(&self, rt: &impl Wait) {
        let mut guard = self.locked.lock(rt);
        let locked = &mut **guard;
        let due = locked.stop();
        drop(guard);
        self.progress.end();
        self.parkers.unpark(due);
    }

    /// Parks the thread of a seat whose last step was idle, until its actor has work or the run is over. It may also return without
    /// a reason, and does so after 100 ms.
    pub fn park(&self, rt: &impl Wait, seat: &Seat<N>) {
        self.parkers.park(rt, self.layout.index_of(seat.actor));
    }

    /// Returns how many wakes were lost: how often a thread returned from `park` by itself although there was work for a parked
    /// one, and how many wakes weren't made. It is 0 unless the host has a bug. Call it when no other thread is in a step.
    pub fn missed_wakes(&self, rt: &impl Wait) -> u64 {
        let guard = self.locked.lock(rt);
        guard.sleepers.missed_wakes(self.parkers.unparks())
    }
}
