//! The data under the lock.

ghost use Rattle.std.specs.Prelude.{◌≡◌, ◌<◌, ◌≤◌, ◌+◌, ◌*◌, length, true, IfOk};
ghost use Rattle.tw_host.specs.Holds.{SeesUpTo};
ghost use Rattle.tw_host.specs.Sees.{IsAnswerOf, IsDoneOf};
ghost use Rattle.tw_host.specs.Sleeping.{HasCleared};
ghost use Rattle.tw_types.specs.Actor.{index_of};

use crate::batch::take_turns;
use crate::named::Named;
use crate::seat::{Seat, record_events};
use crate::sleepers::Sleepers;
use std::alloc::Global;
use std::marker::Model;
use std::sync::ledger::{Book, Share};
use tw_frame::Done;
use tw_pool::{Pool, Turn};

/// The error of a seat whose list isn't as long as the pool's number of its actor's events.
#[derive(Drop)]
pub struct Strange<'a> {
    pub count: u64,
    pub done: Option<Done<'a>>,
}

/// The pool, the total of its events, the parts of the ledger that no seat has, and which actors sleep. Contracts see the pool, and the
/// bits of the actors that sleep.
pub(crate) struct Locked<'a, N: Named> {
    pub(crate) pool: Pool<'a>,
    pub(crate) book: Book<N>,
    pub(crate) spare: Share<N>,
    pub(crate) sleepers: Sleepers,
}

impl<'a, N: Named> Model for Locked<'a, N> {
    ghost use Rattle.std.specs.Prelude.{ℕ};
    ghost use Rattle.tw_pool.specs.PoolView.{PoolView};

    ghost Value = { PoolView × ℕ };

    ghost use Rattle.tw_host.specs.Kept.{IsKept};

    ghost view = { λ l. (l.pool, l.sleepers.asleep) };

    ghost invariant = { λ l. IsKept N.run N.parts l.book.total l.spare.parts l.spare.amount l.pool l.sleepers };
}

impl<'a, N: Named> Locked<'a, N> {
    /// Stops the run of the locked pool. Returns the actors to be woken.
    pub(crate) fn stop(&mut self) -> u64
        ensures pool { self.new.0 ≡ record self.old.0 { stopped = true } }
        ensures due { result ≡ self.old.1 }
    {
        self.pool.stop();
        self.sleepers.end()
    }

    /// Returns the number of events of the locked pool.
    pub(crate) fn len(&self) -> usize {
        self.pool.history().len()
    }

    /// Makes steps of the seat's actor in the locked pool, at most `most`. The seat gets the events that they append. `is_over` is
    /// whether it was published that the run is over. Sets `due` to the actors to be woken afterwards.
    pub(crate) fn turn_seat(
        &mut self,
        alloc: Global,
        seat: &mut Seat<N>,
        done: Option<Done<'a>>,
        most: usize,
        is_over: bool,
        due: &mut u64,
    ) -> Result<Turn<'a>, Strange<'a>>
        requires some { 0 < most }
        requires room { length seat.old.events.items + 2 * most ≤ seat.old.events.capacity }
        requires program { IsDoneOf N.run.program done }
        ensures actor { seat.new.actor ≡ seat.old.actor }
        ensures events { SeesUpTo most N.run seat.old.actor seat.old.events.items seat.new.events.items done.entry result }
        ensures program { IfOk result (IsAnswerOf N.run.program) }
        ensures due { HasCleared (index_of N.run.layout seat.old.actor) self.old.1 self.new.1 due.new }
    {
        let actor = seat.actor;
        self.sleepers.check_in(self.pool.layout(), actor, is_over);
        let recorded = seat.events.len() as u64;
        let count = self.pool.count(actor);
        if count != recorded {
            return Err(Strange { count, done });
        }
        let before = self.pool.history().len();
        let answer = take_turns(&mut self.pool, alloc, actor, done, most);
        record_events(self.pool.history(), before, &mut self.book, seat);
        let events = self.pool.history().len() - before;
        *due = self.sleepers.to_wake(&self.pool, actor, events, &answer);
        Ok(answer)
    }
}
