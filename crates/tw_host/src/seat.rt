//! Seats, one for each actor.

ghost use Rattle.std.specs.Prelude.{◌≡◌, ◌+◌, ◌-◌, ◌≤◌, ◌++◌, [], vec_len, vec_capacity, drop, length, map, true, IfOk};
ghost use Rattle.tw_types.specs.Actor.{is_in};
ghost use Rattle.tw_host.specs.Seats.{actors_of, actor_count};

use crate::named::Named;
use std::alloc::{AllocError, Global};
use std::sync::ledger::{Book, Share};
use tw_pool::{Events, History};
use tw_types::{Actor, Layout};

/// The place from which one actor is driven, with the events that it got. It must be returned to the host.
pub struct Seat<N: Named> {
    pub(crate) actor: Actor,
    pub(crate) events: Events,
    pub(crate) share: Share<N>,
    /// Unused: keeps two adjacent seats out of one cache line, since each thread writes its own.
    pub(crate) apart: [u64; 8],
    pub ghost in_layout: { is_in N.run.layout actor ≡ true },
    pub ghost one_part: { share.parts ≡ 1 },
    pub ghost counted: { share.amount ≡ length events.items },
}

impl<N: Named> Seat<N> {
    /// Returns the actor of the host's seat.
    pub fn actor(&self) -> Actor
        ensures { result ≡ self.now.actor }
    {
        self.actor
    }

    /// Returns the events that the host's seat got, in order.
    pub fn events(&self) -> &Events
        ensures { result.now ≡ self.now.events }
    {
        &self.events
    }
}

/// A seat that is sent to a thread and back. What threads get and return must be droppable, and a seat isn't; but without this one its
/// host can't be closed.
pub struct SentSeat<N: Named> {
    pub seat: Seat<N>,
}

impl<N: Named> SentSeat<N> {
    /// Returns the seat that was sent to a thread.
    pub fn into_seat(self) -> Seat<N>
        ensures { result ≡ self.seat }
    {
        let Self { seat } = self;
        seat
    }
}

impl<N: Named> Drop for SentSeat<N> {
    /// Drops a seat that was sent to a thread: its list of events and its part of the ledger.
    fn drop(self) {
        let Self { seat } = self;
        let Seat {
            actor: _,
            events,
            share,
            apart: _,
        } = seat;
        drop(events);
        drop(share);
    }
}

/// Drops seats of the host, one by one.
fn drop_all<N: Named>(seats: Vec<Seat<N>>) {
    let mut rest = seats.into_iter();
    while let Some(seat) = rest.next() {
        drop(SentSeat { seat });
    }
    rest.destroy_empty();
}

/// Like `SentSeat`, of several seats.
pub struct SentSeats<N: Named> {
    pub seats: Vec<Seat<N>>,
}

impl<N: Named> SentSeats<N> {
    /// Returns the seats that were sent to a thread.
    pub fn into_seats(self) -> Vec<Seat<N>>
        ensures { result ≡ self.seats }
    {
        let Self { seats } = self;
        seats
    }
}

impl<N: Named> Drop for SentSeats<N> {
    /// Drops the seats that were sent to a thread, one by one.
    fn drop(self) {
        let Self { seats } = self;
        drop_all(seats);
    }
}

/// Allocates memory for `count` seats, and for their lists of events.
pub(crate) fn seat_memory<N: Named>(
    alloc: Global,
    count: usize,
) -> Result<(Vec<Seat<N>>, Vec<Events>), AllocError>
    ensures seats { IfOk result (λ r. (r.0.items ≡ []) × (count ≤ vec_capacity r.0)) }
    ensures lists { IfOk result (λ r. (r.1.items ≡ []) × (count ≤ vec_capacity r.1)) }
{
    let by_seat = Vec::with_capacity(alloc, count)?;
    let seats = Vec::with_capacity(alloc, count)?;
    Ok((seats, by_seat))
}

/// Makes a seat for each actor of a layout, with a part of the ledger.
pub(crate) fn seats_of<N: Named>(
    alloc: Global,
    layout: Layout,
    mut seats: Vec<Seat<N>>,
    all: &mut Share<N>,
) -> Vec<Seat<N>>
    requires empty { seats.items ≡ [] }
    requires room { actor_count layout ≤ vec_capacity seats }
    requires layout { N.run.layout ≡ layout }
    requires parts { all.old.parts ≡ actor_count layout }
    requires amount { all.old.amount ≡ 0 }
    ensures len { vec_len result ≡ actor_count layout }
    ensures actors { map (λ s. s.actor) result.items ≡ actors_of layout }
    ensures events { map (λ s. s.events.items) result.items ≡ map (λ _. []) (actors_of layout) }
    ensures parts { (all.new.parts ≡ 0) × (all.new.amount ≡ 0) }
{
    for seat in 0..layout.actor_count() {
        let share = all.split_off(1, 0);
        seats.push_reserved(Seat {
            actor: layout.actor_at(seat),
            events: Events::new(alloc),
            share,
            apart: [0; 8],
        });
    }
    seats
}

/// Appends to a seat of the host the events of the run from an index on, and counts them.
pub(crate) fn record_events<N: Named>(
    history: &History,
    before: usize,
    book: &mut Book<N>,
    seat: &mut Seat<N>,
)
    requires before { before ≤ length history.now.events }
    requires room { length seat.old.events.items + (length history.now.events - before) ≤ seat.old.events.capacity }
    ensures events { seat.new.events.items ≡ seat.old.events.items ++ drop before history.now.events }
    ensures actor { seat.new.actor ≡ seat.old.actor }
    ensures total { book.new.total + before ≡ book.old.total + length history.now.events }
{
    let Seat {
        actor: _,
        events,
        share,
        apart: _,
    } = seat;
    for k in before..history.len() {
        events.push_from(history, k);
        book.add(share, 1);
    }
}
