//! Closes a run.

ghost use Rattle.std.specs.Prelude.{◌≡◌, ◌≢◌, ◌↔◌, ◌+◌, ◌<◌, ◌≤◌, [], ℕ, IfSome, IsTrue, MatchOption, get_or, length, map, slice_get, slice_index_or, sum_by, true, vec_len, vec_capacity};
ghost use Rattle.std.specs.List.{All};
ghost use Rattle.std.specs.List.Sorted.{IsPermutation};
ghost use Rattle.tw_types.specs.declared.actor.Actor.{Actor as AnActor};
ghost use Rattle.tw_types.specs.Actor.{is_in};
ghost use Rattle.tw_pool.specs.Actors.{events_of};
ghost use Rattle.tw_host.specs.Ends.{Closes, IsDifference, IsOneEach};
ghost use Rattle.tw_host.specs.Seats.{NoneOf, SeatEvents, actor_at, actors_of, actor_count, seen_by};

use crate::host::Host;
use crate::locked::Locked;
use crate::named::Named;
use crate::seat::Seat;
use std::sync::ledger::Share;
use tw_pool::{Events, Final, History};
use tw_types::{Actor, Layout};

/// The result of closing a run.
#[derive(Drop)]
pub enum Closed {
    /// Each seat's events are those of its actor.
    Ended {
        history: History,
        outcome: Final,
        by_seat: Vec<Events>,
    },
    /// The seat of an actor has other events than the actor made, or no seat is the actor's.
    Differs {
        actor: Actor,
        told: Events,
        history: History,
    },
}

/// Returns whether the event at `next` of a seat's list is this event of the run.
fn is_next(list: &Events, next: usize, history: &History, k: usize) -> bool
    requires within { next ≤ length list.now.items }
    requires there { k < length history.now.events }
    ensures { IsTrue result ↔ (slice_get list.now.items next ≡ slice_get history.now.events k) }
{
    next < list.len() && list.is_at(next, history, k)
}

/// Returns whether a seat of the host is an actor's.
fn is_seat_of<N: Named>(seat: &Seat<N>, actor: Actor) -> bool
    ensures { IsTrue result ↔ (seat.now.actor ≡ actor) }
{
    seat.actor == actor
}

/// Returns the index of the first seat of an actor, from `from` on.
fn place_of<N: Named>(seats: &[Seat<N>], from: usize, actor: Actor) -> Option<usize>
    ensures { let actors = map (λ s. s.actor) seats.now in MatchOption result
        ((k : ℕ) (d : AnActor) → from ≤ k → k < length actors → slice_index_or actors k d ≢ actor)
        (λ k. (from ≤ k) × (k < length actors) × ((d : AnActor) → slice_index_or actors k d ≡ actor)) }
{
    for k in from..seats.len() {
        if is_seat_of(&seats[k], actor) {
            return Some(k);
        }
    }
    None
}

/// Sorts the seats by their actors when the host is closed. Returns the first actor without a seat, if there is one.
fn put_in_order<N: Named>(seats: &mut [Seat<N>], layout: Layout) -> Option<Actor>
    requires { length seats.old ≡ actor_count layout }
    ensures moved { IsPermutation seats.old seats.new }
    ensures placed { let actors = map (λ s. s.actor) seats.new in MatchOption result (actors ≡ actors_of layout) (λ actor. NoneOf actor actors) }
    ensures layout { IfSome result (λ actor. is_in layout actor ≡ true) }
{
    for k in 0..layout.actor_count() {
        let actor = layout.actor_at(k);
        let Some(place) = place_of(seats, k, actor) else {
            return Some(actor);
        };
        seats.swap(k, place);
    }
    None
}

/// Returns the first seat for whose list another number of events was found than it has.
fn first_longer<N: Named>(seats: &[Seat<N>], layout: Layout, found: &[usize; 24]) -> Option<usize>
    requires { length seats.now ≡ actor_count layout }
    ensures { let lists = map (λ s. s.events.items) seats.now in MatchOption result
        ((j : ℕ) → j < actor_count layout → get_or found.now j 0 ≡ length (get_or lists j []))
        (λ j. (j < actor_count layout) × (get_or found.now j 0 ≢ length (get_or lists j []))) }
{
    for j in 0..layout.actor_count() {
        if found[j] != seats[j].events.len() {
            return Some(j);
        }
    }
    None
}

/// Returns a seat whose list isn't its actor's events. The seats must be in the order of their actors. Reads each event of the
/// run once: it must be the next one of its actor's list.
fn differing<N: Named>(seats: &[Seat<N>], layout: Layout, history: &History) -> Option<usize>
    requires { map (λ s. s.actor) seats.now ≡ actors_of layout }
    ensures { let lists = map (λ s. s.events.items) seats.now in MatchOption result
        ((j : ℕ) → j < actor_count layout → get_or lists j [] ≡ events_of (actor_at layout j) history.now.events)
        (λ j. (j < actor_count layout) × (get_or lists j [] ≢ events_of (actor_at layout j) history.now.events)) }
{
    let mut found = [0; 24];
    for k in 0..history.len() {
        let actor = history.actor(k);
        if layout.has(actor) {
            let own = layout.index_of(actor);
            if !is_next(&seats[own].events, found[own], history, k) {
                return Some(own);
            }
            found[own] += 1;
        }
    }
    first_longer(seats, layout, &found)
}

/// Sorts the seats by their actors, and compares the events of each with its actor's. Returns an actor without a seat, or an
/// actor and the index of its seat, if the events differ.
fn first_other<N: Named>(
    seats: &mut [Seat<N>],
    layout: Layout,
    history: &History,
) -> Option<(Actor, Option<usize>)>
    requires { length seats.old ≡ actor_count layout }
    ensures moved { IsPermutation seats.old seats.new }
    ensures found { let seen = map (λ s. seen_by s.actor s.events.items) seats.new in MatchOption result
        ((map (λ s. s.actor) seats.new ≡ actors_of layout) × All (λ s. s.events ≡ events_of s.actor history.now.events) seen)
        (λ r. MatchOption r.1 (NoneOf r.0 (map (λ s. s.actor) seats.new))
        (λ k. (k < length seen) × ((d : SeatEvents) → (slice_index_or seen k d).actor ≡ r.0) × ((d : SeatEvents) → (slice_index_or seen k d).events ≢ events_of r.0 history.now.events))) }
    ensures layout { IfSome result (λ r. is_in layout r.0 ≡ true) }
{
    if let Some(actor) = put_in_order(seats, layout) {
        return Some((actor, None));
    }
    match differing(seats, layout, history) {
        Some(seat) => Some((layout.actor_at(seat), Some(seat))),
        None => None,
    }
}

/// Takes the lists of all seats, and their parts of the ledger.
fn settle_seats<N: Named>(
    seats: Vec<Seat<N>>,
    mut by_seat: Vec<Events>,
    all: &mut Share<N>,
) -> Vec<Events>
    requires empty { by_seat.items ≡ [] }
    requires room { vec_len seats ≤ vec_capacity by_seat }
    ensures lists { map (λ v. v.items) result.items ≡ map (λ s. s.events.items) seats.items }
    ensures parts { all.new.parts ≡ all.old.parts + vec_len seats }
    ensures amount { all.new.amount ≡ all.old.amount + sum_by (λ s. length s.events) (map (λ s. seen_by s.actor s.events.items) seats.items) }
{
    let mut rest = seats.into_iter();
    while let Some(seat) = rest.next() {
        let Seat {
            actor: _,
            events,
            share,
            apart: _,
        } = seat;
        all.merge(share);
        by_seat.push_reserved(events);
    }
    rest.destroy_empty();
    by_seat
}

/// Returns the events of the seat at an index, or none without an index.
fn list_of_place(mut by_seat: Vec<Events>, place: Option<usize>) -> Events
    requires { IfSome place (λ k. k < vec_len by_seat) }
    ensures { MatchOption place (result.items ≡ []) (λ k. result ≡ slice_index_or by_seat.items k result) }
{
    match place {
        Some(seat) => by_seat.swap_remove(seat),
        None => Events::new(*by_seat.allocator()),
    }
}

impl<'a, N: Named> Locked<'a, N> {
    /// Closes the pool under the host's lock, after comparing the events of each seat with its actor's.
    fn close(self, mut seats: Vec<Seat<N>>, by_seat: Vec<Events>) -> Closed
        requires all { vec_len seats ≡ actor_count N.run.layout }
        requires empty { by_seat.items ≡ [] }
        requires room { vec_len seats ≤ vec_capacity by_seat }
        ensures { Closes N.run (map (λ s. seen_by s.actor s.events.items) seats.items) result }
    {
        let Locked {
            pool,
            mut book,
            mut spare,
            sleepers: _,
        } = self;
        let other = first_other(seats.as_mut_slice(), pool.layout(), pool.history());
        let by_seat = settle_seats(seats, by_seat, &mut spare);
        book.audit(&mut spare);
        let (outcome, history) = pool.shut();
        match other {
            None => Closed::Ended {
                history,
                outcome,
                by_seat,
            },
            Some((actor, seat)) => Closed::Differs {
                actor,
                told: list_of_place(by_seat, seat),
                history,
            },
        }
    }
}

impl<'a, N: Named> Host<'a, N> {
    /// Closes the host, with all its seats in any order. Compares the events of each seat with its actor's events of the run.
    pub fn close(self, seats: Vec<Seat<N>>) -> Closed
        requires all { vec_len seats ≡ actor_count N.run.layout }
        ensures closes { Closes N.run (map (λ s. seen_by s.actor s.events.items) seats.items) result }
        ensures difference { IsOneEach N.run.layout (map (λ s. seen_by s.actor s.events.items) seats.items) → IsDifference (map (λ s. seen_by s.actor s.events.items) seats.items) result }
    {
        let Host {
            verified: _,
            locked,
            by_seat,
            progress: _,
            parkers: _,
            layout: _,
        } = self;
        locked.into_inner().into_inner().close(seats, by_seat)
    }
}
