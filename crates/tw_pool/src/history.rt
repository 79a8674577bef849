//! The events of a run, in order.

ghost use Rattle.std.specs.Prelude.{◌≡◌, ◌<◌, ◌++◌, ◌∷◌, ◌+◌, ◌==◌, [], IfOk, Some, length, slice_get};
ghost use Rattle.std.specs.Option.{option_map};
ghost use Rattle.tw_code.specs.machine.History.{actor_of};
ghost use Rattle.tw_pool.specs.Actors.{HasPlace, events_of};
ghost use Rattle.tw_pool.specs.Words.{FitsWord, unpack};

use crate::words::{maker, maker_of, pack, unpack};
use std::alloc::{AllocError, Global};
use std::marker::Model;
use tw_types::{Actor, Event};

/// Events in the order in which they were made, each encoded in one word. Its memory suffices for as many as the limit.
#[derive(Drop)]
pub struct History {
    words: Vec<u64>,
    limit: usize,
    /// How many events each actor made, by its place.
    counts: [u64; 24],
}

impl Model for History {
    ghost use Rattle.tw_pool.specs.Words.{events_in};
    ghost use Rattle.tw_pool.specs.History.{HistoryView};

    ghost Value = { HistoryView };

    ghost view = { λ h. record { events = events_in h.words.items; limit = h.limit } };

    ghost use Rattle.std.specs.List.{All};
    ghost use Rattle.std.specs.Prelude.{◌≤◌, vec_capacity};
    ghost use Rattle.tw_pool.specs.Actors.{AreCounts};
    ghost use Rattle.tw_pool.specs.Words.{IsPlaced};

    ghost invariant = { λ h. (h.limit ≤ vec_capacity h.words) × AreCounts h.counts (events_in h.words.items) × All IsPlaced h.words.items };
}

impl History {
    /// The greatest limit of events.
    pub const MOST_EVENTS: usize = 1_000_000;

    /// Makes the empty list of a run's events, with memory for `limit` of them.
    pub fn with_capacity(alloc: Global, limit: usize) -> Result<History, AllocError>
        ensures { IfOk result (λ h. h ≡ record { events = []; limit = limit }) }
    {
        Ok(History {
            words: Vec::with_capacity(alloc, limit)?,
            limit,
            counts: [0; 24],
        })
    }

    /// Returns the number of a run's events.
    pub fn len(&self) -> usize
        ensures { result ≡ length self.now.events }
    {
        self.words.len()
    }

    /// Returns whether a run's events have reached the limit.
    pub fn is_full(&self) -> bool
        ensures { result ≡ (length self.now.events == self.now.limit) }
    {
        self.words.len() == self.limit
    }

    /// Returns whether exactly one more event of a run fits the limit.
    pub(crate) fn has_room_for_one(&self) -> bool
        requires { length self.now.events < self.now.limit }
        ensures { result ≡ (length self.now.events + 1 == self.now.limit) }
    {
        self.words.len() + 1 == self.limit
    }

    /// Returns how many of a run's events are an actor's.
    pub fn count(&self, actor: Actor) -> u64
        requires { HasPlace actor }
        ensures { result ≡ length (events_of actor self.now.events) }
    {
        self.counts[actor.place()]
    }

    /// Returns the event of a run at an index.
    pub fn event(&self, index: usize) -> Event
        requires { index < length self.now.events }
        ensures { slice_get self.now.events index ≡ Some result }
    {
        unpack(self.words[index])
    }

    /// Returns the word that encodes the event of a run at an index.
    pub(crate) fn word(&self, index: usize) -> u64
        requires { index < length self.now.events }
        ensures { slice_get self.now.events index ≡ Some (unpack result) }
    {
        self.words[index]
    }

    /// Returns the actor of the event of a run at an index, without decoding the event.
    pub fn actor(&self, index: usize) -> Actor
        requires { index < length self.now.events }
        ensures { option_map actor_of (slice_get self.now.events index) ≡ Some result }
    {
        maker_of(self.words[index])
    }

    /// Appends an event to those of a run.
    #[inline(always)]
    pub fn push(&mut self, event: Event)
        requires fits { FitsWord event }
        requires room { length self.old.events < self.old.limit }
        ensures { self.new ≡ record self.old { events = self.old.events ++ event ∷ [] } }
    {
        let word = pack(event);
        self.words.push_reserved(word);
        self.counts[maker(word)] += 1;
    }
}
