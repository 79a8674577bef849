//! Lists of events of one actor.

ghost use Rattle.std.specs.Prelude.{◌≡◌, ◌<◌, ◌≤◌, ◌+◌, ◌++◌, [], IsTrue, ◌↔◌, OnOk, Some, length, option_to_list, slice_get};

use crate::history::History;
use crate::words::unpack;
use std::alloc::{AllocError, Global};
use std::marker::Model;
use tw_types::Event;

/// Events of a `History`, encoded like there.
#[derive(Drop)]
pub struct Events {
    words: Vec<u64>,
}

impl Model for Events {
    ghost use Rattle.std.specs.Prelude.{vec_capacity};
    ghost use Rattle.tw_pool.specs.Words.{events_in};
    ghost use Rattle.tw_pool.specs.History.{EventsView};

    ghost Value = { EventsView };

    ghost view = { λ e. record { items = events_in e.words.items; capacity = vec_capacity e.words } };
}

impl Events {
    /// Makes an empty list of a seat's events.
    pub fn new(alloc: Global) -> Events
        ensures { result.items ≡ [] }
    {
        Events {
            words: Vec::new(alloc),
        }
    }

    /// Returns the number of events in a seat's list.
    pub fn len(&self) -> usize
        ensures { result ≡ length self.now.items }
    {
        self.words.len()
    }

    /// Returns the event at an index of a seat's list.
    pub fn event(&self, index: usize) -> Event
        requires { index < length self.now.items }
        ensures { slice_get self.now.items index ≡ Some result }
    {
        unpack(self.words[index])
    }

    /// Reserves memory for `more` events in a seat's list.
    pub fn reserve(&mut self, more: usize) -> Result<(), AllocError>
        ensures items { self.new.items ≡ self.old.items }
        ensures room { OnOk result (length self.new.items + more ≤ self.new.capacity) }
    {
        self.words.reserve(more)
    }

    /// Appends to a seat's list the event of a `History` at an index. Needs reserved memory.
    pub fn push_from(&mut self, history: &History, index: usize)
        requires there { index < length history.now.events }
        requires room { length self.old.items < self.old.capacity }
        ensures items { self.new.items ≡ self.old.items ++ option_to_list (slice_get history.now.events index) }
        ensures capacity { self.new.capacity ≡ self.old.capacity }
    {
        self.words.push_reserved(history.word(index));
    }

    /// Returns whether an event of a seat's list equals one of a `History`. Decodes them only if their words differ.
    pub fn is_at(&self, index: usize, history: &History, place: usize) -> bool
        requires inside { index < length self.now.items }
        requires there { place < length history.now.events }
        ensures { IsTrue result ↔ (slice_get self.now.items index ≡ slice_get history.now.events place) }
    {
        if self.words[index] == history.word(place) {
            return true;
        }
        self.event(index) == history.event(place)
    }
}
