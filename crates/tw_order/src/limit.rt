//! The limit on the events of a run.

ghost use Rattle.std.specs.Prelude.{◌≡◌, ◌≤◌};
ghost use Rattle.std.specs.Option.{SomeIff};

use std::marker::Model;

/// The maximum number of events of a run: 1 to 1,000,000.
#[derive(Clone, Copy, PartialEq, Eq)]
pub struct EventLimit {
    events: usize,
}

impl Model for EventLimit {
    ghost use Rattle.std.specs.Prelude.{◌≤◌, ℕ};

    ghost Value = { ℕ };

    ghost view = { λ l. l.events };

    ghost invariant = { λ l. l.events ≤ 1000000 };

    ghost inverse = { λ n. record { events = n } };
}

impl EventLimit {
    /// The largest limit. The smallest is 1.
    pub const MAX: usize = 1_000_000;

    /// Returns the limit of this many events, if it is in the range.
    pub fn new(events: usize) -> Option<EventLimit>
        ensures { SomeIff result ((1 ≤ events) × (events ≤ 1000000)) events }
    {
        if 1 <= events && events <= EventLimit::MAX {
            Some(EventLimit { events })
        } else {
            None
        }
    }

    /// Returns the maximum number of events.
    pub fn events(self) -> usize
        ensures value { result ≡ self }
        ensures most { result ≤ 1000000 }
    {
        self.events
    }
}
