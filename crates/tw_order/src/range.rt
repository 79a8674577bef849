//! Which events a timeline shows.

ghost use Rattle.std.specs.Prelude.{◌≡◌, nat_lt};

/// The events from one number to another, which a timeline shows. They count from 1. Past the last event there are none.
#[derive(Clone, Copy, PartialEq, Eq)]
pub struct EventRange {
    pub from: u32,
    pub to: u32,
}

impl EventRange {
    /// Returns whether the last event is before the first.
    pub fn is_reversed(self) -> bool
        ensures { result ≡ nat_lt self.to self.from }
    {
        self.to < self.from
    }
}
