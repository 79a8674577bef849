//! The shown range of a trace, and the coordinates of its parts, in units from the timeline's upper left corner.

ghost use Rattle.std.specs.Prelude.{◌<◌, ◌≤◌, ◌^◌};

use tw_types::{Actor, Layout};

/// The range of events to be shown, and the width.
#[derive(Clone, Copy)]
pub struct Settings {
    /// The number of the first event, from 1.
    pub from: u32,
    /// The number of the last event; if there are fewer events, all from the first one on are shown.
    pub to: u32,
    /// The greatest width, in units; less than 1,000 counts as 1,000.
    pub width: u16,
}

impl Settings {
    /// Returns the settings for the events from one number to another, at a width of 4,000 units at most.
    pub fn between(from: u32, to: u32) -> Settings {
        Settings {
            from,
            to,
            width: 4000,
        }
    }
}

/// The range that is shown: its first and last event, and the most units that all of its events may take.
#[derive(Clone, Copy)]
pub struct View {
    pub first: u32,
    pub last: u32,
    most: u16,
}

/// Returns the width of the first `part` of `all` events, if all take this many units.
fn scaled(part: usize, units: usize, all: usize) -> usize
    requires part { part ≤ 4294967296 }
    requires units { units ≤ 65536 }
    ensures small { result < 2 ^ 49 }
{
    part * units / all.max(1)
}

impl View {
    /// Returns the part of a timeline of this many events that the settings show.
    pub fn of(settings: Settings, events: u32) -> View {
        View {
            first: settings.from.max(1),
            last: settings.to.min(events),
            most: settings.width.max(1000) - 160,
        }
    }

    /// Returns how many events are shown.
    fn shown(self) -> usize
        ensures { result ≤ 4294967296 }
    {
        (self.last as usize + 1).saturating_sub(self.first as usize)
    }

    /// Returns whether the event of this number is shown.
    pub fn is_shown(self, number: u32) -> bool {
        self.first <= number && number <= self.last
    }

    /// Returns whether there are too many events for a marker each.
    pub fn is_coarse(self) -> bool {
        usize::from(self.most) < 2 * self.shown()
    }

    /// Returns the width of all shown events: 48 units each while these are few, then 16, and less if they don't fit.
    fn span(self) -> usize
        ensures { result < 65536 }
    {
        let shown = self.shown();
        let wide = (48 * shown).min(1440).max(16 * shown);
        usize::from(self.most).min(wide)
    }

    /// Returns the left edge of the event of this number, and that of the first shown one for earlier events.
    pub fn across(self, number: usize) -> usize
        requires { number ≤ 4294967296 }
        ensures { result < 2 ^ 50 }
    {
        let before = number.saturating_sub(self.first as usize);
        90 + scaled(before, self.span(), self.shown())
    }

    /// Returns the left edge of what begins with an event: ten units to the left of all events, if that one comes before them.
    pub fn left_of(self, number: u32) -> usize
        ensures { result < 2 ^ 50 }
    {
        if number < self.first {
            80
        } else {
            self.across(number as usize)
        }
    }

    /// Returns the right edge of what ends with an event: ten units to the right of all events if that one comes after them, and their right edge if
    /// nothing has ended it.
    pub fn right_of(self, number: Option<u32>) -> usize
        ensures { result < 2 ^ 51 }
    {
        let edge = self.across(self.last as usize + 1);
        match number {
            None => edge,
            Some(number) if self.last < number => edge + 10,
            Some(number) => self.across(number as usize + 1),
        }
    }

    /// Returns the width of one event.
    fn room(self) -> usize
        ensures { result < 65536 }
    {
        self.span() / self.shown().max(1)
    }

    /// Returns the width of a marker.
    pub fn mark_width(self) -> usize {
        (self.room() / 2 + 1).min(16)
    }

    /// Returns the distance of a marker from the left edge of its event.
    pub fn mark_inset(self) -> usize
        ensures { result < 65536 }
    {
        self.room().saturating_sub(self.mark_width()) / 2
    }

    /// Returns whether there is a tick at an event: at round numbers, so that ticks are 40 units apart.
    pub fn has_tick(self, number: u32) -> bool {
        self.is_shown(number) && number % least_step(self.shown(), self.span()).max(1) == 0
    }

    /// Returns whether a line to the task of this number is drawn; if there are too many, some are.
    pub fn has_line(self, task: u64) -> bool {
        let step = 2 * self.shown() / usize::from(self.most).max(1);
        task % (step.max(1) as u64) == 0
    }

    /// Returns whether lines are thick enough to be seen one by one.
    pub fn is_wide(self) -> bool {
        16 <= self.room()
    }

    /// Returns how many columns there are for all events.
    pub fn column_count(self) -> usize
        ensures { result < 6554 }
    {
        usize::from(self.most) / 10
    }

    /// Returns the number of a column's first event.
    pub fn column_start(self, column: usize) -> usize
        requires { column < 65536 }
    {
        self.first as usize + scaled(self.shown(), column, self.column_count())
    }
}

#[rattlefmt::skip]
const TICK_STEPS: [u32; 19] = [
    1, 2, 5, 10, 20, 50, 100, 200, 500, 1_000, 2_000, 5_000, 10_000, 20_000, 50_000, 100_000, 200_000, 500_000, 1_000_000,
];

/// Returns the least of the steps that leaves 40 units between two ticks.
fn least_step(shown: usize, span: usize) -> u32
    requires shown { shown ≤ 4294967296 }
    requires span { span < 65536 }
{
    for step in &TICK_STEPS {
        if 40 * shown <= (*step as usize) * span {
            return *step;
        }
    }
    5_000_000
}

/// Returns the upper edge of an actor's row.
pub fn lane_top(layout: Layout, actor: Actor) -> usize
    ensures { result < 100000 }
{
    60 + 44 * layout.index_of(actor)
}

/// Returns the lower edge of the last row.
pub fn bottom(layout: Layout) -> usize
    ensures { result < 100000 }
{
    60 + 44 * layout.actor_count()
}
