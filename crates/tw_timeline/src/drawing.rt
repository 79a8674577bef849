//! The content of a timeline.

use tw_symbols::Symbols;
use tw_types::{Actor, Event, Layout, Link, TaskNo};

/// An event of a trace, with its number from 1.
#[derive(Clone, Copy)]
pub struct Mark {
    pub number: u32,
    pub event: Event,
}

/// The place of an event: its actor and its number.
#[derive(Clone, Copy)]
pub struct Place {
    pub actor: Actor,
    pub number: u32,
}

/// A task that an actor ran, from its Take to its End, or without an end.
#[derive(Clone, Copy)]
pub struct Bar {
    pub task: TaskNo,
    pub procedure: u8,
    pub actor: Actor,
    pub from: u32,
    pub to: Option<u32>,
}

/// The origin of a task: the event that made it, and the event that took it.
#[derive(Clone, Copy)]
pub struct Thread {
    pub task: TaskNo,
    pub from: Place,
    pub to: Place,
}

/// A rule of a circle that waits: its own place in the circle, from 0, and that of the rule for which it waits.
#[derive(Clone, Copy)]
pub struct Wait {
    pub from: u32,
    pub to: u32,
    pub link: Link,
}

/// The content of a timeline: what is drawn of a trace.
#[derive(Drop)]
pub struct Drawing {
    /// The actors, a row each.
    pub layout: Layout,
    /// The names of the procedures, if they are known.
    pub names: Symbols,
    /// The number of events.
    pub events: u32,
    pub marks: Vec<Mark>,
    pub bars: Vec<Bar>,
    pub threads: Vec<Thread>,
    /// The words on how the run ended, or that it is still running.
    pub closing: Vec<u8>,
    /// The number of the circle's rules that are drawn.
    pub rules: u32,
    pub waits: Vec<Wait>,
}
