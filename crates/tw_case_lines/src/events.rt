//! The events of a line.

use crate::complaint::Complaint;
use std::alloc::Global;
use tw_report::event_of;
use tw_types::{Actor, Event};

/// Reads the events of a text such as `take e0, local e0 1, call e0`.
pub fn read_events(alloc: Global, text: &str) -> Result<Vec<Event>, Complaint> {
    let mut events = Vec::new(alloc);
    if text.is_empty() {
        return Ok(events);
    }
    for event in text.split(',') {
        events.push(read_event(event.trim())?)?;
    }
    Ok(events)
}

/// Reads an event of a case as a trace has it, or a local one with any number of steps.
fn read_event(text: &str) -> Result<Event, Complaint> {
    match text.strip_prefix("local ") {
        Some(rest) => {
            let (actor, steps) = rest.split_once(' ').unwrap_or((rest, ""));
            Ok(Event::Local(read_actor(actor)?, steps.parse::<u64>()?))
        }
        None => event_of(text.as_bytes()).ok_or(Complaint::UnknownEvent),
    }
}

/// Reads an actor such as `e0`, `s3` or `w15`.
pub fn read_actor(text: &str) -> Result<Actor, Complaint> {
    if let Some(number) = text.strip_prefix('e') {
        return Ok(Actor::Engine(number.parse::<u8>()?));
    }
    if let Some(number) = text.strip_prefix('s') {
        return Ok(Actor::Server(number.parse::<u8>()?));
    }
    match text.strip_prefix('w') {
        Some(number) => Ok(Actor::Worker(number.parse::<u8>()?)),
        None => Err(Complaint::Actor),
    }
}
