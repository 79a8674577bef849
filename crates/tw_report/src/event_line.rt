//! Writes the lines of events.

ghost use Rattle.std.specs.Prelude.{◌≡◌, ◌++◌, OnOk, codes};
ghost use Rattle.tw_report.specs.Events.{actor_part, event_line, part_text};

use crate::lines::{put, put_numbered};
use std::alloc::AllocError;
use tw_types::{Actor, Event};

/// Appends a name, and the actor after it.
fn put_actor(out: &mut Vec<u8>, name: &str, actor: Actor) -> Result<(), AllocError>
    ensures { OnOk result (out.new.items ≡ out.old.items ++ (name.now ++ (codes " " ++ part_text (actor_part actor)))) }
{
    put(out, name)?;
    match actor {
        Actor::Engine(number) => put_numbered(out, " e", usize::from(number)),
        Actor::Server(number) => put_numbered(out, " s", usize::from(number)),
        Actor::Worker(number) => put_numbered(out, " w", usize::from(number)),
    }
}

/// Appends the line of an event, with its line feed.
pub fn put_event_line(out: &mut Vec<u8>, event: &Event) -> Result<(), AllocError>
    ensures { OnOk result (out.new.items ≡ out.old.items ++ event_line event.now) }
{
    match *event {
        Event::Take(actor) => put_actor(out, "take", actor)?,
        Event::Call(actor) => put_actor(out, "call", actor)?,
        Event::End(actor) => put_actor(out, "end", actor)?,
        Event::Local(actor, steps) => {
            put_actor(out, "local", actor)?;
            put_numbered(out, " ", steps as usize)?;
        }
        Event::Ask(engine, rule, parameter) => {
            put_actor(out, "ask", Actor::Engine(engine))?;
            put_numbered(out, " ", rule.number() as usize)?;
            put_numbered(out, " ", usize::from(parameter))?;
        }
        Event::Deliver(server, datum, rule, parameter) => {
            put_actor(out, "deliver", Actor::Server(server))?;
            put_numbered(out, " ", datum.number() as usize)?;
            put_numbered(out, " ", rule.number() as usize)?;
            put_numbered(out, " ", usize::from(parameter))?;
        }
        Event::Release(engine, rule) => {
            put_actor(out, "release", Actor::Engine(engine))?;
            put_numbered(out, " ", rule.number() as usize)?;
        }
    }
    put(out, "\n")
}
