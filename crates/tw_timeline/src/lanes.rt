//! Rows of actors, and ticks with the numbers of events.

ghost use Rattle.std.specs.Prelude.{◌<◌, ◌^◌};

use crate::drawing::Mark;
use crate::page::{Page, labelled, number, rectangle, text, word};
use crate::places::{View, bottom, lane_top};
use std::alloc::Global;
use tw_types::{Actor, Layout};
use tw_writer::{Piece, Writer};

/// Returns the name of an actor.
fn actor_name(alloc: Global, actor: Actor) -> Writer {
    let (kind, number) = match actor {
        Actor::Engine(number) => ("engine ", number),
        Actor::Server(number) => ("server ", number),
        Actor::Worker(number) => ("worker ", number),
    };
    text(
        alloc,
        &[Piece::Text(kind), Piece::Number(usize::from(number))],
    )
}

/// Adds the row of an actor, with its name at the left, and again every 960 units.
fn put_lane(out: &mut Page, layout: Layout, width: usize, actor: Actor)
    requires { width < 2 ^ 51 }
{
    let name = actor_name(out.alloc, actor);
    let top = lane_top(layout, actor);
    out.put_titled("rect", &rectangle("lane", 0, top + 1, width, 42), &name);
    out.put_written("text", &labelled("actor", 10, top + 30), &name);
    for place in 0..width / 970 {
        let row = labelled("again", 970 + 960 * place, top + 40);
        out.put_written("text", &row, &name);
    }
}

/// Adds a row for each actor.
pub fn put_lanes(out: &mut Page, layout: Layout, width: usize)
    requires { width < 2 ^ 51 }
{
    for number in 0..layout.engines() {
        put_lane(out, layout, width, Actor::Engine(number));
    }
    for number in 0..layout.servers() {
        put_lane(out, layout, width, Actor::Server(number));
    }
    for number in 0..layout.workers() {
        put_lane(out, layout, width, Actor::Worker(number));
    }
}

/// Adds a line at an event, and the event's number above it, if there is a tick.
fn put_tick(out: &mut Page, layout: Layout, view: View, event: u32) {
    if !view.has_tick(event) {
        return;
    }
    let x = view.across(event as usize);
    let row = [
        word("class", "tick"),
        number("x1", x),
        number("y1", 46),
        number("x2", x),
        number("y2", bottom(layout)),
    ];
    out.put("line", &row);
    let name = text(out.alloc, &[Piece::Number(event as usize)]);
    out.put_written("text", &labelled("number", x + 3, 55), &name);
}

/// Adds the ticks.
pub fn put_ticks(out: &mut Page, layout: Layout, view: View, marks: &[Mark]) {
    for mark in marks {
        put_tick(out, layout, view, mark.number);
    }
}
