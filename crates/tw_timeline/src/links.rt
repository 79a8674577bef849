//! Boxes and arrows, which show a circle of rules that wait for one another.

ghost use Rattle.std.specs.Prelude.{◌<◌, ◌^◌};

use crate::bars::curve;
use crate::drawing::Wait;
use crate::page::{Page, labelled, rectangle, text};
use crate::places::bottom;
use std::alloc::Global;
use tw_types::Layout;
use tw_writer::{Piece, Writer};

/// Returns the left edge of the box at a place in the circle.
fn box_left(place: u32) -> usize
    ensures { result < 2 ^ 41 }
{
    90 + 220 * (place as usize)
}

/// Returns the route of an arrow from one box to the next: over those between, or under them if it leads back.
fn arrow(alloc: Global, left: usize, next: usize, top: usize) -> Writer
    requires left { left < 2 ^ 41 }
    requires next { next < 2 ^ 41 }
    requires top { top < 200000 }
{
    if left < next {
        return curve(alloc, (left + 110, top + 15), (next, top + 15));
    }
    text(
        alloc,
        &[
            Piece::Text("M "),
            Piece::Number(left + 80),
            Piece::Text(" "),
            Piece::Number(top + 30),
            Piece::Text(" V "),
            Piece::Number(top + 56),
            Piece::Text(" H "),
            Piece::Number(next + 30),
            Piece::Text(" V "),
            Piece::Number(top + 30),
        ],
    )
}

/// Adds a rule of the circle as a box, and the arrow to the rule for which it waits, with the datum beside it.
fn put_wait(out: &mut Page, layout: Layout, wait: &Wait) {
    let (left, next) = (box_left(wait.from), box_left(wait.to));
    let top = bottom(layout) + 30;
    let rule = text(
        out.alloc,
        &[
            Piece::Text("rule "),
            Piece::Number(wait.link.rule.number() as usize),
        ],
    );
    out.put("rect", &rectangle("rule", left, top, 110, 30));
    out.put_written("text", &labelled("rule-name", left + 12, top + 20), &rule);
    let route = arrow(out.alloc, left, next, top);
    out.put_path("wait", &route);
    let height = if left < next { top + 10 } else { top + 50 };
    let datum = text(
        out.alloc,
        &[
            Piece::Text("datum "),
            Piece::Number(wait.link.datum.number() as usize),
        ],
    );
    out.put_written("text", &labelled("number", left + 120, height), &datum);
}

/// Adds a box and an arrow for each rule.
pub fn put_waits(out: &mut Page, layout: Layout, waits: &[Wait]) {
    for wait in waits {
        put_wait(out, layout, wait);
    }
}
