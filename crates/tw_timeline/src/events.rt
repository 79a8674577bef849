//! Markers, which show events, and columns, which replace markers if there are too many.

ghost use Rattle.std.specs.Prelude.{◌<◌};

use crate::drawing::Mark;
use crate::kinds::Kind;
use crate::page::{Page, rectangle, text};
use crate::places::{View, lane_top};
use tw_machine::actor_of;
use tw_report::put_event_line;
use tw_types::Layout;
use tw_writer::Piece;

/// Adds the marker of an event, if it is shown.
fn put_mark(out: &mut Page, layout: Layout, view: View, mark: &Mark) {
    if !view.is_shown(mark.number) {
        return;
    }
    let mut title = text(
        out.alloc,
        &[
            Piece::Text("event "),
            Piece::Number(mark.number as usize),
            Piece::Text(": "),
        ],
    );
    let done = put_event_line(&mut title.bytes, &mark.event);
    title.note(done);
    let left = view.across(mark.number as usize) + view.mark_inset();
    let top = lane_top(layout, actor_of(&mark.event)) + 19;
    let kind = Kind::of(&mark.event);
    let route = kind.route(out.alloc, left, top, view.mark_width());
    out.put_titled_path(kind.class, &route, &title);
}

/// Adds a marker for each event that is shown.
pub fn put_marks(out: &mut Page, layout: Layout, view: View, marks: &[Mark]) {
    for mark in marks {
        put_mark(out, layout, view, mark);
    }
}

/// Returns how many markers are in a row.
fn count_in(layout: Layout, lane: usize, marks: &[Mark]) -> u32 {
    let mut count = 0u32;
    for mark in marks {
        if layout.index_of(actor_of(&mark.event)) == lane {
            count = count.saturating_add(1);
        }
    }
    count
}

/// Adds a column of a row, if the actor has any of its events. It is full if half of the events or more are the actor's.
fn put_column(
    out: &mut Page,
    layout: Layout,
    view: View,
    marks: &[Mark],
    lane: usize,
    column: usize,
)
    requires lane { lane < 1000 }
    requires column { column < 6554 }
{
    let from = view.column_start(column);
    let to = view.column_start(column + 1);
    let first = from.saturating_sub(1).min(marks.len());
    let there = &marks[first..to.saturating_sub(1).clamp(first, marks.len())];
    let count = count_in(layout, lane, there);
    if count == 0 {
        return;
    }
    let height = (36 * u64::from(count) / (there.len() as u64).max(1)).clamp(1, 18) as usize;
    let title = text(
        out.alloc,
        &[
            Piece::Text("events "),
            Piece::Number(from),
            Piece::Text(" to "),
            Piece::Number(to.saturating_sub(1)),
            Piece::Text(": "),
            Piece::Number(count as usize),
        ],
    );
    let top = (60 + 44 * lane + 34).saturating_sub(height);
    let row = rectangle("column", 90 + 10 * column, top, 10, height);
    out.put_titled("rect", &row, &title);
}

/// Adds the columns of all rows.
pub fn put_columns(out: &mut Page, layout: Layout, view: View, marks: &[Mark]) {
    for lane in 0..layout.actor_count() {
        for column in 0..view.column_count() {
            put_column(out, layout, view, marks, lane, column);
        }
    }
}
