//! Bars, which show tasks, and lines to them from the events that made them.

ghost use Rattle.std.specs.Prelude.{◌<◌};

use crate::drawing::{Bar, Thread};
use crate::page::{Page, labelled, rectangle, text};
use crate::places::{View, lane_top};
use std::alloc::{AllocError, Global};
use tw_symbols::Symbols;
use tw_types::Layout;
use tw_writer::{Piece, Writer};

/// Returns the tooltip of a bar: its task, its procedure and its events. An open bar has no last event.
fn bar_title(alloc: Global, names: &Symbols, bar: &Bar) -> Writer {
    let mut title = text(
        alloc,
        &[
            Piece::Text("task "),
            Piece::Number(bar.task.number() as usize),
            Piece::Text(" of procedure "),
            Piece::Number(usize::from(bar.procedure)),
        ],
    );
    let done = names.put(&mut title.bytes, usize::from(bar.procedure));
    title.note(done);
    match bar.to {
        None => {
            title.put_numbered(", from event ", bar.from as usize);
            title.put(" on");
        }
        Some(to) => {
            title.put_numbered(", events ", bar.from as usize);
            title.put_numbered(" to ", to as usize);
        }
    }
    title
}

/// Returns the first of three texts that fits into a width at seven units for a letter, or an empty one.
fn first_fitting<'a>(a: &'a [u8], b: &'a [u8], c: &'a [u8], width: usize) -> &'a [u8] {
    let most = width / 7;
    if a.len() <= most {
        a
    } else if b.len() <= most {
        b
    } else if c.len() <= most {
        c
    } else {
        &[]
    }
}

/// Returns the label of a bar: its task and its procedure if both fit, or its procedure, or its procedure's number, or nothing.
fn label_text(
    alloc: Global,
    names: &Symbols,
    bar: &Bar,
    width: usize,
) -> Result<Vec<u8>, AllocError> {
    let mut number = Writer::new(alloc);
    number.put_numbered("p", usize::from(bar.procedure));
    let number = number.finish()?;
    let name = names.procedure(usize::from(bar.procedure));
    let procedure = if name.is_empty() { &number[..] } else { name };
    let mut full = Writer::new(alloc);
    full.put_numbered("t", bar.task.number() as usize);
    full.put(" ");
    full.put_bytes(procedure);
    let full = full.finish()?;
    first_fitting(&full, procedure, &number, width).to_vec(alloc)
}

/// Returns whether a bar is drawn: some of its events are shown, and if there are too many events for a marker each, it is long.
fn has_bar(view: View, bar: &Bar, width: usize) -> bool {
    let end = match bar.to {
        None => view.last,
        Some(to) => to.min(view.last),
    };
    let least = if view.is_coarse() { 24 } else { 0 };
    bar.from <= view.last && view.first <= end && least <= width
}

/// Adds a bar, and its label.
fn put_bar(out: &mut Page, names: &Symbols, layout: Layout, view: View, bar: &Bar) {
    let left = view.left_of(bar.from);
    let width = view.right_of(bar.to).saturating_sub(left);
    if !has_bar(view, bar, width) {
        return;
    }
    let top = lane_top(layout, bar.actor);
    let class = if bar.to.is_some() { "bar" } else { "open" };
    let title = bar_title(out.alloc, names, bar);
    out.put_titled("rect", &rectangle(class, left, top + 16, width, 18), &title);
    match label_text(out.alloc, names, bar, width) {
        Ok(label) => {
            if !label.is_empty() {
                out.put_words("text", &labelled("label", left + 1, top + 12), &label);
            }
        }
        Err(_) => out.fail(),
    }
}

/// Adds a bar for each task that is shown.
pub fn put_bars(out: &mut Page, names: &Symbols, layout: Layout, view: View, bars: &[Bar]) {
    for bar in bars {
        put_bar(out, names, layout, view, bar);
    }
}

/// Returns the route of a curve between two points, horizontal at both ends.
pub fn curve(alloc: Global, from: (usize, usize), to: (usize, usize)) -> Writer {
    let middle = from.0 / 2 + to.0 / 2;
    text(
        alloc,
        &[
            Piece::Text("M "),
            Piece::Number(from.0),
            Piece::Text(" "),
            Piece::Number(from.1),
            Piece::Text(" C "),
            Piece::Number(middle),
            Piece::Text(" "),
            Piece::Number(from.1),
            Piece::Text(" "),
            Piece::Number(middle),
            Piece::Text(" "),
            Piece::Number(to.1),
            Piece::Text(" "),
            Piece::Number(to.0),
            Piece::Text(" "),
            Piece::Number(to.1),
        ],
    )
}

/// Returns the curve from the event that made a task to just above the beginning of its bar.
fn thread_route(alloc: Global, layout: Layout, view: View, thread: &Thread) -> Writer {
    let (from, to) = (thread.from, thread.to);
    let start = if view.is_shown(from.number) {
        view.across(from.number as usize) + view.mark_inset()
    } else {
        view.left_of(from.number)
    };
    let end = if view.is_shown(to.number) {
        view.across(to.number as usize)
    } else {
        view.right_of(Some(to.number))
    };
    curve(
        alloc,
        (start, lane_top(layout, from.actor) + 25),
        (end, lane_top(layout, to.actor) + 15),
    )
}

/// Adds a line from the event that made a task to its bar, if one of both is shown and the line is one of those that are drawn.
fn put_thread(out: &mut Page, layout: Layout, view: View, thread: &Thread) {
    let seen = view.is_shown(thread.from.number) || view.is_shown(thread.to.number);
    if !seen || !view.has_line(thread.task.number()) {
        return;
    }
    let title = text(
        out.alloc,
        &[
            Piece::Text("task "),
            Piece::Number(thread.task.number() as usize),
            Piece::Text(", made at event "),
            Piece::Number(thread.from.number as usize),
            Piece::Text(", taken at event "),
            Piece::Number(thread.to.number as usize),
        ],
    );
    let class = if view.is_wide() { "thread" } else { "thin" };
    let route = thread_route(out.alloc, layout, view, thread);
    out.put_titled_path(class, &route, &title);
}

/// Adds a line to each task that a shown event makes or takes, or to some of these if they are too many.
pub fn put_threads(out: &mut Page, layout: Layout, view: View, threads: &[Thread]) {
    for thread in threads {
        put_thread(out, layout, view, thread);
    }
}
