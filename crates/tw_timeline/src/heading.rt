//! The heading above the rows, and the style of the timeline.

use crate::drawing::Drawing;
use crate::kinds::KINDS;
use crate::page::{Page, labelled, number, text, word};
use crate::places::View;
use std::alloc::Global;
use tw_writer::{Piece, Writer};

/// The style sheet.
const LOOKS: &str =
    "svg{background:white;font:12px monospace}.lane{fill:#f3f5f8;stroke:#d5dae0}.actor{fill:#222;font-weight:bold}.again{fill:#8a94a0;font-size:8px}.tick{stroke:#d5dae0}.number{fill:#667;font-size:10px}.thread{fill:none;stroke:#7a9;stroke-width:1.5}.thin{fill:none;stroke:#7a9;stroke-width:.6;opacity:.6}.bar{fill:#cfe0f5;stroke:#4a78b0}.open{fill:#e4edf8;stroke:#4a78b0;stroke-dasharray:4 3}.label{fill:#124;font-size:11px}.column{fill:#2f5d94;opacity:.75}.take{fill:#2f5f9e}.local{fill:#5d6873}.call{fill:#a14f00}.end{fill:#1b2f52}.ask{fill:#8e44ad}.deliver{fill:#0b6f5b}.release{fill:#b3261e}.closing{fill:#222;font-size:14px;font-weight:bold}.rule{fill:#fbe3e0;stroke:#c0392b}.wait{fill:none;stroke:#c0392b;stroke-width:1.5;marker-end:url(#tip)}";

/// Adds the definition of an arrow's tip.
fn put_tip(out: &mut Page) {
    let mut marker = Page::new(out.alloc);
    let head = [word("class", "release"), word("d", "M 0 0 L 8 4 L 0 8 z")];
    marker.put("path", &head);
    let tip = [
        word("id", "tip"),
        number("refX", 8),
        number("refY", 4),
        number("markerWidth", 8),
        number("markerHeight", 8),
        word("orient", "auto"),
    ];
    let mut definitions = Page::new(out.alloc);
    definitions.put_page("marker", &tip, marker);
    out.put_page("defs", &[], definitions);
}

/// Adds the kinds of events.
fn put_kinds(out: &mut Page) {
    for kind in &KINDS {
        out.put_path(kind.class, &kind.route(out.alloc, kind.left, 12, 12));
        let place = labelled("label", kind.left.saturating_add(18), 22);
        out.put_words("text", &place, kind.word.as_bytes());
    }
}

/// Adds the meaning of the shapes, or of a column.
fn put_key(out: &mut Page, view: View) {
    if view.is_coarse() {
        let words =
            b"how many of the events in a column are the actor's: full height for half of them or more";
        out.put_words("text", &labelled("label", 240, 22), words);
    } else {
        put_kinds(out);
    }
}

/// Returns a text with which events are shown, and how many there are.
fn shown_events(alloc: Global, front: &str, view: View, events: u32) -> Writer {
    let mut shown = text(alloc, &[Piece::Text(front)]);
    if view.last < view.first {
        shown.put_numbered("none of ", events as usize);
        shown.put(" events");
    } else {
        shown.put_numbered("events ", view.first as usize);
        shown.put_numbered(" to ", view.last as usize);
        shown.put_numbered(" of ", events as usize);
    }
    shown
}

/// Adds the title: which events are shown, and how the run ended.
fn put_title(out: &mut Page, view: View, drawing: &Drawing) {
    let mut title = shown_events(out.alloc, "timeline of ", view, drawing.events);
    title.put(", ");
    title.put_bytes(&drawing.closing);
    out.put_written("title", &[], &title);
}

/// Adds the line that says which events are shown, and that a timeline has no durations.
fn put_shown(out: &mut Page, view: View, events: u32) {
    let mut line = shown_events(out.alloc, "", view, events);
    line.put(": order of events, not duration");
    out.put_written("text", &labelled("number", 10, 42), &line);
}

/// Adds the title, the style, the lines above the rows, and the meaning of the shapes.
pub fn put_heading(out: &mut Page, view: View, drawing: &Drawing) {
    put_title(out, view, drawing);
    out.put_words("style", &[], LOOKS.as_bytes());
    put_tip(out);
    out.put_words("text", &labelled("closing", 10, 24), &drawing.closing);
    put_shown(out, view, drawing.events);
    put_key(out, view);
}
