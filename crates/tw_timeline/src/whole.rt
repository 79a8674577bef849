//! The whole timeline.

ghost use Rattle.std.specs.Prelude.{◌<◌, ◌^◌, IfOk};
ghost use Rattle.tw_timeline.specs.Xml.{IsPrinted, IsXml};

use crate::bars::{put_bars, put_threads};
use crate::drawing::Drawing;
use crate::events::{put_columns, put_marks};
use crate::heading::put_heading;
use crate::lanes::{put_lanes, put_ticks};
use crate::links::put_waits;
use crate::page::{Attribute, Page, Value, number, text, word};
use crate::places::{Settings, View, bottom};
use std::alloc::{AllocError, Global};
use tw_writer::Piece;

/// Returns the width: that of the events or of the circle, and at least that of the heading.
fn width_of(drawing: &Drawing, view: View) -> usize
    ensures { result < 2 ^ 51 }
{
    let events = view.across(view.last as usize + 1) + 70;
    840usize
        .max(events)
        .max(220 * (drawing.rules as usize) + 90)
}

/// Adds all elements, in the order in which they are drawn over one another.
fn put_drawn(out: &mut Page, drawing: &Drawing, view: View, width: usize)
    requires { width < 2 ^ 51 }
{
    let layout = drawing.layout;
    put_heading(out, view, drawing);
    put_lanes(out, layout, width);
    put_ticks(out, layout, view, &drawing.marks);
    put_threads(out, layout, view, &drawing.threads);
    put_bars(out, &drawing.names, layout, view, &drawing.bars);
    if view.is_coarse() {
        put_columns(out, layout, view, &drawing.marks);
    } else {
        put_marks(out, layout, view, &drawing.marks);
    }
    put_waits(out, layout, &drawing.waits);
}

/// Returns the timeline of a drawing, as one SVG text. The settings give its range of events and its width.
pub fn timeline(alloc: Global, drawing: &Drawing, settings: Settings) -> Result<Vec<u8>, AllocError>
    ensures xml { IfOk result (λ text. IsXml text.items) }
    ensures printed { IfOk result (λ text. IsPrinted text.items) }
{
    let view = View::of(settings, drawing.events);
    let width = width_of(drawing, view);
    let height = bottom(drawing.layout) + if drawing.rules == 0 { 16 } else { 106 };
    let mut inside = Page::new(alloc);
    put_drawn(&mut inside, drawing, view, width);
    let frame = text(
        alloc,
        &[
            Piece::Text("0 0 "),
            Piece::Number(width),
            Piece::Text(" "),
            Piece::Number(height),
        ],
    )
    .finish()?;
    let size = [
        word("xmlns", "http://www.w3.org/2000/svg"),
        word("role", "img"),
        number("width", width),
        number("height", height),
        Attribute {
            key: "viewBox",
            value: Value::Text(&frame),
        },
    ];
    let mut page = Page::new(alloc);
    page.put_page("svg", &size, inside);
    page.finish()
}
