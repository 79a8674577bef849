//! The kinds of events, each with its class, its word in the legend and its shape.

use std::alloc::Global;
use tw_types::Event;
use tw_writer::Writer;

/// A kind of events.
#[derive(Clone, Copy)]
pub struct Kind {
    /// The class, which has its colour.
    pub class: &'static str,
    pub word: &'static str,
    /// The left edge of its shape in the legend.
    pub left: usize,
    /// The corners of its shape: sixteenths of the width, and units from the upper edge to 12.
    corners: &'static [(usize, usize)],
}

#[rattlefmt::skip]
const TAKE: Kind = Kind { class: "take", word: "take", left: 240, corners: &[(0, 0), (16, 6), (0, 12)] };

#[rattlefmt::skip]
const LOCAL: Kind = Kind { class: "local", word: "compute", left: 308, corners: &[(0, 0), (16, 0), (16, 12), (0, 12)] };

#[rattlefmt::skip]
const CALL: Kind = Kind { class: "call", word: "data, tasks", left: 396, corners: &[(16, 6), (15, 9), (12, 11), (8, 12), (4, 11), (1, 9), (0, 6), (1, 3), (4, 1), (8, 0), (12, 1), (15, 3)] };

#[rattlefmt::skip]
const END: Kind = Kind { class: "end", word: "end", left: 512, corners: &[(4, 0), (12, 0), (12, 12), (4, 12)] };
// The inner corners are in the other direction, and so leave a hole.
#[rattlefmt::skip]
const ASK: Kind = Kind { class: "ask", word: "ask", left: 574, corners: &[(8, 0), (16, 6), (8, 12), (0, 6), (8, 0), (8, 3), (4, 6), (8, 9), (12, 6), (8, 3)] };

#[rattlefmt::skip]
const DELIVER: Kind = Kind { class: "deliver", word: "tell", left: 636, corners: &[(8, 0), (16, 6), (8, 12), (0, 6)] };

#[rattlefmt::skip]
const RELEASE: Kind = Kind { class: "release", word: "release", left: 706, corners: &[(0, 12), (8, 0), (16, 12)] };

/// All kinds, in the order of the legend.
pub const KINDS: [Kind; 7] = [TAKE, LOCAL, CALL, END, ASK, DELIVER, RELEASE];

impl Kind {
    /// Returns the kind of an event.
    pub fn of(event: &Event) -> Kind {
        match event {
            Event::Take(_) => TAKE,
            Event::Local(_, _) => LOCAL,
            Event::Call(_) => CALL,
            Event::End(_) => END,
            Event::Ask(_, _, _) => ASK,
            Event::Deliver(_, _, _, _) => DELIVER,
            Event::Release(_, _) => RELEASE,
        }
    }

    /// Returns the route around its shape, in a box of this width.
    pub fn route(self, alloc: Global, left: usize, top: usize, width: usize) -> Writer {
        let mut route = Writer::new(alloc);
        route.put("M");
        for (across, down) in self.corners {
            let inside = width.saturating_mul(*across) / 16;
            route.put_numbered(" ", left.saturating_add(inside));
            route.put_numbered(" ", top.saturating_add(*down));
        }
        route
    }
}
