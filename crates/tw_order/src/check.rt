//! The order to check a program.

use crate::caps::Caps;
use crate::form::{Form, Places};
use crate::limit::EventLimit;

/// The procedures whose bounds are printed.
#[derive(Clone, Copy, PartialEq, Eq)]
pub enum BoundsOf {
    NoBounds,
    /// Main's, which are those of whole runs.
    OfMain,
    OfEach,
}

/// Whether a check says if the order of events may show in outputs.
#[derive(Clone, Copy, PartialEq, Eq)]
pub enum EventOrder {
    Ignored,
    Checked,
}

/// The lines of a check after the budgets and the needs.
#[derive(Clone, Copy, PartialEq, Eq)]
pub struct CheckLines {
    /// Whose bounds are printed.
    pub bounds: BoundsOf,
    /// Whether a line says if the order of events may show.
    pub event_order: EventOrder,
}

impl CheckLines {
    /// Nothing.
    pub const NONE: CheckLines = CheckLines {
        bounds: BoundsOf::NoBounds,
        event_order: EventOrder::Ignored,
    };
}

/// The output of a check in addition to the budgets.
#[derive(Clone, Copy)]
pub struct CheckOrder {
    /// Whether the instructions are listed before the budgets.
    pub places: Places,
    /// The most events of a run, if its bounds by this limit are printed too.
    pub limit: Option<EventLimit>,
    pub lines: CheckLines,
    /// The caps above which the program is rejected.
    pub caps: Caps,
    pub form: Form,
}
