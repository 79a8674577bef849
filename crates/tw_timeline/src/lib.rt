//! Timelines: one SVG text for a trace. It has a row for each actor, a bar for each task and a marker for each event.
#![tactic(auto)]

mod bars;
mod drawing;
mod events;
mod heading;
mod kinds;
mod lanes;
mod links;
mod page;
mod places;
mod timeline_builder;
mod whole;

pub use drawing::{Bar, Drawing, Mark, Place, Thread, Wait};
pub use places::Settings;
pub use timeline_builder::TimelineBuilder;
pub use whole::timeline;
