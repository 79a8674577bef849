//! Orders: what a command line requests, with limits, caps and formats.
#![tactic(auto)]

mod caps;
mod check;
mod form;
mod limit;
mod order;
mod range;
mod runs;

pub use caps::Caps;
pub use check::{BoundsOf, CheckLines, CheckOrder, EventOrder};
pub use form::{AssembleOrder, Assembling, DisassembleOrder, Form, Places};
pub use limit::EventLimit;
pub use order::{Order, Source};
pub use range::EventRange;
pub use runs::{Answer, EachOrder, ReplayOrder, RunAnswer, RunInputs, RunOptions, RunOrder};
