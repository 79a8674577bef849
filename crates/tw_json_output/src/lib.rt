//! The JSON lines of `tw`: of a finished run, a printed text and an explanation. `RunNumbers` and `RunEnd` are the arguments of the
//! first.
#![tactic(auto)]

mod object_writer;
mod output_kinds;
mod outputs;
mod run_object;
mod text_object;
mod theorems;
mod values;

pub use object_writer::{ArrayWriter, ObjectWriter};
pub use run_object::{RunEnd, RunNumbers, end_members, line_of, run_line};
pub use text_object::{Printed, explanation_line, printed_line};
pub use theorems::one_line;
