//! The files of a command line. `naming_of` finds the arguments that name files, once, and `session_input` reads these.
#![tactic(auto)]

mod arguments;
mod format;
mod named_files;
mod naming;
mod opening;
mod sections;

pub use naming::{Naming, may_name, naming_of};
pub use opening::{Contents, InputFiles, Misfit, NoInput, SessionInput, session_input};
pub use sections::followed;
