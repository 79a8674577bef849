//! The command line of `tw`: which order the arguments give, and what codes mean.
//!
//! `read_order` takes all arguments. This crate reads and writes nothing.
#![tactic(auto)]

mod arguments;
mod command;
mod command_rows;
mod complaint;
mod explained_names;
mod explained_programs;
mod explanations;
mod help;
mod numbers;
mod option_forms;
mod options;
mod orders;
mod page;

pub use command::NoOrder;
pub use command_rows::ArgumentForm;
pub use complaint::Complaint;
pub use explanations::Explained;
pub use option_forms::{is_option, reads_program};
pub use orders::read_order;
