//! Symbolic assembly, which is expanded to assembly text line by line.
//!
//! `expanded_text` reads a text twice: once for its procedures, which may be used before their head, and once line by line, with the names that the
//! lines so far have defined.
#![tactic(auto)]

mod assigned;
mod called;
mod expansion;
mod hash;
mod heads;
mod hidden;
mod instruction;
mod line;
mod line_expansion;
mod line_kind;
mod listed;
mod literals;
mod meaning;
mod names;
mod numbers;
mod operand_text;
mod pieces;
mod procedures;
mod registers;
mod rejection;
mod renamed;
mod renamed_line;
mod renamed_words;
mod right_names;
mod sections;
mod symbols;
mod theorems;
mod unread;

pub use called::called_head;
pub use expansion::expanded_text;
pub use hidden::{is_written, written_line};
pub use meaning::{Bank, Binding, Expected, Origin};
pub use registers::{put_named, put_with_name};
pub use rejection::{NameError, NameNo};
pub use renamed::other_line;
pub use right_names::RightNames;
pub use symbols::Symbols;
pub use theorems::{as_many_lines, names_differ, names_stay};
