//! Reads a program's inputs: words, one an input, or a JSON array with an item for each.
#![tactic(auto)]

mod json_faults;
mod json_inputs;
mod json_item;
mod json_lines;
mod json_list;
mod json_members;
mod lists;
mod parts;
mod theorems;
mod word;
mod word_diagnostics;
mod words;

pub use json::Scratch;
pub use json_faults::{fault_text, line_fault_text};
pub use json_inputs::{NoInputs, Place, read_inputs};
pub use json_lines::{InputLine, read_line};
pub use theorems::words_spell_one_input;
pub use word::input_of;
pub use words::{WordError, inputs_of};
