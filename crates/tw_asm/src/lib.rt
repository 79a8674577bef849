//! Assembly text: the assembler and the disassembler.
//!
//! * `assemble` reads a text line by line. The first word of a line decides which statement is expected, and the other words are its
//!   operands in this version. At the end skips are linked to labels.
//! * `disassemble` writes one line for each statement.
#![tactic(auto)]

mod assembler;
mod bodies;
mod disassembler;
mod fault;
mod first;
mod flaw;
mod gathering;
mod heads;
mod instructions;
mod line_numbers;
mod link;
mod listing;
mod operands;
mod read;
mod reading;
mod rejection;
mod skip;
mod statement;
mod stops;
mod theorems;
mod write;

pub use assembler::{LinedProgram, assemble, assemble_lined};
pub use disassembler::disassemble;
pub use fault::{AsmFault, FaultNo};
pub use first::is_plainly_blank;
pub use flaw::Due;
pub use line_numbers::LineNumbers;
pub use listing::{LabelPlaces, put_head_lines, put_right};
pub use theorems::{one_first_fault, one_line_each, spells_once};
pub use write::{put_param, put_type};
