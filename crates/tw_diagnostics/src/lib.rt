//! Diagnostics of a rejected assembly text or program: lines that are printed after the error.
//!
//! * Of a text: `text_reason` says at which word and column a line stops being a statement, as the assembler's fault has it;
//!   `put_text_diagnostic` adds the line and this.
//! * Of a program: `rejection_text` says which register is wrong, what it holds and what is required of it, as the verifier's error has it.
#![tactic(auto)]

mod breaks;
mod diagnostic;
mod due;
mod error_position;
mod hints;
mod labels;
mod loops;
mod main_diagnostic;
mod meeting;
mod place;
mod program_diagnostic;
mod requirement;
mod role;
mod since;
mod text_diagnostic;
mod usual_words;

pub use diagnostic::Reason;
pub use error_position::word_of;
pub use hints::is_near;
pub use main_diagnostic::shape_text;
pub use program_diagnostic::rejection_text;
pub use role::{LineRole, head_line, line_role};
pub use text_diagnostic::{error_word, put_shown_line, put_text_diagnostic, text_reason};
pub use usual_words::put_usual;
