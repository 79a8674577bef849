//! Programs read from bytes, hex or assembly text, and the errors of such sources.
#![tactic(auto)]

mod close;
mod details;
mod digits;
mod examples;
mod failure;
mod faulty_text;
mod first_words;
mod further;
mod inputs;
mod mended;
mod name_hint;
mod name_place;
mod names;
mod others;
mod program;
mod reply;
mod source;
mod text_lines;

pub use close::Close;
pub use details::Details;
pub use digits::is_gap;
pub use examples::{example_lines, example_word, put_examples};
pub use failure::{ErrorCode, Failure, Position, put_code, put_failure_line};
pub use faulty_text::{FaultyText, fault_failure};
pub use inputs::{cut_inputs, input_word_reply, refused_words_reply, unreadable_reply, words_in};
pub use names::{UnexpandedText, plain_reply};
pub use others::{rejection_errors, rejection_failure};
pub use program::{NoProgram, ReadProgram, parse_error_reply, parse_failure, read_program};
pub use reply::{Reply, detailed_reply, failed_reply, fixed_reply, not_utf8_reply, refused_by};
pub use source::{SourceText, line_in, put_place_line, put_text_line, rejection_line, symbols_of};
pub use text_lines::TextLines;
