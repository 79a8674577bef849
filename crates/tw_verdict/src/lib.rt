//! Verdicts in numbers: on a program's bytes, on hex text and on assembly text. An accepted program comes with its verdict.
#![tactic(auto)]

mod format;
mod source;
mod text;
mod verdict;

pub use format::{Format, format_of};
pub use source::read_source;
pub use text::{SourceVerdict, without_line};
pub use verdict::{Verdict, refused_at};
