//! The lexical syntax that all texts of the task host share: words of a line, decimal numbers, and quoted texts.
//!
//! Input arguments, reports and assembly text write numbers and texts alike, and what is written here is read back. In a line,
//! words are separated by spaces, tabs and carriage returns. A `;` outside a quoted text begins a comment.
#![tactic(auto)]

mod append;
mod escape;
mod first;
mod hash;
mod lines;
mod names;
mod numbers;
mod quoted;
mod shown;
mod theorems;
mod word;

pub use append::{put, put_both, put_decimal, put_numbered, put_signed};
pub use first::after;
pub use hash::TextHash;
pub use lines::line_numbered;
pub use names::{before, before_colon, is_name};
pub use numbers::{TokenError, digits, number};
pub use quoted::{put_quoted, quoted_text};
pub use shown::{begins_character, put_shortened, put_shortened_quoted};
pub use theorems::{numbers_are_read_back, quoted_texts_are_read_back};
pub use word::{Line, Next, Word, next_word, without_gap, words_of};
