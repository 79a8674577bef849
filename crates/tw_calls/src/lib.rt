//! The sessions of the library for programs in other languages, with their contracts. `tw_embed` exports them, and `tw_cases` runs cases of them.
//!
//! * `session_text`: the output and the status of the command `tw` with these arguments and this input; a run is single-threaded.
//! * `session`: likewise, by arguments in lines, and with the output in the caller's buffer.
#![tactic(auto)]

mod arguments;
mod sessions;
mod texts;

pub use sessions::session;
pub use texts::session_text;
