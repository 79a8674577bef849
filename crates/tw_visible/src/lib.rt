//! Texts as a terminal may be sent them: no character of one controls the terminal, or changes the direction of what follows.
#![tactic(auto)]

mod characters;
mod theorems;

pub use characters::{Kind, columns, put_visible, visible, visible_bytes};
pub use theorems::nothing_is_hidden;
