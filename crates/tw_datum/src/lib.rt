//! One datum: its content, the counts of rights held on it, its subscribers, and the checks of the calls on it.
//!
//! A container's members are in an ordered map. It finds an entry by its rank in logarithmic time, like by its key. The container's
//! user chooses what is stored of a member (`Member`). The reference machine stores the id alone, the host's store also the place of
//! its datum.
#![tactic(auto)]

mod build;
pub mod checks;
mod container;
mod datum;
mod entering;
mod map;
mod member;
mod ranked_map;
mod run;
mod run_or_tree;
mod subscript;
mod tree;

pub use datum::{Content, Datum};
pub use entering::entered;
pub use member::Member;
pub use ranked_map::RankedMap;
