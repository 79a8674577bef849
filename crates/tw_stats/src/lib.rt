//! Statistics of a run: its events by kind, procedure and actor, and its longest chain of events that wait for one another.
#![tactic(auto)]

mod chains;
mod counts;
mod dependencies;
mod dependency;
mod depths;
mod executor;
mod next;
mod pre_state;
mod share;
mod stats;
mod stats_builder;
mod table;
mod text;

pub use chains::Chains;
pub use counts::Counts;
pub use dependencies::Dependencies;
pub use dependency::Dependency;
pub use depths::Depths;
pub use executor::Executor;
pub use next::Next;
pub use pre_state::PreState;
pub use share::Share;
pub use stats::Stats;
pub use stats_builder::StatsBuilder;
pub use table::Table;
