//! Bounds of whole runs: the greatest numbers of tasks, instructions, data, rules and events that a run of a program has. Also how
//! many members its data hold, and how many bytes of texts there are.
#![tactic(auto)]

mod bound;
mod circles;
mod least;
mod limited;
mod row;
mod solving;
mod texts;
mod theorems;
mod walk;
mod weighing;
mod weights;
mod whole_runs;

pub use bound::{Bound, RunBounds};
pub use circles::{Circle, circle_of_calls};
pub use least::least_bounds;
pub use limited::{LimitedBounds, largest_budget, limited_bounds};
pub use theorems::{budgets_are_costs, within_bound};
pub use weights::Weights;
pub use whole_runs::run_bounds;
