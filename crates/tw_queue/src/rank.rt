//! Ranks, which order the tasks.

use std::cmp::Ordering;

/// The rank of a task. The greatest is taken first: the one of the greatest priority, then the one of the lowest number. `slot` is the
/// slot of the task; it never decides, since numbers differ.
#[derive(Clone, Copy, PartialEq, Eq)]
pub struct Rank {
    pub priority: i64,
    pub number: u64,
    pub slot: usize,
}

impl Ord for Rank {
    ghost use Rattle.std.proofs.Common.{rules};
    ghost use Rattle.std.specs.Cmp.Rules.{comparing};
    ghost use Rattle.tw_queue.specs.Ranks.{rank_cmp};

    ghost cmp = { rank_cmp };

    ghost total = { Prim.search (comparing, rules) };

    ghost matches_partial_cmp = { Prim.search (comparing, rules) };

    ghost matches_eq = { Prim.search (comparing, rules) };

    /// Compares ranks of queued tasks: the greatest has the greatest priority, then the lowest number.
    fn cmp(&self, other: &Rank) -> Ordering {
        let by_slot = other.slot.cmp(&self.slot);
        let by_number = other.number.cmp(&self.number).then(by_slot);
        self.priority.cmp(&other.priority).then(by_number)
    }
}

impl PartialOrd for Rank {
    ghost use Rattle.std.proofs.Common.{rules};
    ghost use Rattle.std.specs.Cmp.{partial_order_from_own_ties};
    ghost use Rattle.std.specs.Cmp.Rules.{comparing};
    ghost use Rattle.std.specs.Ordering.{as_partial_cmp};
    ghost use Rattle.tw_queue.specs.Ranks.{rank_cmp};

    ghost partial_cmp = { as_partial_cmp rank_cmp };

    ghost laws = { partial_order_from_own_ties (Prim.search (comparing, rules) depth 9) (Prim.search (comparing, rules) depth 9) };

    /// Compares ranks of queued tasks like `cmp`: by priority, number and slot.
    fn partial_cmp(&self, other: &Rank) -> Option<Ordering> {
        Some(self.cmp(other))
    }
}
