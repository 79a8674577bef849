//! The order in which waiting tasks are taken.

ghost use Rattle.std.specs.Prelude.{◌≡◌};
ghost use Rattle.tw_machine.specs.Rank.{rank_of};

use std::cmp::Ordering;
use tw_instr::Task;
use tw_types::{Actor, Kind};

/// The rank of a waiting task. The least is taken first: that of the greatest priority, then that of the lowest number.
#[derive(Clone, Copy, PartialEq, Eq)]
pub struct Rank {
    pub priority: i64,
    pub number: u64,
}

impl Rank {
    /// Returns the rank of the reference machine's waiting task of this number.
    pub fn of(number: u64, task: &Task) -> Rank
        ensures { result ≡ rank_of number task.now }
    {
        Rank {
            priority: task.priority(),
            number,
        }
    }
}

/// Returns the kind of a waiting task: a control task is one that an engine may take.
pub fn kind_of(task: &Task) -> Kind
    ensures { result ≡ task.now.kind }
{
    let number = task.target().unwrap_or(0);
    if task.is_eligible(Actor::Engine(number)) {
        Kind::Control
    } else {
        Kind::Leaf
    }
}

impl Ord for Rank {
    ghost use Rattle.std.proofs.Common.{rules};
    ghost use Rattle.std.specs.Cmp.Rules.{comparing};
    ghost use Rattle.tw_machine.specs.Rank.{rank_cmp};

    ghost cmp = { rank_cmp };

    ghost total = { Prim.search (comparing, rules) };

    ghost matches_partial_cmp = { Prim.search (comparing, rules) };

    ghost matches_eq = { Prim.search (comparing, rules) };

    /// Compares ranks of waiting tasks: a greater priority is less, then a lower number.
    fn cmp(&self, other: &Rank) -> Ordering {
        let by_number = self.number.cmp(&other.number);
        other.priority.cmp(&self.priority).then(by_number)
    }
}

impl PartialOrd for Rank {
    ghost use Rattle.std.proofs.Common.{rules};
    ghost use Rattle.std.specs.Cmp.{partial_order_from_own_ties};
    ghost use Rattle.std.specs.Cmp.Rules.{comparing};
    ghost use Rattle.std.specs.Ordering.{as_partial_cmp};
    ghost use Rattle.tw_machine.specs.Rank.{rank_cmp};

    ghost partial_cmp = { as_partial_cmp rank_cmp };

    ghost laws = { partial_order_from_own_ties (Prim.search (comparing, rules) depth 9) (Prim.search (comparing, rules) depth 9) };

    /// Compares ranks of waiting tasks like `cmp`: by priority, then by number.
    fn partial_cmp(&self, other: &Rank) -> Option<Ordering> {
        Some(self.cmp(other))
    }
}
