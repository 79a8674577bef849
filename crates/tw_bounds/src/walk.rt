//! The most expensive walk through a procedure's code.

ghost use Rattle.std.specs.Prelude.{◌≡◌, ◌≤◌, IfOk, length, min};
ghost use Rattle.tw_code.specs.accepting.Flow.{flows};
ghost use Rattle.tw_budget.specs.Sound.{IsSound};
ghost use Rattle.tw_bounds.specs.GreatestCost.{greatest_cost};
ghost use Rattle.tw_bounds.specs.Bounds.{cost_in};
ghost use Rattle.tw_bounds.specs.Rows.{AreSmall, cap};

use crate::row::{Row, row_at, row_of};
use std::alloc::{AllocError, Global};
use tw_code::Instr;

/// Returns the cost of the most expensive walk, given the cost of each place, capped over the greatest bound. Takes linear time.
pub fn greatest_walk_cost(alloc: Global, code: &[Instr], costs: &[u64]) -> Result<u64, AllocError>
    requires sound { IsSound (flows code.now) }
    requires weighted { length costs.now ≡ length code.now }
    requires small { AreSmall costs.now }
    ensures { IfOk result (λ n. n ≡ min (greatest_cost (cost_in costs.now) (flows code.now) 0) cap) }
{
    let count = code.len();
    let empty = Row {
        greatest_cost: 0,
        end: None,
    };
    let mut rows = vec![in alloc; empty; count]?;
    for place in (0..count).rev() {
        rows[place] = row_at(code, costs, &rows, place);
    }
    let whole = row_of(code, costs, &rows, 0, 0);
    Ok(whole.greatest_cost)
}
