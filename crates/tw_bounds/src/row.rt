//! The table of places, filled from the last place to the first.

ghost use Rattle.std.specs.Prelude.{◌≡◌, ℕ, ◌+◌, ◌<◌, ◌≤◌, get_or, length, min, slice_get};
ghost use Rattle.tw_code.specs.accepting.Flow.{flows};
ghost use Rattle.tw_budget.specs.Sound.{IsSound};
ghost use Rattle.tw_bounds.specs.Bounds.{cost_in};
ghost use Rattle.tw_bounds.specs.Rows.{AreSmall, IsRow, RowsFrom, most_cost, cap};

use tw_code::{Flow, Instr, flow_at};

/// The greatest bound that is reported.
pub(crate) const GREATEST_BOUND: u64 = 1_000_000_000_000;

/// The row of a place: the greatest cost of a path from it up to the END of the loop that the place is in, and that END. Costs
/// over the greatest bound are capped.
#[derive(Clone, Copy)]
pub struct Row {
    pub greatest_cost: u64,
    pub end: Option<usize>,
}

/// Caps the cost of a walk at one more than the greatest bound.
pub(crate) fn capped(cost: u64) -> u64
    ensures { result ≡ min cost cap }
{
    cost.min(GREATEST_BOUND + 1)
}

/// Returns the cost of the instruction at a place, for the most expensive walk.
fn cost_at(costs: &[u64], place: usize) -> u64
    requires within { place < length costs.now }
    requires small { AreSmall costs.now }
    ensures is { result ≡ cost_in costs.now place }
    ensures bound { result ≤ most_cost }
{
    costs[place]
}

/// Returns the row of a place in the table of costs, where those from `from` on are known.
pub fn row_of(code: &[Instr], costs: &[u64], rows: &[Row], from: usize, place: usize) -> Row
    requires ahead { from ≤ place }
    requires within { place < length code.now }
    requires known { RowsFrom (cost_in costs.now) (flows code.now) rows.now from }
    ensures row { IsRow (cost_in costs.now) (flows code.now) place result }
    ensures bound { result.greatest_cost ≤ cap }
{
    rows[place]
}

/// Returns the row of a place: the most expensive walk from there, computed from the rows after it.
pub fn row_at(code: &[Instr], costs: &[u64], rows: &[Row], place: usize) -> Row
    requires within { place < length code.now }
    requires weighted { length costs.now ≡ length code.now }
    requires small { AreSmall costs.now }
    requires sound { IsSound (flows code.now) }
    requires known { RowsFrom (cost_in costs.now) (flows code.now) rows.now (place + 1) }
    ensures { IsRow (cost_in costs.now) (flows code.now) place result }
{
    let next = place + 1;
    let cost = cost_at(costs, place);
    match flow_at(code, place) {
        Flow::Straight => {
            let on = row_of(code, costs, rows, next, next);
            Row {
                greatest_cost: capped(cost + on.greatest_cost),
                end: on.end,
            }
        }
        Flow::Branch(skip) => {
            let on = row_of(code, costs, rows, next, next);
            let skipped = row_of(code, costs, rows, next, next + skip as usize);
            Row {
                greatest_cost: capped(cost + on.greatest_cost.max(skipped.greatest_cost)),
                end: on.end,
            }
        }
        Flow::Jump(skip) => {
            let on = row_of(code, costs, rows, next, next + skip as usize);
            Row {
                greatest_cost: capped(cost + on.greatest_cost),
                end: on.end,
            }
        }
        Flow::Begin(iterations) => loop_row(code, costs, rows, place, iterations),
        Flow::Close => Row {
            greatest_cost: capped(cost),
            end: Some(place),
        },
        Flow::Stop => Row {
            greatest_cost: capped(cost),
            end: None,
        },
    }
}

/// Returns the row of a REPEAT in the table of costs: its iterations, and the rest after the loop.
fn loop_row(code: &[Instr], costs: &[u64], rows: &[Row], place: usize, iterations: u16) -> Row
    requires within { place < length code.now }
    requires weighted { length costs.now ≡ length code.now }
    requires small { AreSmall costs.now }
    requires begins { slice_get (flows code.now) place ≡ Some (Flow.Begin iterations) }
    requires sound { IsSound (flows code.now) }
    requires known { RowsFrom (cost_in costs.now) (flows code.now) rows.now (place + 1) }
    ensures { IsRow (cost_in costs.now) (flows code.now) place result }
{
    let cost = cost_at(costs, place);
    let body = row_of(code, costs, rows, place + 1, place + 1);
    match body.end {
        Some(end) => {
            let on = row_of(code, costs, rows, place + 1, end + 1);
            Row {
                greatest_cost: capped(
                    cost + iterations as u64 * body.greatest_cost + on.greatest_cost,
                ),
                end: on.end,
            }
        }
        None => unreachable!(),
    }
}
