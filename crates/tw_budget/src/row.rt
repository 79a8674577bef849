//! The table of places, filled from the last place to the first.

ghost use Rattle.std.specs.Prelude.{◌≡◌, ◌+◌, ◌<◌, ◌≤◌, length, min, slice_get};
ghost use Rattle.tw_code.specs.accepting.Flow.{flows};
ghost use Rattle.tw_budget.specs.Rows.{IsRow, RowsFrom, greatest_length};
ghost use Rattle.tw_budget.specs.Sound.{IsSound};

use tw_code::{Flow, Instr, Procedure, flow_at};

/// The row of a place: how many instructions remain at most, from this place to the END of its innermost loop (or to RET), and
/// where that END is. Lengths over the greatest budget are capped.
#[derive(Clone, Copy)]
pub struct Row {
    pub longest: u64,
    pub end: Option<usize>,
}

/// Caps the length of a walk at one more than the greatest budget.
fn capped(length: u64) -> u64
    ensures { result ≡ min length greatest_length }
{
    length.min(Procedure::MAX_BUDGET + 1)
}

/// Returns the row of a place in the budget's table, where it is known. `from` is for the contract alone: rows from there on are
/// known.
pub fn row_of(code: &[Instr], rows: &[Row], from: usize, place: usize) -> Row
    requires ahead { from ≤ place }
    requires within { place < length code.now }
    requires known { RowsFrom (flows code.now) rows.now from }
    ensures row { IsRow (flows code.now) place result }
    ensures bound { result.longest ≤ greatest_length }
{
    rows[place]
}

/// Returns the budget's row of a place: the longest walk from there, computed from the rows after it.
pub fn row_at(code: &[Instr], rows: &[Row], place: usize) -> Row
    requires within { place < length code.now }
    requires sound { IsSound (flows code.now) }
    requires known { RowsFrom (flows code.now) rows.now (place + 1) }
    ensures { IsRow (flows code.now) place result }
{
    let next = place + 1;
    match flow_at(code, place) {
        Flow::Straight => {
            let on = row_of(code, rows, next, next);
            Row {
                longest: capped(1 + on.longest),
                end: on.end,
            }
        }
        Flow::Branch(skip) => {
            let on = row_of(code, rows, next, next);
            let skipped = row_of(code, rows, next, next + skip as usize);
            Row {
                longest: capped(1 + on.longest.max(skipped.longest)),
                end: on.end,
            }
        }
        Flow::Jump(skip) => {
            let on = row_of(code, rows, next, next + skip as usize);
            Row {
                longest: capped(1 + on.longest),
                end: on.end,
            }
        }
        Flow::Begin(iterations) => loop_row(code, rows, place, iterations),
        Flow::Close => Row {
            longest: 1,
            end: Some(place),
        },
        Flow::Stop => Row {
            longest: 1,
            end: None,
        },
    }
}

/// Returns the budget's row of a REPEAT: its iterations, and the rest after the loop.
fn loop_row(code: &[Instr], rows: &[Row], place: usize, iterations: u16) -> Row
    requires within { place < length code.now }
    requires begins { slice_get (flows code.now) place ≡ Some (Flow.Begin iterations) }
    requires sound { IsSound (flows code.now) }
    requires known { RowsFrom (flows code.now) rows.now (place + 1) }
    ensures { IsRow (flows code.now) place result }
{
    let body = row_of(code, rows, place + 1, place + 1);
    match body.end {
        Some(end) => {
            let on = row_of(code, rows, place + 1, end + 1);
            Row {
                longest: capped(1 + iterations as u64 * body.longest + on.longest),
                end: on.end,
            }
        }
        None => unreachable!(),
    }
}
