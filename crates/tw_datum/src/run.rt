//! Sorted lists of entries.

ghost use Rattle.std.specs.Prelude.{◌≡◌, ◌<◌, ◌++◌, ◌∷◌, MatchOption, OnOk, T, length, true};
ghost use Rattle.std.specs.FinMap.{find, is_sorted};
ghost use Rattle.std.specs.Option.{option_copied};
ghost use Rattle.std.specs.Vec.{vec_capacity, vec_len};
ghost use Rattle.tw_types.specs.Value.{IsProper};
ghost use Rattle.tw_types.specs.ValueOrder.{named, value_cmp};
ghost use Rattle.tw_datum.specs.Run.{IsAbove, IsEntryAt};
ghost use Rattle.tw_datum.specs.Tree.{IsAdded};

use std::alloc::{AllocError, Global};
use std::cmp::Ordering;
use tw_types::{Value, ValueRef};

/// Returns the entry in the middle of a list, between those before and after it.
fn parted<V>(run: &[(Value, V)]) -> Option<(&[(Value, V)], &(Value, V), &[(Value, V)])>
    ensures { MatchOption result (length run.now ≡ 0) (λ parts. run.now ≡ parts.0.now ++ parts.1.now ∷ parts.2.now) }
{
    let (before, rest) = run.split_at(run.len() / 2);
    match rest.split_first() {
        Some((own, after)) => Some((before, own, after)),
        None => None,
    }
}

/// Returns the place of the entry with this key in a sorted list, if there is one.
pub(crate) fn place_of<V>(run: &[(Value, V)], key: ValueRef<'_>) -> Option<usize>
    ensures { MatchOption result (T (is_sorted value_cmp run.now) → find value_cmp (named key.entry) run.now ≡ None) (IsEntryAt (named key.entry) run.now) }
{
    let mut low = 0;
    let mut part = run;
    while let Some((before, own, after)) = parted(part) {
        match key.compare(&own.0) {
            Ordering::Less => part = before,
            Ordering::Equal => return Some(low + before.len()),
            Ordering::Greater => {
                low += before.len() + 1;
                part = after;
            }
        }
    }
    None
}

/// Returns the value at a key in a sorted list.
pub(crate) fn value_at<'a, V>(run: &'a [(Value, V)], key: ValueRef<'_>) -> Option<&'a V>
    ensures { T (is_sorted value_cmp run.now) → option_copied result ≡ find value_cmp (named key.entry) run.now }
{
    match place_of(run, key) {
        Some(place) => Some(&run[place].1),
        None => None,
    }
}

/// Returns whether a key is greater than the last one of a sorted list.
pub(crate) fn is_above<V>(run: &[(Value, V)], key: ValueRef<'_>) -> bool
    ensures { result ≡ true → IsAbove (named key.entry) run.now }
{
    match run.split_last() {
        Some((last, _)) => match key.compare(&last.0) {
            Ordering::Greater => true,
            Ordering::Less | Ordering::Equal => false,
        },
        None => true,
    }
}

/// Makes room for one more entry in a list. At most a fifth of what a list reserves is unused then, apart from four entries.
pub(crate) fn make_room<V>(run: &mut Vec<(Value, V)>) -> Result<(), AllocError>
    ensures items { run.new.items ≡ run.old.items }
    ensures room { OnOk result (vec_len run.new < vec_capacity run.new) }
{
    if run.len() < run.capacity() {
        return Ok(());
    }
    run.reserve_exact(run.len() / 4 + 4)
}

/// Appends a value to a sorted list at a copy of a key that is greater than the last one.
pub(crate) fn append<V: Drop>(
    alloc: Global,
    run: &mut Vec<(Value, V)>,
    key: ValueRef<'_>,
    value: V,
) -> Result<bool, AllocError>
    requires proper { IsProper (named key) }
    requires above { IsAbove (named key) run.old.items }
    ensures { IsAdded result (named key.entry) value run.old.items run.new.items }
{
    let own = key.try_to_value(alloc)?;
    make_room(run)?;
    run.push_reserved((own, value));
    Ok(true)
}
