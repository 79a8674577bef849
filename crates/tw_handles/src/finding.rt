//! Finds members of an output, or values of one that is a map, by their subscripts.

ghost use Rattle.std.specs.Prelude.{◌≡◌, MatchOption};
ghost use Rattle.tw_types.specs.StoreCalls.{subscripts_of};
ghost use Rattle.tw_types.specs.ValueOrder.{named};
ghost use Rattle.tw_handles.specs.Finding.{HasNone, HasSubscript, IsNowhere, IsPlaceIn, IsThere, order_at as order_at_is};

use crate::codes;
use std::cmp::Ordering;
use tw_pool::Final;
use tw_store::Datum;
use tw_types::ValueRef;

/// Compares a subscript with the one that has so many smaller ones. One that isn't there is greater.
fn order_at(datum: &Datum, index: usize, subscript: ValueRef<'_>) -> Ordering
    ensures { result ≡ order_at_is (subscripts_of datum.now.datum.content) index (named subscript.entry) }
{
    match datum.nth_subscript(index) {
        Some(found) => subscript.compare(found),
        None => Ordering::Less,
    }
}

/// Returns how many subscripts of a container or a map are smaller than one of its subscripts, or none if it doesn't have this one.
fn place_in(datum: &Datum, subscript: ValueRef<'_>) -> Option<usize>
    ensures { MatchOption result (HasNone (subscripts_of datum.now.datum.content) (named subscript.entry))
        (HasSubscript (subscripts_of datum.now.datum.content) (named subscript.entry)) }
{
    let mut low = 0;
    let mut high = datum.count();
    while low < high {
        let middle = low + (high - low) / 2;
        match order_at(datum, middle, subscript) {
            Ordering::Less => high = middle,
            Ordering::Equal => return Some(middle),
            Ordering::Greater => low = middle + 1,
        }
    }
    None
}

/// Returns the place of a subscript in an output, if that is a container or a map with this subscript.
fn place_of(outcome: &Final, index: usize, subscript: ValueRef<'_>) -> Option<usize>
    ensures { MatchOption result (IsNowhere outcome.now index (named subscript.entry)) (IsThere outcome.now index (named subscript.entry)) }
{
    let outputs = outcome.outputs();
    if index < outputs.len() {
        match outcome.view(outputs[index]) {
            Some(datum) => place_in(datum, subscript),
            None => None,
        }
    } else {
        None
    }
}

/// Writes how many subscripts of an output are smaller than this one, which is one of them. Returns `NO_INDEX` if the output isn't a container or a map
/// with this subscript.
pub fn find(outcome: &Final, index: usize, subscript: ValueRef<'_>, place: &mut usize) -> u8
    ensures { IsPlaceIn outcome.now index (named subscript.entry) place.old place.new result }
{
    match place_of(outcome, index, subscript) {
        Some(found) => {
            *place = found;
            codes::DONE
        }
        None => codes::NO_INDEX,
    }
}
