//! The content of an output at a place: a member of a container, or a value of a map.

ghost use Rattle.std.specs.Prelude.{◌≡◌, false, option_map, slice_get};
ghost use Rattle.std.specs.FinMap.{entries};
ghost use Rattle.tw_datum.specs.Kept.{has_entries};
ghost use Rattle.tw_store.specs.Served.{KnowsPlaces};
ghost use Rattle.tw_types.specs.StoreCalls.{entries_in};
ghost use Rattle.tw_handles.specs.Shown.{IsShownAs, at_value, shown_of};

use crate::item::{Item, item_of, value_item, value_of};
use tw_pool::Final;
use tw_store::Datum;
use tw_types::Value;

/// A subscript, and what is there.
#[derive(Clone, Copy)]
pub(crate) struct Shown<'f> {
    pub(crate) subscript: &'f Value,
    /// The member or the value, as C reads it.
    pub(crate) item: Item,
    /// The value, if it is one of a map, or the member is a live scalar that is set.
    pub(crate) value: Option<&'f Value>,
}

/// Returns the member of a container with `place` smaller subscripts.
fn member_shown<'f>(outcome: &'f Final, container: &'f Datum, place: usize) -> Option<Shown<'f>>
    requires place { KnowsPlaces outcome.now.store container.now }
    requires members { has_entries container.now.datum.content ≡ false }
    ensures { IsShownAs (slice_get (shown_of outcome.now container.now.datum.content) place) result }
{
    match outcome.member(container, place) {
        Some(shown) => Some(Shown {
            subscript: shown.subscript,
            item: item_of(shown.datum),
            value: value_of(shown.datum),
        }),
        None => None,
    }
}

/// Returns the value of a map with `place` smaller subscripts.
fn value_shown<'f>(map: &'f Datum, place: usize) -> Option<Shown<'f>>
    ensures { IsShownAs (option_map at_value (slice_get (entries (entries_in map.now.datum.content)) place)) result }
{
    match map.nth_value(place) {
        Some((subscript, value)) => Some(Shown {
            subscript,
            item: value_item(value),
            value: Some(value),
        }),
        None => None,
    }
}

/// Returns what a container or a map has at the place with so many smaller subscripts.
pub(crate) fn shown_in<'f>(outcome: &'f Final, datum: &'f Datum, place: usize) -> Option<Shown<'f>>
    requires { KnowsPlaces outcome.now.store datum.now }
    ensures { IsShownAs (slice_get (shown_of outcome.now datum.now.datum.content) place) result }
{
    if datum.is_map() {
        value_shown(datum, place)
    } else {
        member_shown(outcome, datum, place)
    }
}
