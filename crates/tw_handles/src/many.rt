//! Calls that read many members of an output at once, or values of one that is a map.

ghost use Rattle.std.specs.Prelude.{◌≡◌, ◌↔◌, ◌<◌, ◌≤◌, ◌+◌, IfSome, IsTrue, length, option_map};
ghost use Rattle.std.specs.Option.{option_copied};
ghost use Rattle.tw_store.specs.Served.{KnowsPlaces};
ghost use Rattle.tw_handles.specs.Many.{AreRead, AreReadIn};
ghost use Rattle.tw_handles.specs.Shown.{shown_by, shown_if, shown_of};

use crate::codes;
use crate::item::value_item;
use crate::members::Member;
use crate::shown::shown_in;
use tw_pool::Final;
use tw_store::Datum;

/// Returns the datum of an output, if it is live.
fn output_datum<'f>(outcome: &'f Final, index: usize) -> Option<&'f Datum>
    ensures members { shown_by outcome.now index ≡ shown_if outcome.now (option_map (λ d. d.datum) (option_copied result)) }
    ensures places { IfSome (option_copied result) (λ d. KnowsPlaces outcome.now.store d) }
{
    let outputs = outcome.outputs();
    if index < outputs.len() {
        outcome.view(outputs[index])
    } else {
        None
    }
}

/// Returns whether there are so many from a place on.
fn has_so_many(count: usize, first: usize, many: usize) -> bool
    ensures is { IsTrue result ↔ first + many ≤ count }
    ensures small { IsTrue result → first + many < 18446744073709551616 }
{
    first <= count && many <= count - first
}

/// Returns whether a datum has so many members or values from a place on.
fn has_members(outcome: &Final, datum: &Datum, first: usize, many: usize) -> bool
    ensures is { IsTrue result ↔ first + many ≤ length (shown_of outcome.now datum.now.datum.content) }
    ensures small { IsTrue result → first + many < 18446744073709551616 }
{
    has_so_many(datum.count(), first, many)
}

/// Describes the members or values from a place on, as many as there is room for.
fn read_members(outcome: &Final, datum: &Datum, first: usize, room: &mut [Member]) -> u8
    requires { KnowsPlaces outcome.now.store datum.now }
    ensures { AreRead (shown_of outcome.now datum.now.datum.content) first room.old room.new result }
{
    if !has_members(outcome, datum, first, room.len()) {
        return codes::NO_INDEX;
    }
    for k in 0..room.len() {
        match shown_in(outcome, datum, first + k) {
            Some(shown) => room[k] = Member {
                subscript: value_item(shown.subscript),
                value: shown.item,
            },
            None => return codes::NO_INDEX,
        }
    }
    codes::DONE
}

/// Describes the members or values of an output from a place on, as many as `room` has items. Returns `NO_INDEX` if there are fewer; then `room` holds
/// some of them or what it held before.
pub fn output_members(outcome: &Final, index: usize, first: usize, room: &mut [Member]) -> u8
    ensures { AreReadIn outcome.now index first room.old room.new result }
{
    if outcome.outputs().len() <= index {
        return codes::NO_INDEX;
    }
    match output_datum(outcome, index) {
        Some(datum) => read_members(outcome, datum, first, room),
        None if first == 0 && room.is_empty() => codes::DONE,
        None => codes::NO_INDEX,
    }
}
