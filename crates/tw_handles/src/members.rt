//! Calls that read the members of an output, or the values of one that is a map.

ghost use Rattle.std.specs.Prelude.{slice_get};
ghost use Rattle.tw_handles.specs.Members.{IsMemberIn, IsMemberTextIn, IsSubscriptTextIn};
ghost use Rattle.tw_handles.specs.Shown.{IsShownAs, shown_by};

use crate::codes;
use crate::item::{Item, value_item, write_text};
use crate::shown::{Shown, shown_in};
use tw_pool::Final;

/// A member of a container, or a value of a map, with its subscript.
#[repr(C)]
#[derive(Clone, Copy)]
pub struct Member {
    pub subscript: Item,
    pub value: Item,
}

/// Returns what an output has at the place with so many smaller subscripts.
fn shown_at<'f>(outcome: &'f Final, index: usize, place: usize) -> Option<Shown<'f>>
    ensures { IsShownAs (slice_get (shown_by outcome.now index) place) result }
{
    let outputs = outcome.outputs();
    if index < outputs.len() {
        match outcome.view(outputs[index]) {
            Some(datum) => shown_in(outcome, datum, place),
            None => None,
        }
    } else {
        None
    }
}

/// Describes the member or the value of an output with so many smaller subscripts. Returns `NO_INDEX` if there is none.
pub fn output_member(outcome: &Final, index: usize, place: usize, member: &mut Member) -> u8
    ensures { IsMemberIn outcome.now index place member.old member.new result }
{
    match shown_at(outcome, index, place) {
        Some(shown) => {
            *member = Member {
                subscript: value_item(shown.subscript),
                value: shown.item,
            };
            codes::DONE
        }
        None => codes::NO_INDEX,
    }
}

/// Writes the text of a member or value to the start of a buffer. Returns `NO_TEXT` if it is no text, and `NO_ROOM` if the buffer is shorter.
pub fn member_text(outcome: &Final, index: usize, place: usize, room: &mut [u8]) -> u8
    ensures { IsMemberTextIn outcome.now index place room.old room.new result }
{
    match shown_at(outcome, index, place) {
        Some(shown) => write_text(shown.value, room),
        None => codes::NO_INDEX,
    }
}

/// Writes the text of a member's subscript to the start of a buffer. Returns `NO_TEXT` if the subscript is an integer, and `NO_ROOM` if the buffer is
/// shorter.
pub fn subscript_text(outcome: &Final, index: usize, place: usize, room: &mut [u8]) -> u8
    ensures { IsSubscriptTextIn outcome.now index place room.old room.new result }
{
    match shown_at(outcome, index, place) {
        Some(shown) => write_text(Some(shown.subscript), room),
        None => codes::NO_INDEX,
    }
}
