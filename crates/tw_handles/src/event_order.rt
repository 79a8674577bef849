//! Whether the order of events may show in the outputs of a loaded program.

ghost use Rattle.std.specs.Prelude.{◌≡◌};
ghost use Rattle.tw_handles.specs.EventOrder.{IsOrderFound, order_of};
ghost use Rattle.tw_handles.specs.Numbers.{filled};

use crate::codes;
use crate::numbers::put;
use std::alloc::Global;
use tw_copies::{CopyInsertion, first_copy_insertion};
use tw_verify::Verified;

/// Writes whether there is an insertion that may show the order, 1 or 0, its procedure and its place.
fn put_order(found: Option<CopyInsertion>, numbers: &mut [u64])
    ensures { numbers.new ≡ filled (order_of found) numbers.old }
{
    match found {
        Some(insertion) => put(
            &[1, insertion.procedure as u64, insertion.place as u64],
            numbers,
        ),
        None => put(&[0, 0, 0], numbers),
    }
}

/// Writes whether the order of events may show in the program's outputs. If not, all runs with the same inputs that end by themselves end alike with
/// the same outputs, in any layout and order. Otherwise they may differ, and the first insertion that may make them so is written.
pub fn program_order(alloc: Global, verified: &Verified, numbers: &mut [u64]) -> u8
    ensures { IsOrderFound verified.now numbers.old numbers.new result }
{
    match first_copy_insertion(alloc, verified) {
        Ok(found) => {
            put_order(found, numbers);
            codes::DONE
        }
        Err(_) => codes::NO_MEMORY,
    }
}
