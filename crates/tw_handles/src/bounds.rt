//! The bounds of a loaded program's runs.

ghost use Rattle.std.specs.Prelude.{◌≡◌};
ghost use Rattle.tw_handles.specs.Caps.{AreBoundsIn, AreFound, number_of as number_of_is, numbers_of};
ghost use Rattle.tw_handles.specs.Numbers.{filled};

use crate::codes;
use crate::numbers::put;
use std::alloc::Global;
use tw_bounds::{Bound, LimitedBounds, least_bounds};
use tw_verify::Verified;

/// A bound over 1,000,000,000,000.
const OVER: u64 = u64::MAX - 1;

/// No bound.
const NO_BOUND: u64 = u64::MAX;

/// The largest limit of events. The smallest is 1.
const MOST_EVENTS: usize = 1_000_000;

/// Returns a bound as a number; the greatest one if it is over that, or endless.
fn number_of(bound: Bound) -> u64
    ensures { result ≡ number_of_is bound }
{
    match bound {
        Bound::AtMost(number) => number,
        Bound::Over => OVER,
        Bound::Endless => NO_BOUND,
    }
}

/// Writes the bounds of tasks, instructions, data, members, rules, bytes and events.
fn put_bounds(bounds: LimitedBounds, numbers: &mut [u64])
    ensures { numbers.new ≡ filled (numbers_of bounds) numbers.old }
{
    let found = [
        number_of(bounds.tasks),
        number_of(bounds.instructions),
        number_of(bounds.data),
        number_of(bounds.members),
        number_of(bounds.rules),
        number_of(bounds.bytes),
        number_of(bounds.events),
    ];
    put(&found, numbers);
}

/// Finds the bounds of a program's runs, and writes them.
fn find_bounds(alloc: Global, verified: &Verified, limit: Option<u32>, numbers: &mut [u64]) -> u8
    ensures { AreFound verified.now limit numbers.old numbers.new result }
{
    match least_bounds(alloc, verified, limit) {
        Ok(found) => {
            put_bounds(found, numbers);
            codes::DONE
        }
        Err(_) => codes::NO_MEMORY,
    }
}

/// Writes the bounds of the program's runs with at most `limit` events, or of all runs if `limit` is 0. Returns `NO_LIMIT` if it is over
/// 1,000,000.
pub fn program_bounds(alloc: Global, verified: &Verified, limit: usize, numbers: &mut [u64]) -> u8
    ensures { AreBoundsIn verified.now limit numbers.old numbers.new result }
{
    if limit == 0 {
        find_bounds(alloc, verified, None, numbers)
    } else if limit <= MOST_EVENTS {
        find_bounds(alloc, verified, Some(limit as u32), numbers)
    } else {
        codes::NO_LIMIT
    }
}
