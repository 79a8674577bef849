//! Caps on the runs of a loaded program.

ghost use Rattle.std.specs.Prelude.{◌≡◌, IfOk};
ghost use Rattle.tw_handles.specs.Caps.{IsDecided, listed_caps};

use crate::running::option_at;
use std::alloc::{AllocError, Global};
use tw_order::{Caps, EventLimit};
use tw_program_output::is_within_caps;
use tw_verify::Verified;

/// How many caps there are.
pub(crate) const CAPS: usize = 7;

/// Returns the caps of a list, in the order of the fields. It has no cap for those that it lacks.
pub(crate) fn caps_of(numbers: &[u64]) -> Caps
    ensures { result ≡ listed_caps numbers.now }
{
    Caps {
        tasks: option_at(numbers, 0, u64::MAX),
        instructions: option_at(numbers, 1, u64::MAX),
        data: option_at(numbers, 2, u64::MAX),
        bytes: option_at(numbers, 3, u64::MAX),
        budget: option_at(numbers, 4, u64::MAX),
        members: option_at(numbers, 5, u64::MAX),
        rules: option_at(numbers, 6, u64::MAX),
    }
}

/// Returns whether the bounds of the program's runs are within the caps. They are if the limit is out of its range, since no run is opened then.
pub(crate) fn is_admitted(
    alloc: Global,
    verified: &Verified,
    limit: usize,
    caps: Caps,
) -> Result<bool, AllocError>
    ensures { IfOk result (IsDecided verified.now.program limit caps) }
{
    match EventLimit::new(limit) {
        Some(events) => is_within_caps(alloc, verified, Some(events), caps),
        None => Ok(true),
    }
}
