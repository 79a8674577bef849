//! The smaller of main's bounds and those of a limit.

ghost use Rattle.std.specs.Prelude.{◌≡◌, IfOk, min};
ghost use Rattle.tw_bounds.specs.Least.{AreLeastBounds, LeastRuns, least, lesser, main_in, main_of};

use crate::bound::{Bound, RunBounds};
use crate::limited::{LimitedBounds, limited_bounds};
use crate::whole_runs::run_bounds;
use std::alloc::{AllocError, Global};
use tw_verify::Verified;

/// Returns the smaller of two numbers, for the bounds of runs.
fn smaller(a: u64, b: u64) -> u64
    ensures { result ≡ min a b }
{
    if a < b { a } else { b }
}

/// Returns the smaller of two bounds. No bound is larger than any.
fn lesser(a: Bound, b: Bound) -> Bound
    ensures { result ≡ lesser a b }
{
    match a {
        Bound::AtMost(number) => match b {
            Bound::AtMost(other) => Bound::AtMost(smaller(number, other)),
            Bound::Over | Bound::Endless => a,
        },
        Bound::Over => match b {
            Bound::AtMost(_) => b,
            Bound::Over | Bound::Endless => a,
        },
        Bound::Endless => b,
    }
}

/// Returns main's bound.
fn main_in(bounds: &[Bound]) -> Bound
    ensures { result ≡ main_in bounds.now }
{
    bounds.first().copied().unwrap_or(Bound::Endless)
}

/// Returns main's bounds.
fn main_of(bounds: &RunBounds) -> LimitedBounds
    ensures { result ≡ main_of bounds.now }
{
    LimitedBounds {
        tasks: main_in(&bounds.tasks),
        instructions: main_in(&bounds.instructions),
        data: main_in(&bounds.data),
        rules: main_in(&bounds.rules),
        members: main_in(&bounds.members),
        bytes: main_in(&bounds.bytes),
        events: main_in(&bounds.events),
    }
}

/// Returns, of two lists of bounds for each kind of thing, the smaller ones.
fn least(a: LimitedBounds, b: LimitedBounds) -> LimitedBounds
    ensures { result ≡ least a b }
{
    LimitedBounds {
        tasks: lesser(a.tasks, b.tasks),
        instructions: lesser(a.instructions, b.instructions),
        data: lesser(a.data, b.data),
        rules: lesser(a.rules, b.rules),
        members: lesser(a.members, b.members),
        bytes: lesser(a.bytes, b.bytes),
        events: lesser(a.events, b.events),
    }
}

/// Returns the smallest known bounds of runs: main's, or those of a limit of events if they are smaller.
pub fn least_bounds(
    alloc: Global,
    verified: &Verified,
    limit: Option<u32>,
) -> Result<LimitedBounds, AllocError>
    ensures are { IfOk result (AreLeastBounds verified.now.program limit) }
    ensures runs { IfOk result (LeastRuns verified.now.program limit) }
{
    let bounds = run_bounds(alloc, verified)?;
    let main = main_of(&bounds);
    match limit {
        Some(most) => Ok(least(main, limited_bounds(verified, most))),
        None => Ok(main),
    }
}
