//! Runs in threads.

use crate::case::Case;
use crate::replay::{Ended, end_of};
use crate::trial::replays;
use std::alloc::Global;
use std::sync::Wait;
use std::thread::Threads;
use std::time::Clock;
use tw_host::Closed;
use tw_types::{Input, Layout};
use tw_verify::Verified;
use tw_workers::{NoGate, run};

/// Makes a random program's run in threads, one for each actor. Returns `None` if it can't be opened, or doesn't end.
pub fn run_in_threads<R: Threads + Wait + Clock + Sync>(
    rt: &R,
    alloc: Global,
    verified: &Verified,
    inputs: &[Input],
    layout: Layout,
    limit: usize,
) -> Option<Ended> {
    match run(rt, alloc, verified, inputs, layout, limit, &NoGate) {
        Ok((closed, false)) => ended_of(alloc, &closed),
        Ok(_) | Err(_) => None,
    }
}

/// Returns the results of a random program's run in threads from its closed host, if no seat's events differ.
fn ended_of(alloc: Global, closed: &Closed) -> Option<Ended> {
    match closed {
        Closed::Ended {
            history,
            outcome,
            by_seat: _,
        } => end_of(alloc, outcome, history),
        Closed::Differs { .. } => None,
    }
}

/// Returns whether the trace of a random program's run in threads is replayed to the same end.
pub fn agrees_in_threads<R: Threads + Wait + Clock + Sync>(
    rt: &R,
    alloc: Global,
    case: &Case,
) -> bool {
    let inputs = case.inputs.as_slice();
    match run_in_threads(rt, alloc, &case.verified, inputs, case.layout, case.limit) {
        Some(run) => replays(alloc, case, &run),
        None => false,
    }
}
