//! Cases of threaded runs that can't start a thread: a hoard takes all addresses except a few.

use crate::given::Given;
use crate::hosts::steps_history;
use std::alloc::Global;
use std::sync::Wait;
use std::thread::Threads;
use std::time::Clock;
use tw_case_lines::{Complaint, Hoard};
use tw_host::Closed;
use tw_verify::Verified;
use tw_workers::{NoGate, run};

/// The size of the smallest piece of memory that is large enough for a stack, in bytes.
const STACK: usize = 1 << 22;

/// Runs a program in threads while no free piece of memory is large enough for a thread's stack. Complains if the run isn't
/// opened, or isn't out of memory.
fn run_without_stacks<H: AllocGlobal + Threads + Wait + Clock + Sync>(
    rt: &H,
    verified: &Verified,
    given: &Given,
) -> Result<Closed, Complaint> {
    let alloc = rt.alloc();
    let mut hoard = Hoard::new(alloc)?;
    hoard.take(alloc, 1 << 40, STACK)?;
    let (inputs, limit) = (given.inputs.as_slice(), given.limit);
    let came = run(rt, alloc, verified, inputs, given.layout, limit, &NoGate);
    drop(hoard);
    match came {
        Ok((closed, true)) => Ok(closed),
        _ => Err(Complaint::NotRefused),
    }
}

/// Checks that the reference machine makes the events of a host that could start no thread.
fn stepped_text(
    alloc: Global,
    bytes: &[u8],
    given: &Given,
    closed: &Closed,
) -> Result<String, Complaint> {
    let Closed::Ended { history, .. } = closed else {
        return Err(Complaint::NotRefused);
    };
    steps_history(alloc, bytes, given, history)?;
    Ok("memory, and the reference machine makes the events".to_string(alloc)?)
}

/// Checks that a run that can't start a thread reports it, and that the reference machine makes its events.
pub fn unthreaded_text<H: AllocGlobal + Threads + Wait + Clock + Sync>(
    rt: &H,
    bytes: &[u8],
    verified: &Verified,
    given: &Given,
) -> Result<String, Complaint> {
    let closed = run_without_stacks(rt, verified, given)?;
    stepped_text(rt.alloc(), bytes, given, &closed)
}
