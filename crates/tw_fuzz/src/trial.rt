//! Random programs, their runs, and their traces on the reference machine.

use crate::case::{Case, case_of};
use crate::prefixes::agree_at_each;
use crate::replay::{Ended, agrees};
use crate::rounds::run_in_rounds;
use crate::threads::agrees_in_threads;
use std::alloc::Global;
use std::sync::Wait;
use std::thread::Threads;
use std::time::Clock;
use tw_pool::Closing;
use tw_types::{Actor, Event};

/// A change of a trace before it is replayed.
#[derive(Clone, Copy, PartialEq, Eq)]
pub enum Change {
    None,
    /// The last event is missing.
    Shorter,
    /// The first job has one step less.
    Slower,
}

/// How many programs ended in which way, the events of their runs, how many were tested at each number of events and how often, and how
/// many ran in threads. Also the first program that differs in each.
#[derive(Clone, Copy)]
pub struct Tally {
    pub refused: u64,
    pub quiet: u64,
    pub stuck: u64,
    pub limit: u64,
    pub events: u64,
    pub runs: u64,
    pub prefixes: u64,
    pub threads: u64,
    pub in_rounds: Option<u64>,
    pub at_each: Option<u64>,
    pub in_threads: Option<u64>,
}

/// Returns the actor and the steps of an event Local of a random program's run.
fn steps_of(event: Event) -> Option<(Actor, u64)> {
    match event {
        Event::Local(actor, steps) => Some((actor, steps)),
        Event::Take(_) | Event::Call(_) | Event::End(_) => None,
        Event::Ask(..) | Event::Deliver(..) | Event::Release(..) => None,
    }
}

/// Removes one step from the first event Local of a run, for a control.
fn slow(events: &mut [Event]) {
    for event in events.iter_mut() {
        if let Some((actor, steps)) = steps_of(*event) {
            *event = Event::Local(actor, steps.wrapping_sub(1));
            return;
        }
    }
}

/// Changes the events of a run for a control: drops the last one, or one step.
fn make_change(events: &mut Vec<Event>, change: Change) {
    match change {
        Change::None => {}
        Change::Shorter => {
            let _last = events.pop();
        }
        Change::Slower => slow(events.as_mut_slice()),
    }
}

/// Returns whether the reference machine makes the events of a run, and then has its report.
pub fn replays(alloc: Global, case: &Case, run: &Ended) -> bool {
    match case.machine(alloc) {
        Some(plain) => agrees(alloc, plain, run.events.as_slice(), run),
        None => false,
    }
}

/// Runs a program in one thread, changes its trace, and replays it. Returns the changed run if the replay reaches the same end.
fn run_changed(alloc: Global, case: &Case, by: Change) -> Option<Ended> {
    let mut run = run_in_rounds(alloc, case, case.limit)?;
    make_change(&mut run.events, by);
    if replays(alloc, case, &run) {
        Some(run)
    } else {
        None
    }
}

/// Returns the first of `programs` programs whose run differs from its changed trace.
pub fn first_changed(alloc: Global, programs: u64, by: Change) -> Option<u64> {
    for number in 0..programs {
        if let Some(case) = case_of(alloc, number) {
            if run_changed(alloc, &case, by).is_none() {
                return Some(number);
            }
        }
    }
    None
}

/// Keeps the number of the first random program that doesn't agree.
fn note(first: &mut Option<u64>, number: u64, agrees: bool) {
    if !agrees && first.is_none() {
        *first = Some(number);
    }
}

/// Counts how a run of a random program ended.
fn count_closing(tally: &mut Tally, closing: Closing) {
    match closing {
        Closing::Quiet => tally.quiet = tally.quiet.wrapping_add(1),
        Closing::Stuck(_) => tally.stuck = tally.stuck.wrapping_add(1),
        Closing::Limit => tally.limit = tally.limit.wrapping_add(1),
        Closing::Stopped => {}
    }
}

/// Tests the run at each number of its events, if there are few enough.
fn try_each(alloc: Global, case: &Case, events: &[Event], most: usize, tally: &mut Tally) -> bool {
    if events.len() > most {
        return true;
    }
    tally.runs = tally.runs.wrapping_add(1);
    tally.prefixes = tally.prefixes.wrapping_add(events.len() as u64);
    agree_at_each(alloc, case, events)
}

/// Tests one program in one thread, at each number of events, and in threads.
fn try_case<R: Threads + Wait + Clock + Sync>(
    rt: &R,
    alloc: Global,
    case: &Case,
    most: usize,
    number: u64,
    tally: &mut Tally,
) {
    match run_changed(alloc, case, Change::None) {
        Some(run) => {
            note(
                &mut tally.in_rounds,
                number,
                run.closing != Closing::Stopped,
            );
            count_closing(tally, run.closing);
            tally.events = tally.events.wrapping_add(run.events.len() as u64);
            let agrees = try_each(alloc, case, run.events.as_slice(), most, tally);
            note(&mut tally.at_each, number, agrees);
        }
        None => note(&mut tally.in_rounds, number, false),
    }
    note(
        &mut tally.in_threads,
        number,
        agrees_in_threads(rt, alloc, case),
    );
    tally.threads = tally.threads.wrapping_add(1);
}

/// Tests this many random programs.
pub fn tried<R: Threads + Wait + Clock + Sync>(
    rt: &R,
    alloc: Global,
    programs: u64,
    most: usize,
) -> Tally {
    let mut tally = Tally {
        refused: 0,
        quiet: 0,
        stuck: 0,
        limit: 0,
        events: 0,
        runs: 0,
        prefixes: 0,
        threads: 0,
        in_rounds: None,
        at_each: None,
        in_threads: None,
    };
    for number in 0..programs {
        match case_of(alloc, number) {
            Some(case) => try_case(rt, alloc, &case, most, number, &mut tally),
            None => tally.refused = tally.refused.wrapping_add(1),
        }
    }
    tally
}

/// Returns an end that came too seldom among the programs, if there is one, and how often it came.
pub fn too_few(tally: &Tally, programs: u64) -> Option<(&'static str, u64)> {
    for (end, count, part) in [
        ("quiet", tally.quiet, 10),
        ("stuck", tally.stuck, 40),
        ("limit", tally.limit, 10),
        ("refused", tally.refused, 100),
    ] {
        if count < programs / part {
            return Some((end, count));
        }
    }
    None
}
