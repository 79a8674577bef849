//! Cases of threaded runs.

use crate::given::Given;
use crate::hosts::put_events;
use crate::reports::put_report;
use std::alloc::{AllocError, Global};
use std::sync::Wait;
use std::sync::atomic::{AtomicBool, AtomicU64, Ordering};
use std::thread::Threads;
use std::time::{Clock, Duration};
use tw_case_lines::{Complaint, Text};
use tw_host::Closed;
use tw_types::Actor;
use tw_verify::Verified;
use tw_workers::{Gate, run};

/// How often a held job looks whether another worker has one. After each look it waits for a millisecond.
const MOST_LOOKS: u64 = 20_000;

/// A job observer: it keeps each actor's task from one call to the other. It may hold the first job until another actor gets one.
#[derive(Drop)]
struct Watch {
    holds: bool,
    /// The task of each actor whose job is running, or 0.
    tasks: Vec<AtomicU64>,
    before: AtomicU64,
    after: AtomicU64,
    /// Whether a call was out of order or for another task, or the polls ran out.
    is_broken: AtomicBool,
    /// The place of the actor that got the first job, plus 1; 0 before there is one.
    first: AtomicU64,
    has_other: AtomicBool,
    /// How many wakes of idle threads were lost.
    late: AtomicU64,
}

impl Watch {
    /// Makes the job observer of a case that counts calls, before a run; `holds` is whether it delays the first job.
    fn new(alloc: Global, holds: bool) -> Result<Watch, AllocError> {
        let mut tasks = Vec::new(alloc);
        for _ in 0..24_u8 {
            tasks.push(AtomicU64::new(0))?;
        }
        Ok(Watch {
            holds,
            tasks,
            before: AtomicU64::new(0),
            after: AtomicU64::new(0),
            is_broken: AtomicBool::new(false),
            first: AtomicU64::new(0),
            has_other: AtomicBool::new(false),
            late: AtomicU64::new(0),
        })
    }

    /// Counts a call of the observer, and notes a fault if the actor's task isn't the expected one.
    fn change(&self, actor: Actor, from: u64, to: u64, count: &AtomicU64) {
        let is_so = match self.tasks.get(place_of(actor)) {
            Some(task) => task.swap(to, Ordering::SeqCst) == from,
            None => false,
        };
        if !is_so {
            self.is_broken.store(true, Ordering::SeqCst);
        }
        count.fetch_add(1, Ordering::SeqCst);
    }

    /// Waits in a job of a case until another worker has one.
    fn hold<R: Wait>(&self, rt: &R) {
        let nobody = AtomicU64::new(0);
        for _ in 0..MOST_LOOKS {
            if self.has_other.load(Ordering::SeqCst) {
                return;
            }
            nobody.park_timeout(rt, 0, Duration::from_millis(1));
        }
        self.is_broken.store(true, Ordering::SeqCst);
    }

    /// Notes that a worker has a job: the first one waits for another worker's.
    fn come<R: Wait>(&self, rt: &R, worker: u64) {
        match self
            .first
            .compare_exchange(0, worker, Ordering::SeqCst, Ordering::SeqCst)
        {
            Ok(_) => self.hold(rt),
            Err(first) => {
                if first != worker {
                    self.has_other.store(true, Ordering::SeqCst);
                }
            }
        }
    }
}

/// Returns the place of an actor in the observer's list of tasks.
fn place_of(actor: Actor) -> usize {
    match actor {
        Actor::Engine(number) => usize::from(number),
        Actor::Server(number) => usize::from(number).wrapping_add(4),
        Actor::Worker(number) => usize::from(number).wrapping_add(8),
    }
}

impl Gate for Watch {
    /// Counts a job that begins, and delays the first worker's if the case is to hold it.
    fn before_job<R: Wait>(&self, rt: &R, actor: Actor, task: u64) {
        self.change(actor, 0, task, &self.before);
        if let Actor::Worker(number) = actor {
            if self.holds {
                self.come(rt, u64::from(number) + 1);
            }
        }
    }

    /// Counts a job that has ended, for the output of the case.
    fn after_job<R: Wait>(&self, _rt: &R, actor: Actor, task: u64) {
        self.change(actor, task, 0, &self.after);
    }

    /// Keeps how many wakes of idle threads were late, for the output of the case.
    fn missed_wakes(&self, late: u64) {
        self.late.store(late, Ordering::SeqCst);
    }
}

/// Adds what the job observer saw.
fn put_seen(text: &mut Text, watch: &Watch) {
    text.number("before ", watch.before.load(Ordering::SeqCst));
    text.number(" after ", watch.after.load(Ordering::SeqCst));
    if watch.is_broken.load(Ordering::SeqCst) {
        text.put(" out of order");
    }
    if watch.has_other.load(Ordering::SeqCst) {
        text.put(" two at once");
    }
    let late = watch.late.load(Ordering::SeqCst);
    if late != 0 {
        text.number(" late wakes ", late);
    }
    text.put("\n");
}

/// Adds the end of a run in threads to a case's output: how many events there are, the events if `is_traced`, and the report.
pub fn put_end(text: &mut Text, closed: &Closed, is_traced: bool) {
    let Closed::Ended {
        history,
        outcome,
        ..
    } = closed
    else {
        text.put("a seat has other events");
        return;
    };
    text.number("events ", history.len() as u64);
    text.put("\n");
    if is_traced {
        put_events(text, history, None);
    }
    put_report(text, outcome);
}

/// Runs a program in threads. Returns how often the job observer was called, how many events there are, and the report. The first job may be held
/// until another worker has one.
pub fn threads_text<R: AllocGlobal + Threads + Wait + Clock + Sync>(
    rt: &R,
    verified: &Verified,
    given: &Given,
    holds: bool,
) -> Result<String, Complaint> {
    let alloc = rt.alloc();
    let watch = Watch::new(alloc, holds)?;
    let (inputs, limit) = (given.inputs.as_slice(), given.limit);
    let mut text = Text::new(alloc);
    match run(rt, alloc, verified, inputs, given.layout, limit, &watch) {
        Ok((closed, false)) => {
            put_seen(&mut text, &watch);
            let is_traced = given.layout.engines() == 1 && given.layout.workers() == 1;
            put_end(&mut text, &closed, is_traced);
        }
        _ => text.put("not opened, or memory ran out"),
    }
    text.into_line()
}
