//! Cases of threaded runs whose actors wait for one another.

ghost use Rattle.std.specs.Prelude.{◌≡◌, false};

use crate::given::Given;
use crate::reports::put_report;
use std::alloc::Global;
use std::sync::Wait;
use std::sync::atomic::{AtomicBool, AtomicU64, Ordering};
use std::thread::Threads;
use std::time::{Clock, Duration};
use tw_case_lines::{Complaint, Text};
use tw_host::Closed;
use tw_types::Actor;
use tw_verify::Verified;
use tw_workers::{Gate, Progress, run};

/// How often a run is checked before it takes too long. After each check the thread waits for a millisecond.
const MOST_LOOKS: u64 = 20_000;

/// How often a program is run.
const TIMES: u64 = 5;

/// How long a slow job waits before it is run, in milliseconds: longer than an idle thread parks at most.
pub const SLOW: u64 = 150;

/// A job observer that watches a run until it is over. It may let jobs wait.
#[derive(Drop)]
struct Onlooker {
    /// How long a job waits before it is run, in milliseconds. Jobs that are run under the lock don't.
    pause: u64,
    saw_end: AtomicBool,
    late: AtomicU64,
}

impl Onlooker {
    /// Makes the job observer of a case on wakes, whose jobs wait for this many milliseconds.
    fn new(pause: u64) -> Onlooker {
        Onlooker {
            pause,
            saw_end: AtomicBool::new(false),
            late: AtomicU64::new(0),
        }
    }

    /// Adds the faults of a run. Returns whether there are none.
    fn put_faults(&self, text: &mut Text) -> bool {
        let saw_end = self.saw_end.load(Ordering::SeqCst);
        if !saw_end {
            text.put("took too long\n");
        }
        let late = self.late.load(Ordering::SeqCst);
        if late != 0 {
            text.number("late wakes ", late);
            text.put("\n");
        }
        saw_end && late == 0
    }
}

impl Gate for Onlooker {
    ghost unwatched = { Unit {0} };

    /// Returns that the observer of a case on wakes needn't see each job.
    fn watches(&self) -> bool {
        false
    }

    /// Waits before a job for as many milliseconds as the case on wakes says.
    fn before_job<R: Wait>(&self, rt: &R, _actor: Actor, _task: u64) {
        if self.pause != 0 {
            let nobody = AtomicU64::new(0);
            nobody.park_timeout(rt, 0, Duration::from_millis(self.pause));
        }
    }

    /// Does nothing after a job of a case on wakes.
    fn after_job<R: Wait>(&self, _rt: &R, _actor: Actor, _task: u64) {}

    /// Looks at the run of a case each millisecond, and notes that it saw its end.
    fn monitor<R: Wait + Clock, P: Progress>(&self, rt: &R, run: &P) {
        let nobody = AtomicU64::new(0);
        for _ in 0..MOST_LOOKS {
            if run.so_far().is_none() {
                self.saw_end.store(true, Ordering::SeqCst);
                return;
            }
            nobody.park_timeout(rt, 0, Duration::from_millis(1));
        }
    }

    /// Keeps how many wakes of idle threads were late, for the case on wakes.
    fn missed_wakes(&self, late: u64) {
        self.late.store(late, Ordering::SeqCst);
    }
}

/// Adds the report of a closed host to the output of a case on wakes. Returns whether its seats got its events.
fn put_left(text: &mut Text, closed: &Closed) -> bool {
    let Closed::Ended { outcome, .. } = closed else {
        text.put("a seat has other events");
        return false;
    };
    put_report(text, outcome);
    true
}

/// Adds the faults of one run, and its report. Returns whether there are no faults.
fn put_run<R: Threads + Wait + Clock + Sync>(
    rt: &R,
    alloc: Global,
    verified: &Verified,
    given: &Given,
    pause: u64,
    text: &mut Text,
) -> bool {
    let onlooker = Onlooker::new(pause);
    let (inputs, limit) = (given.inputs.as_slice(), given.limit);
    match run(rt, alloc, verified, inputs, given.layout, limit, &onlooker) {
        Ok((closed, false)) => {
            let mut is_well = onlooker.put_faults(text);
            is_well &= put_left(text, &closed);
            is_well
        }
        _ => {
            text.put("not opened, or memory ran out");
            false
        }
    }
}

/// Returns the report of a program that is run several times, if all reports are the same, each run ends soon, and no wake is late. Otherwise returns
/// the output of a run that differs. Each job that isn't run under the lock waits for `pause` milliseconds.
pub fn woken_text<R: AllocGlobal + Threads + Wait + Clock + Sync>(
    rt: &R,
    verified: &Verified,
    given: &Given,
    pause: u64,
) -> Result<String, Complaint> {
    let alloc = rt.alloc();
    let mut first = Text::new(alloc);
    if !put_run(rt, alloc, verified, given, pause, &mut first) {
        return first.into_line();
    }
    for _ in 1..TIMES {
        let mut next = Text::new(alloc);
        if !put_run(rt, alloc, verified, given, pause, &mut next) || !next.is(&first) {
            next.put("another run: ");
            next.add(&first);
            return next.into_line();
        }
    }
    first.into_line()
}
