//! Prints the progress of a run, and of the runs of many lines, and stops a run.

ghost use Rattle.std.specs.Prelude.{◌≡◌, false};

use std::io::IsTerminal;
use std::rt::Stderr;
use std::sync::Wait;
use std::sync::atomic::{AtomicU64, Ordering};
use std::time::{Clock, Duration, Instant};
use std::{fs, io, thread};
use tw_session::{Gate, Progress, SoFar};
use tw_types::Actor;

/// Clears a terminal's line, and moves to its beginning.
const CLEAR: &str = "\r\x1b[K";

/// The first pause between two checks of a run, in microseconds.
const SHORTEST: u64 = 20;

/// The longest pause between two checks, in microseconds.
const LONGEST: u64 = 1280;

/// The last second of a run in which no progress is printed yet.
const SILENT: u64 = 1;

/// When a run is checked.
#[derive(Drop)]
struct Look {
    begun: Instant,
    /// The next pause, in microseconds.
    pause: u64,
    /// The last second for which progress was printed, or at first `SILENT`.
    printed: u64,
}

impl Look {
    /// Begins to check for progress to print, whose time counts from now on.
    fn new(clock: &impl Clock) -> io::Result<Look> {
        Ok(Look {
            begun: Instant::now(clock)?,
            pause: SHORTEST,
            printed: SILENT,
        })
    }

    /// Sleeps until the next check of progress. The pause doubles up to the longest one, so that a short run isn't delayed.
    fn rest(&mut self, clock: &impl Clock) {
        thread::sleep(clock, Duration::from_micros(self.pause));
        if self.pause < LONGEST {
            self.pause *= 2;
        }
    }

    /// Returns whether progress is to be printed, at most once for each second.
    fn is_due(&mut self, clock: &impl Clock) -> io::Result<bool> {
        let second = self.begun.elapsed(clock)?.as_secs();
        if second <= self.printed {
            return Ok(false);
        }
        self.printed = second;
        Ok(true)
    }

    /// Clears the line of progress that was printed last, if any was.
    fn clear(&self, terminal: &Stderr) -> io::Result<()> {
        if self.printed == SILENT {
            return Ok(());
        }
        eprint!(terminal; "{CLEAR}")
    }
}

/// A job observer that prints progress on standard error, once a second, if the work takes more than two seconds. It also prints there how many
/// wakes of idle threads were lost; if any were, the host has a fault. It stops the work at the sight of a file, if one is named.
#[derive(Drop)]
pub struct ProgressPrinter<'a> {
    files: &'a HostRuntime,
    stderr: Stderr,
    is_quiet: bool,
    stop: Option<&'a str>,
    cut: AtomicU64,
}

impl<'a> ProgressPrinter<'a> {
    /// Makes a printer of progress. It prints nothing if `is_quiet`, and no progress if standard error is no terminal.
    pub fn new(
        files: &'a HostRuntime,
        stderr: Stderr,
        is_quiet: bool,
        stop: Option<&'a str>,
    ) -> ProgressPrinter<'a>
        ensures { result.is_quiet ≡ is_quiet }
    {
        ProgressPrinter {
            files,
            stderr,
            is_quiet,
            stop,
            cut: AtomicU64::new(0),
        }
    }

    /// Returns whether progress is printed.
    pub fn shows(&self) -> bool {
        !self.is_quiet && self.stderr.is_terminal()
    }

    /// Returns whether the file is there at whose sight the work is stopped.
    fn is_stopped(&self) -> bool {
        match self.stop {
            Some(path) => fs::exists(self.files, path).unwrap_or(false),
            None => false,
        }
    }

    /// Checks work until it is over: stops it if that is requested, and prints its progress when due.
    fn watch<R: Wait + Clock, P: Progress>(&self, rt: &R, work: &P) -> io::Result<()> {
        let shows = self.shows();
        let mut look = Look::new(rt)?;
        for _ in rt.forever() {
            let Some(so_far) = work.so_far() else {
                return look.clear(&self.stderr);
            };
            if self.is_stopped() {
                work.stop(rt);
            }
            if shows && look.is_due(rt)? {
                print_so_far(&self.stderr, so_far, look.printed)?;
            }
            look.rest(rt);
        }
        unreachable!()
    }
}

/// Prints how many lines are answered after some seconds, and how many that is a second.
fn print_lines(terminal: &Stderr, answered: u64, seconds: u64) -> io::Result<()> {
    let tenths = answered.saturating_mul(10) / seconds.max(1);
    let (rate, tenth) = (tenths / 10, tenths % 10);
    eprint!(terminal; "{CLEAR}tw: {answered} lines so far, {rate}.{tenth} a second")
}

/// Prints how far work has got after some seconds, in place of what was printed before.
fn print_so_far(terminal: &Stderr, so_far: SoFar, seconds: u64) -> io::Result<()> {
    match so_far {
        SoFar::Events(events) => eprint!(terminal; "{CLEAR}tw: {events} events so far"),
        SoFar::Turns(turns) => eprint!(terminal; "{CLEAR}tw: {turns} turns so far"),
        SoFar::Lines(answered) => print_lines(terminal, answered, seconds),
    }
}

impl Gate for ProgressPrinter<'_> {
    ghost unwatched = { Unit {0} };

    ghost stoppable = { Unit {0} };

    /// Returns that the printer of progress needn't see each job.
    fn watches(&self) -> bool {
        false
    }

    /// Returns whether the printer of progress may stop the run.
    fn may_stop(&self) -> bool {
        self.stop.is_some()
    }

    /// Prints nothing before a job.
    fn before_job<R: Wait>(&self, _rt: &R, _actor: Actor, _task: u64) {}

    /// Prints nothing after a job.
    fn after_job<R: Wait>(&self, _rt: &R, _actor: Actor, _task: u64) {}

    /// Adds the local instructions of a job that was cut off when the printer stopped the run.
    fn cut_off(&self, steps: u64) {
        self.cut.fetch_add(steps, Ordering::SeqCst);
    }

    /// Returns the local instructions of the jobs that were cut off when the printer stopped the run.
    fn cut(&self) -> u64 {
        self.cut.load(Ordering::SeqCst)
    }

    /// Prints progress and looks for the file until the work is over. If the clock or the terminal fails, it ends.
    fn monitor<R: Wait + Clock, P: Progress>(&self, rt: &R, work: &P) {
        if self.stop.is_some() || self.shows() {
            let _printed = self.watch(rt, work);
        }
    }

    /// Prints how many wakes of idle threads were late, if any, unless the command is quiet.
    fn missed_wakes(&self, late: u64) {
        if late != 0 && !self.is_quiet {
            let stderr = &self.stderr;
            let _printed = eprintln!(stderr; "tw: {late} late wakes of idle threads");
        }
    }
}
