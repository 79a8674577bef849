//! Long-running tests. Each prints its first difference, if there is one, and a last line says how many agree. With a number
//! as the argument, only whole runs of that many programs are tested. With any other argument, only a few jobs are, in which an
//! allocation may fail. With the argument `steps` a program's main runs alone, to be measured.
#![tactic(auto)]

mod alone;
mod case;
mod code;
mod data;
mod draw;
mod inputs;
mod jobs;
mod local;
mod long;
mod prefixes;
mod programs;
mod put_calls;
mod replay;
mod rights;
mod rounds;
mod signature;
mod stretches;
mod threads;
mod trial;

use crate::trial::{Change, Tally, first_changed, too_few, tried};
use std::alloc::Global;
use std::sync::Wait;
use std::thread::Threads;
use std::time::Clock;
use std::{env, io};

/// More steps than any job has.
const MOST: u64 = 1_000_000;

/// How many programs are made and run, if no argument says it.
const PROGRAMS: u64 = 2_000;

/// The greatest number of events of a run that is tested at each number of them.
const FEW: usize = 60;

/// The first difference, if there is one, as a number of its kind.
type Difference = Option<(&'static str, u64)>;

/// How many tests agree, and whether each difference could be printed.
#[derive(Drop)]
struct Verdicts<'r, R> {
    rt: &'r R,
    agreeing: u64,
    are_erased: bool,
}

impl<R: Print + Threads + Wait + Clock + Sync> Verdicts<'_, R> {
    /// Prints the difference that a test found, or counts the test as one that agrees.
    fn add(&mut self, name: &str, difference: Difference) {
        match difference {
            Some((what, number)) => {
                self.are_erased &= println!(self.rt; "{name}: {what} {number} differs").is_ok();
            }
            None => self.agreeing = self.agreeing.wrapping_add(1),
        }
    }

    /// Like `add`, for a test with only one result.
    fn whole(&mut self, name: &str, agrees: bool) {
        self.add(name, if agrees { None } else { Some(("its end", 0)) });
    }

    /// Compares `count` jobs with the reference machine. Also makes a control.
    fn job_trials(&mut self, alloc: Global, count: u64) {
        self.add("jobs", jobs::first_stretch(alloc, count, MOST));
        let short = jobs::first_stretch(alloc, 10, 5);
        self.add("jobs, a control of five steps that is to differ", short);
    }

    /// Prints how many programs ended in which way.
    fn print_tally(&mut self, programs: u64, tally: &Tally) {
        let Tally {
            refused,
            quiet,
            stuck,
            limit,
            events,
            runs,
            prefixes,
            threads,
            ..
        } = *tally;
        self.are_erased &= println!(self.rt;
            "{programs} programs in rounds: refused {refused}, quiet {quiet}, stuck {stuck}, limit {limit}, of {events} events"
        ).is_ok();
        self.are_erased &= println!(self.rt;
            "{runs} runs of at most {FEW} events, {prefixes} times at each number of them"
        ).is_ok();
        self.are_erased &= println!(self.rt; "{threads} programs in threads").is_ok();
    }

    /// Tests `programs` programs: in one thread, at each number of their events, and in threads, and whether each end came often
    /// enough. Also tests a long run, and two controls.
    fn run_trials(&mut self, alloc: Global, programs: u64) {
        let tally = tried(self.rt, alloc, programs, FEW);
        self.print_tally(programs, &tally);
        self.add("in rounds", of_program(tally.in_rounds));
        self.add("at each number of events", of_program(tally.at_each));
        self.add("in threads", of_program(tally.in_threads));
        self.add("how often runs end so", too_few(&tally, programs));
        self.whole("a long run", long::runs_agree(self.rt, alloc, 2));
        let shorter = first_changed(alloc, 100, Change::Shorter);
        self.add(
            "without the last event, a control that is to differ",
            of_program(shorter),
        );
        let slower = first_changed(alloc, 100, Change::Slower);
        self.add(
            "with a step less, a control that is to differ",
            of_program(slower),
        );
    }
}

/// Returns the difference that a random program of this number shows, if there is one.
fn of_program(number: Option<u64>) -> Difference {
    Some(("program", number?))
}

/// Which tests run.
#[derive(Clone, Copy, PartialEq, Eq)]
enum Asked {
    All,
    Jobs,
    Runs(u64),
}

/// Makes the fuzz tests that the arguments name, and prints how many agree.
fn trials<R: AllocGlobal + Print + Threads + Wait + Clock + Sync>(
    rt: &R,
    asked: Asked,
) -> io::Result<()> {
    let alloc = rt.alloc();
    let mut verdicts = Verdicts {
        rt,
        agreeing: 0,
        are_erased: true,
    };
    match asked {
        Asked::Runs(programs) => verdicts.run_trials(alloc, programs),
        Asked::Jobs => verdicts.job_trials(alloc, 30),
        Asked::All => {
            verdicts.job_trials(alloc, 10_000);
            verdicts.run_trials(alloc, PROGRAMS);
        }
    }
    let agreeing = verdicts.agreeing;
    println!(rt; "{agreeing} trials agree")?;
    if verdicts.are_erased {
        Ok(())
    } else {
        Err(io::Error::from(io::ErrorKind::BrokenPipe))
    }
}

/// Runs the fuzz tests that the first argument names: all, those of jobs, or of so many programs.
fn main(rt: HostRuntime) -> io::Result<()> {
    match env::args(&rt)?.nth(1) {
        None => trials(&rt, Asked::All),
        Some(word) if word.as_str() == "steps" => alone::print_steps(&rt),
        Some(word) => match word.as_str().parse::<u64>() {
            Ok(programs) => trials(&rt, Asked::Runs(programs)),
            Err(_) => trials(&rt, Asked::Jobs),
        },
    }
}
