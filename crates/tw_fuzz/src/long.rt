//! Long runs in threads, whose outputs don't depend on the order of events.

use crate::replay::Ended;
use crate::threads::run_in_threads;
use std::alloc::{AllocError, Global};
use std::sync::Wait;
use std::thread::Threads;
use std::time::Clock;
use tw_asm::assemble;
use tw_report::{put, put_numbered};
use tw_types::Layout;
use tw_verify::{Verified, verify};

/// A program that puts 80 control tasks, each of which makes 80 rules and tasks. The output gets the square of each number below
/// 6,400, at the number.
const PROGRAM: &str = "proc control write cont int
regs int int
INT v1 1
REPEAT 80
DUPW d1 d0
PUT 1 0 any 0 1
ADD v0 v0 v1 +0
END
DROPW d0
RET

proc control val int write cont int
regs int int int
INT v1 80
MUL v0 v0 v1 +0
INT v1 1
REPEAT 80
NEW d1 d2 int
DUPW d3 d0
RULE 3 0 any 3 2
PUT 2 0 any 0 1
ADD v0 v0 v1 +0
END
DROPW d0
RET

proc leaf val int write int
regs int
MUL v0 v0 v0 +0
STORE d0 v0
RET

proc leaf write cont int closed int
regs int
GET v0 d1
INS d0 v0 d1 there
JMP done
there:
DROPR d1
done:
DROPW d0
RET
";

/// Returns the expected report of the long run.
fn wanted(alloc: Global) -> Result<Vec<u8>, AllocError> {
    let mut text = Vec::new(alloc);
    put(&mut text, "out 0 cont int closed 6400\n")?;
    for number in 0..6_400_usize {
        put_numbered(&mut text, "  at ", number.wrapping_mul(number))?;
        put_numbered(&mut text, " int ", number.wrapping_mul(number))?;
        put(&mut text, "\n")?;
    }
    put(&mut text, "quiet\n")?;
    Ok(text)
}

/// Returns the verified program of the long run.
fn program(alloc: Global) -> Option<Verified> {
    let Ok(program) = assemble(alloc, PROGRAM) else {
        return None;
    };
    verify(alloc, program).ok()
}

/// Makes one long run with the greatest layout.
fn run_of<R: Threads + Wait + Clock + Sync>(
    rt: &R,
    alloc: Global,
    verified: &Verified,
) -> Option<Ended> {
    let layout = Layout::new(4, 4, 16).ok()?;
    run_in_threads(rt, alloc, verified, &[], layout, 1_000_000)
}

/// Returns whether `runs` runs have the expected report, each with at least 100,000 events.
pub fn runs_agree<R: Threads + Wait + Clock + Sync>(rt: &R, alloc: Global, runs: u8) -> bool {
    let Some(verified) = program(alloc) else {
        return false;
    };
    let Ok(wanted) = wanted(alloc) else {
        return false;
    };
    let mut agree = true;
    for _run in 0..runs {
        agree &= match run_of(rt, alloc, &verified) {
            Some(run) => run.events.len() >= 100_000 && run.text.as_slice() == wanted.as_slice(),
            None => false,
        };
    }
    agree
}
