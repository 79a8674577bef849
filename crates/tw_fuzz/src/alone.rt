//! Runs a program's main alone, once or repeatedly, for `bench/loops` to measure.

use crate::jobs::stretch_of;
use std::alloc::{AllocError, Global};
use std::rt::Env;
use std::{env, io};
use tw_binary::decode;
use tw_verify::{Verified, verify};

/// Returns the program's bytes, which the argument after `steps` has in hex digits, and how often it runs: the next argument, or
/// once.
fn asked_of(rt: &(impl Env + AllocGlobal)) -> io::Result<(Vec<u8>, u32)> {
    let mut words = env::args(rt)?.skip(2);
    let bytes = match words.next() {
        Some(word) => hex::decode(rt.alloc(), word.as_str()).ok(),
        None => None,
    };
    let count = words
        .next()
        .map_or(1, |word| word.as_str().parse::<u32>().unwrap_or(1));
    Ok((bytes.unwrap_or(Vec::new(rt.alloc())), count))
}

/// Runs main's local instructions `count` times, each with its own task, frame and job. Returns the sum of the steps.
fn rounds_alone(alloc: Global, verified: &Verified, count: u32) -> Result<u64, AllocError> {
    let mut steps: u64 = 0;
    for _round in 0..count {
        let Some(stretch) = stretch_of(alloc, verified)? else {
            return Err(AllocError);
        };
        steps = steps.wrapping_add(stretch.steps);
    }
    Ok(steps)
}

/// Prints how many local instructions main executes, for the program and the number of times in the arguments.
pub fn print_steps(rt: &HostRuntime) -> io::Result<()> {
    let (bytes, count) = asked_of(rt)?;
    let Ok(program) = decode(rt.alloc(), &bytes) else {
        return println!(rt; "no program");
    };
    let Ok(verified) = verify(rt.alloc(), program) else {
        return println!(rt; "refused");
    };
    match rounds_alone(rt.alloc(), &verified, count) {
        Ok(steps) => println!(rt; "{steps} steps"),
        Err(_) => println!(rt; "memory"),
    }
}
