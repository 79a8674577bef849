//! Runs the cases of hosts and pools, one on each line of its input. Prints each case whose output differs from the expected one, and how many passed.
//!
//! `tw_case_lines` has the form of a case, and `kinds` has the kinds of cases.
#![tactic(auto)]

mod courses;
mod drives;
mod given;
mod hosts;
mod kinds;
mod reports;
mod scarce_pools;
mod stops;
mod tables;
mod threads;
mod unthreaded;
mod woken;

use crate::kinds::case_text;
use std::alloc::AllocError;
use std::io;
use std::sync::Wait;
use std::thread::Threads;
use std::time::Clock;
use tw_case_lines::{Book, Line, read_line};

/// Executes a line of the cases of hosts. Returns what is to be printed.
fn play_line<H: AllocGlobal + Threads + Wait + Clock + Sync>(
    rt: &H,
    book: &mut Book,
    line: &str,
) -> Result<Option<String>, AllocError> {
    match read_line(rt.alloc(), book, line)? {
        Line::Done => Ok(None),
        Line::Faulty(printed) => Ok(Some(printed)),
        Line::Case(case) => {
            let came = case_text(rt, book, case.fields);
            case.judged(rt.alloc(), book, came)
        }
    }
}

/// Executes the lines of the cases of hosts on standard input, and prints how many are as expected.
fn main(rt: HostRuntime) -> io::Result<()> {
    let mut book = Book::new(rt.alloc());
    for line in rt.lines(rt.alloc()) {
        let line = line?;
        if let Some(text) = play_line(&rt, &mut book, line.as_str())? {
            println!(rt; "{text}")?;
        }
    }
    let cases = book.as_wanted();
    println!(rt; "{cases} cases as wanted")?;
    Ok(())
}
