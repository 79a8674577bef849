//! Runs a case by its kind. README.md has the table of kinds. The `match` is split, since a function may have few exits.

use crate::drives::drives_text;
use crate::given::{Given, read_given};
use crate::hosts::{rounds_text, turns_text};
use crate::scarce_pools::scarce_pool_text;
use crate::stops::stops_text;
use crate::threads::threads_text;
use crate::unthreaded::unthreaded_text;
use crate::woken::{SLOW, woken_text};
use std::sync::Wait;
use std::thread::Threads;
use std::time::Clock;
use tw_case_lines::{Book, Complaint, first_field, read_bytes, read_verified};
use tw_verify::Verified;

/// Runs a case of hosts, and returns its output. The fields are KIND WORDS, a program's bytes, and perhaps a script.
pub fn case_text<H: AllocGlobal + Threads + Wait + Clock + Sync>(
    rt: &H,
    book: &Book,
    fields: &str,
) -> Result<String, Complaint> {
    let (first, given) = first_field(fields);
    let (bytes, script) = first_field(given);
    let (kind, words) = split_kind(first);
    let given = read_given(rt.alloc(), words)?;
    let bytes = read_bytes(rt.alloc(), book, bytes)?;
    let verified = read_verified(rt.alloc(), bytes.as_slice())?;
    let bytes = bytes.as_slice();
    match kind {
        "turns" | "rounds" | "stops" => {
            stepwise_text(rt, kind, bytes, &verified, &given, script)
        }
        _ => run_text(rt, kind, bytes, &verified, &given),
    }
}

/// Returns the kind of a case of hosts with the first of its words, if several kinds have one name, and its layout and inputs.
fn split_kind(first: &str) -> (&str, &str) {
    for kind in ["threads held", "woken slow"] {
        if let Some(words) = first.strip_prefix(kind) {
            return (kind, words.trim());
        }
    }
    match first {
        // `drives` needs an actor of each kind.
        "drives" | "drives stopped" => (first, "1 1 1"),
        _ => first.split_once(' ').unwrap_or((first, "")),
    }
}

/// Runs a case of steps, of a pool and of a host.
fn stepwise_text<H: AllocGlobal + Wait>(
    rt: &H,
    kind: &str,
    bytes: &[u8],
    verified: &Verified,
    given: &Given,
    script: &str,
) -> Result<String, Complaint> {
    match kind {
        "turns" => turns_text(rt, rt.alloc(), bytes, verified, given, script),
        "rounds" => rounds_text(rt, rt.alloc(), bytes, verified, given),
        // `stops`
        _ => stops_text(rt, rt.alloc(), bytes, verified, given),
    }
}

/// Runs a case of hosts that makes a whole run: in threads, with scarce memory, or seat by seat.
fn run_text<H: AllocGlobal + Threads + Wait + Clock + Sync>(
    rt: &H,
    kind: &str,
    bytes: &[u8],
    verified: &Verified,
    given: &Given,
) -> Result<String, Complaint> {
    match kind {
        "threads" => threads_text(rt, verified, given, false),
        "threads held" => threads_text(rt, verified, given, true),
        "woken" => woken_text(rt, verified, given, 0),
        "woken slow" => woken_text(rt, verified, given, SLOW),
        "unthreaded" => unthreaded_text(rt, bytes, verified, given),
        "scarce_pool" => scarce_pool_text(rt, rt.alloc(), verified, given),
        "drives" => drives_text(rt, rt.alloc(), verified, given, false),
        "drives stopped" => drives_text(rt, rt.alloc(), verified, given, true),
        _ => Err(Complaint::UnknownKind),
    }
}
