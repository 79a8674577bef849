//! Runs a case by its kind. README.md has the table of kinds. The `match` is split, since a function may have few exits.

use crate::named::{alike_text, names_text, renamed_text};
use crate::programs::{decode_text, prefixes_text, verify_text};
use crate::scarce::scarce_text;
use crate::sessions::{
    called_text, cuts_text, ends_text, errors_text, phrases_text, read_input, tw_text,
};
use crate::shown::shown_text;
use crate::streams::stream_text;
use crate::words::read_words;
use std::alloc::Global;
use std::rt::Files;
use std::sync::Wait;
use std::thread::Threads;
use std::time::Clock;
use tw_case_lines::{
    Book, Complaint, first_field, layout_text, machine_text, open_text, part_text, read_bytes,
    state_text, steps_text,
};

/// Runs a case of the command or the library, and returns its output. The fields are KIND WORDS, then what the kind reads: input,
/// bytes, events.
pub fn case_text<H: AllocGlobal + Files + Threads + Wait + Clock + Sync>(
    rt: &H,
    book: &Book,
    fields: &str,
) -> Result<String, Complaint> {
    let (first, given) = first_field(fields);
    let (kind, words) = first.split_once(' ').unwrap_or((first, ""));
    match kind {
        "tw" | "called" | "ends" | "scarce" | "cuts" => session_kind(rt, book, kind, words, given),
        "stream" => stream_kind(rt, book, words, given),
        "phrases" => phrases_text(rt, words, given),
        "errors" => errors_text(rt, words),
        "shown" => shown_text(rt, given),
        "layout" => layout_text(rt.alloc(), given),
        "names" => names_text(rt.alloc(), given),
        "alike" => alike_text(rt, given),
        "renamed" => renamed_text(rt.alloc(), given),
        _ => {
            // All other kinds begin with a program's bytes.
            let (bytes, rest) = first_field(given);
            let bytes = read_bytes(rt.alloc(), book, bytes)?;
            program_kind(rt.alloc(), kind, words, bytes.as_slice(), rest)
        }
    }
}

/// Runs a case of sessions. Those of `called`, `scarce` and `cuts` run several.
fn session_kind<H: AllocGlobal + Threads + Wait + Clock + Sync>(
    rt: &H,
    book: &Book,
    kind: &str,
    words: &str,
    input: &str,
) -> Result<String, Complaint> {
    let words = read_words(rt.alloc(), words)?;
    let input = read_input(rt.alloc(), book, input)?;
    let (words, input) = (words.as_slice(), input.as_slice());
    match kind {
        "tw" => tw_text(rt, words, input),
        "called" => called_text(rt, words, input),
        "ends" => ends_text(rt, words, input),
        "scarce" => scarce_text(rt, words, input),
        // `cuts`
        _ => cuts_text(rt, words, input),
    }
}

/// Runs a case of a session whose streams are of the kind that the first word names.
fn stream_kind<H: AllocGlobal + Threads + Wait + Clock + Sync>(
    rt: &H,
    book: &Book,
    words: &str,
    input: &str,
) -> Result<String, Complaint> {
    let (streams, words) = words.split_once(' ').unwrap_or((words, ""));
    let words = read_words(rt.alloc(), words)?;
    let input = read_input(rt.alloc(), book, input)?;
    stream_text(rt, streams, words.as_slice(), input.as_slice())
}

/// Runs a case with a program's bytes, then perhaps events.
fn program_kind(
    alloc: Global,
    kind: &str,
    words: &str,
    bytes: &[u8],
    rest: &str,
) -> Result<String, Complaint> {
    match kind {
        "machine" => machine_text(alloc, words, bytes, rest),
        "state" => state_text(alloc, words, bytes, rest),
        "steps" => steps_text(alloc, words, bytes, rest),
        _ => static_kind(alloc, kind, words, bytes, rest),
    }
}

/// Runs a case of the command or the library that doesn't execute its program.
fn static_kind(
    alloc: Global,
    kind: &str,
    words: &str,
    bytes: &[u8],
    rest: &str,
) -> Result<String, Complaint> {
    if !rest.is_empty() {
        return Err(Complaint::ExtraField);
    }
    match kind {
        "decode" => decode_text(alloc, bytes),
        "prefixes" => prefixes_text(alloc, bytes),
        "verify" => verify_text(alloc, bytes),
        "open" => open_text(alloc, words, bytes),
        "part" => part_text(alloc, words, bytes),
        _ => Err(Complaint::UnknownKind),
    }
}
