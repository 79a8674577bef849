//! Cases of commands in documents, with their output.

use crate::sessions::ended;
use crate::words::read_words;
use std::fs;
use std::rt::Files;
use std::sync::Wait;
use std::thread::Threads;
use std::time::Clock;
use tw_case_lines::{Complaint, Text};

/// Returns how many commands of a file print what is below them; or the first that prints something else.
pub fn shown_text<H: AllocGlobal + Files + Threads + Wait + Clock + Sync>(
    rt: &H,
    file: &str,
) -> Result<String, Complaint> {
    let text = fs::read_to_string(rt, file)?;
    let mut commands = 0u64;
    for shown in text.as_str().split("$ ./tw ").skip(1) {
        let (command, wanted) = shown.split_once('\n').unwrap_or((shown, ""));
        let printed = printed(rt, command)?;
        if printed.as_str() != wanted {
            return Ok(format!(in rt.alloc(); "{command} printed {printed}")?);
        }
        commands = commands.saturating_add(1);
    }
    let mut text = Text::new(rt.alloc());
    text.number("", commands);
    text.put(" as shown");
    text.into_line()
}

/// Returns the output of the last session of a pipe. Each reads a file, or the output of the one before.
fn printed<H: AllocGlobal + Files + Threads + Wait + Clock + Sync>(
    rt: &H,
    command: &str,
) -> Result<String, Complaint> {
    let mut written = Vec::new(rt.alloc());
    for part in command.split(" | ./tw ") {
        written = played(rt, part, written)?;
    }
    String::from_utf8(written).map_err(|_| Complaint::WrittenBytes)
}

/// Returns the output of a session of a shown command that reads a file, if it names one, or these bytes.
fn played<H: AllocGlobal + Files + Threads + Wait + Clock + Sync>(
    rt: &H,
    part: &str,
    before: Vec<u8>,
) -> Result<Vec<u8>, Complaint> {
    let (words, input) = match part.split_once(" < ") {
        Some((words, file)) => (words, fs::read(rt, file)?),
        None => (part, before),
    };
    let words = read_words(rt.alloc(), words.replace(rt.alloc(), "'", "")?.as_str())?;
    let (_, _, written) = ended(rt, words.as_slice(), input.as_slice());
    Ok(written)
}
