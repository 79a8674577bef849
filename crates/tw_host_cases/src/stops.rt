//! Cases of pools and hosts that are stopped.

use crate::courses::Course;
use crate::given::Given;
use crate::hosts::{Ran, run_both};
use crate::tables::{Said, over};
use std::alloc::Global;
use std::sync::Wait;
use tw_case_lines::{Complaint, Text};
use tw_pool::History;
use tw_verify::Verified;

/// Returns whether the events of a run are a prefix of another run's.
fn is_beginning(history: &History, whole: &History) -> bool {
    let mut is_so = history.len() <= whole.len();
    for index in 0..history.len() {
        is_so &= index < whole.len() && history.event(index) == whole.event(index);
    }
    is_so
}

/// Returns whether the events of a run that may have been stopped are a prefix of the whole run's, and each result after the stop is why the run is
/// over.
fn is_stopped_well(ran: &Ran, whole: &History) -> bool {
    let closing = ran.left.closing().map(over);
    let wanted = if ran.history.len() == whole.len() {
        Said::Quiet
    } else {
        Said::Stopped
    };
    let is_consistent = ran.talk.is_one
        && (ran.talk.last_said.is_none() || ran.talk.last_said == closing);
    is_consistent && closing == Some((wanted, 0)) && is_beginning(&ran.history, whole)
}

/// Stops a run after this many steps. Returns how many events it has, and whether it was stopped before its end.
fn stopped_after<R: Wait>(
    rt: &R,
    alloc: Global,
    bytes: &[u8],
    verified: &Verified,
    given: &Given,
    whole: &History,
    turns: u64,
) -> Result<(usize, bool), Complaint> {
    let ran = run_both(rt, alloc, bytes, verified, given, Course::Rounds(turns))?;
    if is_stopped_well(&ran, whole) {
        Ok((ran.history.len(), ran.talk.last_said.is_some()))
    } else {
        Err(Complaint::StopDiffers)
    }
}

/// Stops runs after 0, 1, 2 .. steps, until one isn't stopped. Returns how many events the whole run has, and how many different prefixes of them the
/// runs have.
fn beginnings_text<R: Wait>(
    rt: &R,
    alloc: Global,
    bytes: &[u8],
    verified: &Verified,
    given: &Given,
    whole: &History,
) -> Result<String, Complaint> {
    let (mut last, mut prefixes) = (0, 1_u64);
    for turns in 0..1_000 {
        let (events, is_stopped) = stopped_after(rt, alloc, bytes, verified, given, whole, turns)?;
        if events < last {
            return Err(Complaint::StopDiffers);
        }
        prefixes = prefixes.wrapping_add(u64::from(events != last));
        last = events;
        if !is_stopped {
            let mut text = Text::new(alloc);
            text.number("", last as u64);
            text.number(" events, ", prefixes);
            text.put(" beginnings");
            return text.into_line();
        }
    }
    Err(Complaint::Endless)
}

/// Like `beginnings_text`, but makes the whole run first.
pub fn stops_text<R: Wait>(
    rt: &R,
    alloc: Global,
    bytes: &[u8],
    verified: &Verified,
    given: &Given,
) -> Result<String, Complaint> {
    let whole = run_both(rt, alloc, bytes, verified, given, Course::Rounds(u64::MAX))?;
    beginnings_text(rt, alloc, bytes, verified, given, &whole.history)
}
