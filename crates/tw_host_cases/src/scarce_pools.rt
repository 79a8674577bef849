//! Cases of pools that one thread runs and that are short of memory.

ghost use Rattle.std.specs.Prelude.{◌≡◌};

use crate::courses::{MOST, PLACES, actor_at};
use crate::given::Given;
use crate::reports::put_report;
use crate::tables::{Pooled, Said, Table};
use std::alloc::Global;
use std::marker::Brand;
use std::sync::Wait;
use tw_case_lines::{Complaint, Hoard, Text};
use tw_host::Named;
use tw_pool::{OpenError, Pool};
use tw_types::{Actor, Layout};
use tw_verify::Verified;

/// The reaction to a failed allocation: the step is repeated with more memory, or the run is closed at once.
#[derive(Clone, Copy, PartialEq, Eq)]
enum AtRejection {
    Again,
    Shut,
}

/// The result of an actor's steps.
#[derive(Clone, Copy, PartialEq, Eq)]
enum Came {
    /// The pool isn't opened, because an allocation failed.
    Unopened,
    Idle,
    Over,
    Refused,
    Astray,
}

/// Whether an allocation failed so far, and what is done then.
#[derive(Drop)]
struct Lack<'h> {
    hoard: &'h mut Hoard,
    at_rejection: AtRejection,
    is_met: bool,
}

/// Makes an actor's steps with scarce memory until it is idle or the run is over.
fn turn_on<K: Drop, T: Table<K>, R: Wait>(
    rt: &R,
    alloc: Global,
    table: &mut T,
    lack: &mut Lack<'_>,
    actor: Actor,
) -> Came {
    let mut kept = None;
    for _ in 0..MOST {
        let before = table.count(actor);
        let Some(answer) = table.turn(rt, alloc, actor, &mut kept) else {
            return Came::Astray;
        };
        let is_refused = answer.said == Said::NoMemory;
        if is_refused && table.count(actor) != before {
            return Came::Astray;
        }
        if is_refused || answer.is_short {
            lack.is_met = true;
            if lack.at_rejection == AtRejection::Shut {
                return Came::Refused;
            }
            lack.hoard.relieve();
        }
        if answer.said.is_over() {
            return Came::Over;
        }
        if answer.said == Said::Idle {
            return Came::Idle;
        }
        if !is_refused && !answer.said.goes_on() {
            return Came::Astray;
        }
    }
    Came::Astray
}

/// Makes rounds with scarce memory, a step of each actor, until the run is over for all.
fn turn_rounds<K: Drop, T: Table<K>, R: Wait>(
    rt: &R,
    alloc: Global,
    table: &mut T,
    lack: &mut Lack<'_>,
    layout: Layout,
) -> Came {
    for _ in 0..MOST {
        let mut all = Came::Over;
        for place in 0..PLACES {
            if let Some(actor) = actor_at(layout, place) {
                match turn_on(rt, alloc, table, lack, actor) {
                    Came::Over => {}
                    Came::Idle => all = Came::Idle,
                    other => return other,
                }
            }
        }
        if all == Came::Over {
            return all;
        }
    }
    Came::Astray
}

/// Runs a pool with `bytes` bytes of memory, and adds its report.
fn run_with<'a, N: Named, R: Wait>(
    rt: &R,
    alloc: Global,
    verified: &'a Verified,
    given: &'a Given,
    lack: &mut Lack<'_>,
    bytes: usize,
    text: &mut Text,
) -> Came
    requires { N.run.program ≡ verified.now }
{
    if lack.hoard.leave(alloc, bytes).is_err() {
        return Came::Astray;
    }
    let inputs = given.inputs.as_slice();
    match Pool::open(alloc, verified, inputs, given.layout, given.limit) {
        Ok(pool) => {
            let mut table = Pooled::<N>::new(pool);
            let came = turn_rounds(rt, alloc, &mut table, lack, given.layout);
            let (left, _history) = table.shut();
            lack.hoard.relieve();
            put_report(text, &left);
            came
        }
        Err(OpenError::NoMemory) => {
            lack.is_met = true;
            lack.hoard.relieve();
            Came::Unopened
        }
        Err(_) => Came::Astray,
    }
}

/// Runs a pool with more and more memory, up to the first run in which no allocation fails. Returns whether each has this report,
/// or is closed early and can be read.
fn agree<R: Wait>(
    rt: &R,
    alloc: Global,
    hoard: &mut Hoard,
    verified: &Verified,
    given: &Given,
    at_rejection: AtRejection,
    whole: &Text,
) -> bool {
    for step in 0..20_000_usize {
        let mut lack = Lack {
            hoard: &mut *hoard,
            at_rejection,
            is_met: false,
        };
        let mut text = Text::new(alloc);
        let bytes = step.wrapping_mul(64);
        let came = run_with::<Brand, R>(rt, alloc, verified, given, &mut lack, bytes, &mut text);
        let agrees = match came {
            Came::Unopened => true,
            Came::Over => text.is(whole),
            Came::Refused => text.has_between("out 0 ", "\nrunning\n"),
            Came::Idle | Came::Astray => false,
        };
        if !agrees || !lack.is_met {
            return agrees && step > 0;
        }
    }
    false
}

/// Returns the report of a run in rounds with enough memory. The text is lost if the run doesn't end.
fn whole_of<R: Wait>(
    rt: &R,
    alloc: Global,
    hoard: &mut Hoard,
    verified: &Verified,
    given: &Given,
) -> Text {
    let mut lack = Lack {
        hoard,
        at_rejection: AtRejection::Again,
        is_met: false,
    };
    let mut whole = Text::new(alloc);
    let came = run_with::<Brand, R>(rt, alloc, verified, given, &mut lack, 1 << 24, &mut whole);
    if came != Came::Over {
        whole.lose();
    }
    whole
}

/// Returns the report of a run in rounds; and whether runs with less memory have the same report if failed steps are repeated, and can be read if
/// they are closed.
pub fn scarce_pool_text<R: Wait>(
    rt: &R,
    alloc: Global,
    verified: &Verified,
    given: &Given,
) -> Result<String, Complaint> {
    let mut hoard = Hoard::new(alloc)?;
    let mut text = whole_of(rt, alloc, &mut hoard, verified, given);
    let goes = agree(
        rt,
        alloc,
        &mut hoard,
        verified,
        given,
        AtRejection::Again,
        &text,
    );
    let is_read = agree(
        rt,
        alloc,
        &mut hoard,
        verified,
        given,
        AtRejection::Shut,
        &text,
    );
    text.put(if goes && is_read {
        "made again, and shut"
    } else {
        "or something else"
    });
    text.into_line()
}
