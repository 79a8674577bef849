//! Cases of pools and hosts that one thread runs, step by step.

ghost use Rattle.std.specs.Prelude.{◌≡◌};
ghost use Rattle.tw_host.specs.Seats.{actor_count};

use crate::courses::{Course, Talk, turned};
use crate::given::Given;
use crate::reports::put_report;
use crate::tables::{Pooled, Seated, over};
use std::alloc::Global;
use std::marker::Brand;
use std::sync::Wait;
use std::sync::ledger::Blank;
use tw_case_lines::{Complaint, Text, replay_all};
use tw_host::{Closed, Host, Named};
use tw_pool::{Events, Final, History, Pool};
use tw_types::{Actor, Event, Input, Layout};
use tw_verify::Verified;

/// A run that is over: the results of its steps, its events, and its end.
#[derive(Drop)]
pub struct Ran {
    pub talk: Talk,
    pub history: History,
    pub left: Final,
}

/// Opens two pools of one program, with the inputs and with the others.
fn open_pools<'a, N: Named>(
    alloc: Global,
    verified: &'a Verified,
    given: &'a Given,
) -> Result<(Pooled<'a, N>, Pooled<'a, N>), Complaint>
    requires { N.run.program ≡ verified.now }
{
    let inputs = given.inputs.as_slice();
    let Ok(pool) = Pool::open(alloc, verified, inputs, given.layout, given.limit) else {
        return Err(Complaint::NotOpened);
    };
    let first = Pooled::<N>::new(pool);
    let others = given.others.as_slice();
    match Pool::open(alloc, verified, others, given.layout, given.limit) {
        Ok(pool) => Ok((first, Pooled::<N>::new(pool))),
        Err(_) => {
            let _ends = first.shut();
            Err(Complaint::NotOpened)
        }
    }
}

/// Runs a course on a pool, beside a second one. Returns the results, the events and the remains.
fn run_pool<'a, N: Named, R: Wait>(
    rt: &R,
    alloc: Global,
    verified: &'a Verified,
    given: &'a Given,
    course: Course<'_>,
) -> Result<Ran, Complaint>
    requires { N.run.program ≡ verified.now }
{
    let (mut first, mut second) = open_pools::<N>(alloc, verified, given)?;
    let talk = turned(rt, alloc, &mut first, &mut second, given.layout, course);
    let _ends = second.shut();
    let (left, history) = first.shut();
    Ok(Ran {
        talk,
        history,
        left,
    })
}

/// Opens a host with these inputs.
fn open_host<'a, M: Named, N: Named>(
    alloc: Global,
    blank: Blank,
    verified: &'a Verified,
    inputs: &'a [Input],
    layout: Layout,
    limit: usize,
) -> Result<Seated<'a, M, N>, Complaint>
    requires ledger { (blank.name ≡ M.name) × (blank.parts ≡ M.parts) × (blank.parts ≡ actor_count layout) }
    requires run { M.run ≡ record { program = verified.now; inputs = inputs.now; layout = layout; limit = limit } }
    requires same { N.run.program ≡ verified.now }
{
    match Host::<M>::open(alloc, blank, verified, inputs, layout, limit) {
        Ok((host, seats)) => Ok(Seated::<M, N>::new(host, seats)),
        Err(_) => Err(Complaint::NotOpened),
    }
}

/// Opens two hosts of one program, with the inputs and with the others.
fn open_hosts<'a, N: Named, M: Named>(
    alloc: Global,
    blank: Blank,
    second: Blank,
    verified: &'a Verified,
    given: &'a Given,
) -> Result<(Seated<'a, N, N>, Seated<'a, M, N>), Complaint>
    requires ledger { (blank.name ≡ N.name) × (blank.parts ≡ N.parts) × (blank.parts ≡ actor_count given.now.layout) }
    requires run { N.run ≡ record { program = verified.now; inputs = given.now.inputs.items; layout = given.now.layout; limit = given.now.limit } }
    requires second_ledger { (second.name ≡ M.name) × (second.parts ≡ M.parts) × (second.parts ≡ actor_count given.now.layout) }
    requires second_run { M.run ≡ record { program = verified.now; inputs = given.now.others.items; layout = given.now.layout; limit = given.now.limit } }
{
    let (layout, limit) = (given.layout, given.limit);
    let inputs = given.inputs.as_slice();
    let first = open_host::<N, N>(alloc, blank, verified, inputs, layout, limit)?;
    let others = given.others.as_slice();
    match open_host::<M, N>(alloc, second, verified, others, layout, limit) {
        Ok(second) => Ok((first, second)),
        Err(complaint) => {
            let _end = first.close();
            Err(complaint)
        }
    }
}

/// Runs a host, and returns its output and the events that were reported to each seat.
fn run_host<'a, N: Named, M: Named, R: Wait>(
    rt: &R,
    alloc: Global,
    blank: Blank,
    second: Blank,
    verified: &'a Verified,
    given: &'a Given,
    course: Course<'_>,
) -> Result<Text, Complaint>
    requires ledger { (blank.name ≡ N.name) × (blank.parts ≡ N.parts) × (blank.parts ≡ actor_count given.now.layout) }
    requires run { N.run ≡ record { program = verified.now; inputs = given.now.inputs.items; layout = given.now.layout; limit = given.now.limit } }
    requires second_ledger { (second.name ≡ M.name) × (second.parts ≡ M.parts) × (second.parts ≡ actor_count given.now.layout) }
    requires second_run { M.run ≡ record { program = verified.now; inputs = given.now.others.items; layout = given.now.layout; limit = given.now.limit } }
{
    let (mut first, mut second) = open_hosts::<N, M>(alloc, blank, second, verified, given)?;
    let Talk { mut text, .. } = turned(rt, alloc, &mut first, &mut second, given.layout, course);
    let _end = second.close();
    let late = first.missed_wakes(rt);
    first.reorder(given.order);
    put_closed(&mut text, &first.close());
    put_late(&mut text, late);
    Ok(text)
}

/// Adds how many wakes a course's host lost, if any.
fn put_late(text: &mut Text, late: u64) {
    if late != 0 {
        text.number("late wakes ", late);
    }
}

/// Adds how a host closed, and then the events that were reported to each seat.
fn put_closed(text: &mut Text, closed: &Closed) {
    match closed {
        Closed::Ended {
            history,
            outcome,
            by_seat,
        } => {
            put_left(text, outcome, history);
            for events in by_seat {
                put_reported(text, events);
            }
        }
        Closed::Differs { .. } => text.put("a seat has other events"),
    }
}

/// Adds what a course's run left: why it is over, its report, and its events.
fn put_left(text: &mut Text, left: &Final, history: &History) {
    if let Some(closing) = left.closing() {
        let (said, number) = over(closing);
        text.number(said.words(), number);
    }
    text.put("\nreport\n");
    put_report(text, left);
    text.put("events\n");
    put_events(text, history, None);
}

/// Adds the events that were reported to a seat.
fn put_reported(text: &mut Text, events: &Events) {
    text.put("a seat\n");
    for index in 0..events.len() {
        text.event(&events.event(index));
    }
}

/// Adds the events of a course's run, or only those of one actor.
pub fn put_events(text: &mut Text, history: &History, actor: Option<Actor>) {
    for index in 0..history.len() {
        let event = history.event(index);
        if actor.is_none_or(|actor| maker(event) == actor) {
            text.event(&event);
        }
    }
}

/// Returns the actor that made an event of a course's run.
fn maker(event: Event) -> Actor {
    match event {
        Event::Take(actor) | Event::Local(actor, _) | Event::Call(actor) | Event::End(actor) => {
            actor
        }
        Event::Ask(engine, _, _) | Event::Release(engine, _) => Actor::Engine(engine),
        Event::Deliver(server, _, _, _) => Actor::Server(server),
    }
}

/// Returns the expected output of a host, from a pool with the same steps: each seat has its actor's events, in the order of the actors.
fn wanted(alloc: Global, pool: &Ran, layout: Layout) -> Text {
    let mut text = Text::new(alloc);
    text.add(&pool.talk.text);
    put_left(&mut text, &pool.left, &pool.history);
    for seat in 0..layout.actor_count() {
        text.put("a seat\n");
        put_events(&mut text, &pool.history, Some(layout.actor_at(seat)));
    }
    text
}

/// Returns the output of a host.
fn host_text<R: Wait>(
    rt: &R,
    alloc: Global,
    verified: &Verified,
    given: &Given,
    course: Course<'_>,
) -> Result<Text, Complaint> {
    let blank = Blank::new(given.layout.actor_count() as u64);
    let second = Blank::new(given.layout.actor_count() as u64);
    run_host::<Brand, Brand, R>(rt, alloc, blank, second, verified, given, course)
}

/// Replays the events of a run on the reference machine. Returns an error if it doesn't make them all.
pub fn steps_history(
    alloc: Global,
    bytes: &[u8],
    given: &Given,
    history: &History,
) -> Result<(), Complaint> {
    let mut events = Vec::new(alloc);
    for index in 0..history.len() {
        events.push(history.event(index))?;
    }
    let inputs = given.inputs.as_slice();
    replay_all(alloc, bytes, inputs, given.layout, events.as_slice())
}

/// Checks that a pool completed its steps, that the host has the same output, and that the reference machine makes all events.
fn agree(
    alloc: Global,
    bytes: &[u8],
    given: &Given,
    pool: &Ran,
    host: &Text,
) -> Result<(), Complaint> {
    if let Some(complaint) = pool.talk.complaint {
        return Err(complaint);
    }
    if !host.is(&wanted(alloc, pool, given.layout)) {
        return Err(Complaint::HostDiffers);
    }
    steps_history(alloc, bytes, given, &pool.history)
}

/// Runs a course on a pool and on a host. Returns the pool's run if both agree, and the reference machine makes all events.
pub fn run_both<R: Wait>(
    rt: &R,
    alloc: Global,
    bytes: &[u8],
    verified: &Verified,
    given: &Given,
    course: Course<'_>,
) -> Result<Ran, Complaint> {
    let host = host_text(rt, alloc, verified, given, course)?;
    let pool = run_pool::<Brand, R>(rt, alloc, verified, given, course)?;
    match agree(alloc, bytes, given, &pool, &host) {
        Ok(()) => Ok(pool),
        Err(complaint) => Err(complaint),
    }
}

/// Returns the output of a case of steps: the results of a script's steps, each with its events.
pub fn turns_text<R: Wait>(
    rt: &R,
    alloc: Global,
    bytes: &[u8],
    verified: &Verified,
    given: &Given,
    script: &str,
) -> Result<String, Complaint> {
    let ran = run_both(rt, alloc, bytes, verified, given, Course::Script(script))?;
    ran.talk.text.into_line()
}

/// Returns the output of a case in rounds: how many events the run has, and its report.
pub fn rounds_text<R: Wait>(
    rt: &R,
    alloc: Global,
    bytes: &[u8],
    verified: &Verified,
    given: &Given,
) -> Result<String, Complaint> {
    let ran = run_both(rt, alloc, bytes, verified, given, Course::Rounds(u64::MAX))?;
    let mut text = Text::new(alloc);
    text.number("", ran.history.len() as u64);
    text.put(" events\n");
    put_report(&mut text, &ran.left);
    text.into_line()
}
