//! Cases of the reference machine.

ghost use Rattle.std.specs.Prelude.{IfOk};
ghost use Rattle.tw_code.specs.machine.Bounds.{AreBelow, opening_bound};

use crate::complaint::Complaint;
use crate::events::read_events;
use crate::layouts::{layout_of, put_layout, read_layout};
use crate::play::{Course, played};
use crate::programs::{read_program, with_bytes};
use crate::state::put_state;
use crate::text::Text;
use std::alloc::Global;
use tw_inputs::input_of;
use tw_machine::{Plain, Stopped};
use tw_types::{Actor, Event, Input, Layout};

/// Opens the reference machine of a program with the words of a case: a layout, and inputs after `with`.
fn opened(alloc: Global, words: &str, bytes: &[u8]) -> Result<Plain, Complaint>
    ensures { IfOk result (λ plain. AreBelow opening_bound plain.state) }
{
    let (layout, inputs) = words.split_once("with").unwrap_or((words, ""));
    let layout = read_layout(layout.trim())?;
    let inputs = read_inputs(alloc, inputs)?;
    let program = read_program(alloc, bytes)?;
    match Plain::open(alloc, program, inputs.as_slice(), layout) {
        Ok(plain) => Ok(plain),
        Err(_) => Err(Complaint::NotOpened),
    }
}

/// Opens the reference machine with the words of a case, and executes its events.
fn run(alloc: Global, words: &str, bytes: &[u8], events: &str) -> Result<Course, Complaint> {
    let events = read_events(alloc, events)?;
    let plain = opened(alloc, words, bytes)?;
    played(alloc, plain, events.as_slice())
}

/// Returns a case's output: a line for each earlier event that failed, and the last event's result.
pub fn machine_text(
    alloc: Global,
    words: &str,
    bytes: &[u8],
    events: &str,
) -> Result<String, Complaint> {
    let course = run(alloc, words, bytes, events)?;
    let mut text = Text::new(alloc);
    match course.answers.as_slice().split_last() {
        Some((last, others)) => {
            put_failures(&mut text, others);
            put_result(&mut text, *last);
            text.into_line()
        }
        None => Err(Complaint::NoEvents),
    }
}

/// Adds a line for each of these events that failed.
fn put_failures(text: &mut Text, results: &[Result<(), Stopped>]) {
    let mut number = 0_u64;
    for result in results {
        number = number.saturating_add(1);
        if result.is_err() {
            text.number("event ", number);
            text.put(" ");
            put_result(text, *result);
        }
    }
}

/// Adds the result of an event of the reference machine: `went`, or why it failed.
fn put_result(text: &mut Text, outcome: Result<(), Stopped>) {
    match outcome {
        Ok(()) => text.put("went\n"),
        Err(Stopped::NotEnabled) => text.put("not enabled\n"),
        Err(Stopped::Trap(cause)) => {
            text.number("trap C", u64::from(cause.number()));
            text.put("\n");
        }
        Err(Stopped::NoMemory) => text.put("no memory\n"),
    }
}

/// Returns a case's output: a line for each event that failed, and the machine's final state.
pub fn state_text(
    alloc: Global,
    words: &str,
    bytes: &[u8],
    events: &str,
) -> Result<String, Complaint> {
    let course = run(alloc, words, bytes, events)?;
    let mut text = Text::new(alloc);
    put_failures(&mut text, course.answers.as_slice());
    put_state(&mut text, course.plain.state());
    text.into_line()
}

/// Returns how many local instructions engine 0 can execute after these events, at most `most`.
pub fn steps_text(
    alloc: Global,
    most: &str,
    bytes: &[u8],
    events: &str,
) -> Result<String, Complaint> {
    let most = most.parse::<u64>()?;
    let course = run(alloc, "", bytes, events)?;
    let steps = local_steps(alloc, &course.plain, most)?;
    Ok(steps.to_string(alloc)?)
}

/// Returns how many local instructions engine 0's frame can execute, or complains that it has none.
fn local_steps(alloc: Global, plain: &Plain, most: u64) -> Result<u64, Complaint> {
    match plain.state().frame(Actor::Engine(0)) {
        Some(frame) => Ok(frame.local_steps(alloc, plain.program().procedures(), most)?),
        None => Err(Complaint::NoFrame),
    }
}

/// Returns `opened` and the layout, or the error. Complains if the program that `Plain::open` returns has other bytes.
pub fn open_text(alloc: Global, inputs: &str, bytes: &[u8]) -> Result<String, Complaint> {
    let layout = layout_of((1, 1, 1))?;
    let inputs = read_inputs(alloc, inputs)?;
    let program = read_program(alloc, bytes)?;
    let mut text = Text::new(alloc);
    match Plain::open(alloc, program, inputs.as_slice(), layout) {
        Ok(plain) => {
            text.put("opened ");
            put_layout(&mut text, plain.layout());
            with_bytes(alloc, text, plain.program(), bytes)
        }
        Err(refused) => {
            text.debug(&refused);
            with_bytes(alloc, text, &refused.program, bytes)
        }
    }
}

/// Executes all events on the machine of a program. Complains if one fails.
pub fn replay_all(
    alloc: Global,
    bytes: &[u8],
    inputs: &[Input],
    layout: Layout,
    events: &[Event],
) -> Result<(), Complaint> {
    let program = read_program(alloc, bytes)?;
    let plain = match Plain::open(alloc, program, inputs, layout) {
        Ok(plain) => plain,
        Err(_) => return Err(Complaint::NotOpened),
    };
    let course = played(alloc, plain, events)?;
    if course.answers.iter().all(|answer| answer.is_ok()) {
        Ok(())
    } else {
        Err(Complaint::MachineDiffers)
    }
}

/// Reads the inputs of a case as `tw run` does.
pub fn read_inputs(alloc: Global, text: &str) -> Result<Vec<Input>, Complaint> {
    let mut inputs = Vec::new(alloc);
    for word in text.split_whitespace() {
        inputs.push(read_input(alloc, word)?)?;
    }
    Ok(inputs)
}

/// Reads one input of a case as `tw run` does, or complains.
fn read_input(alloc: Global, word: &str) -> Result<Input, Complaint> {
    match input_of(alloc, word)? {
        Some(input) => Ok(input),
        None => Err(Complaint::Input),
    }
}
