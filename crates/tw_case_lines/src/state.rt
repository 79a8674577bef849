//! The state of the reference machine as a text.

use crate::programs::put_type;
use crate::text::Text;
use crate::waiting::put_waiting;
use tw_machine::{Datum, Frame, State};
use tw_types::{Actor, DatumId, Ending, Value};

/// Adds how the run ended, the running tasks, what waits, the outputs, and the data with ids 1 to 99, a line each.
pub fn put_state(text: &mut Text, state: &State) {
    match state.ending() {
        Some(Ending::Quiet) => text.put("quiet\n"),
        Some(Ending::Stuck(rules)) => {
            text.number("stuck ", rules);
            text.put("\n");
        }
        None => {}
    }
    for number in 0..4_u8 {
        put_frame(text, "e", number, state.frame(Actor::Engine(number)));
    }
    for number in 0..16_u8 {
        put_frame(text, "w", number, state.frame(Actor::Worker(number)));
    }
    put_waiting(text, state);
    put_data(text, state);
}

/// Adds the line of a running task to a case's output: its actor, task, procedure, place and count.
fn put_frame(text: &mut Text, kind: &str, number: u8, frame: Option<&Frame>) {
    if let Some(frame) = frame {
        text.number(kind, u64::from(number));
        text.number(" task ", frame.task().number());
        text.number(" procedure ", u64::from(frame.procedure()));
        text.number(" place ", frame.place() as u64);
        text.number(" spent ", frame.spent());
        text.put("\n");
    }
}

/// Adds the outputs' ids to a case's output, and a line for each live datum.
fn put_data(text: &mut Text, state: &State) {
    text.put("outputs");
    for id in state.outputs() {
        text.number(" d", id.number());
    }
    text.put("\n");
    for number in 1..100_u64 {
        if let Some(datum) = state.datum(DatumId::new(number)) {
            put_datum(text, number, datum);
        }
    }
}

/// Adds a datum to a case's output, such as `d1 int 7 reads 1 writes 0 closed`.
fn put_datum(text: &mut Text, number: u64, datum: &Datum) {
    text.number("d", number);
    text.put(" ");
    put_type(text, datum.ty());
    put_content(text, datum);
    text.number(" reads ", datum.reads());
    text.number(" writes ", datum.writes());
    text.put(if datum.closed() {
        " closed\n"
    } else {
        " open\n"
    });
}

/// Adds the content of a datum to a case's output: a value, or members by rising subscript, such as ` members 2 at -3 d5 at 8 d4`.
fn put_content(text: &mut Text, datum: &Datum) {
    if datum.ty().depth() == 0 {
        match datum.value() {
            Some(value) => put_value(text, value),
            None => text.put(" unset"),
        }
        return;
    }
    text.number(" members ", datum.len() as u64);
    for index in 0..datum.len() {
        if let Some((subscript, member)) = datum.entry(index) {
            text.put(" at");
            put_value(text, subscript);
            text.number(" d", member.number());
        }
    }
}

/// Adds a space and a value to a case's output.
pub fn put_value(text: &mut Text, value: &Value) {
    text.put(" ");
    match value {
        Value::Int(number) => text.display(number),
        Value::Text(word) => text.debug(&word.as_str()),
    }
}
