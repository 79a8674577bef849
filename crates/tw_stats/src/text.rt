//! The lines of statistics.

use crate::stats::Stats;
use crate::table::Table;
use std::alloc::{AllocError, Global};
use tw_machine::Plain;
use tw_symbols::Symbols;
use tw_types::{Actor, Layout};
use tw_writer::{Piece, Writer};

/// The kinds of events, by their indices.
const KINDS: [&str; 7] = [
    "take ", "local ", "call ", "end ", "ask ", "deliver ", "release ",
];

/// Adds a name and a number, as a line.
fn put_line(out: &mut Writer, name: &str, number: u64) {
    out.put_all(&[
        Piece::Text(name),
        Piece::Number(number as usize),
        Piece::Text("\n"),
    ]);
}

/// Adds the lines of the kinds of events.
fn put_kinds(out: &mut Writer, kinds: &Table) {
    for (kind, name) in KINDS.iter().enumerate() {
        put_line(out, name, kinds.at(kind as u64));
    }
}

/// Adds the line of a procedure: its name if it has one, its tasks, their instructions, the most of one task, and the budget if it is known.
fn put_procedure(
    out: &mut Writer,
    names: &Symbols,
    stats: &Stats,
    number: usize,
    budget: Option<&u64>,
) {
    let key = number as u64;
    out.put_numbered("procedure ", number);
    let done = names.put(&mut out.bytes, number);
    out.note(done);
    out.put_all(&[
        Piece::Text(" tasks "),
        Piece::Number(stats.counts.tasks.at(key) as usize),
        Piece::Text(" instructions "),
        Piece::Number(stats.counts.instructions.at(key) as usize),
        Piece::Text(" most "),
        Piece::Number(stats.most.at(key) as usize),
    ]);
    if let Some(budget) = budget {
        out.put_numbered(" budget ", *budget as usize);
    }
    out.put("\n");
}

/// Adds the line of an actor.
fn put_actor(out: &mut Writer, actor: Actor, events: u64) {
    match actor {
        Actor::Engine(number) => out.put_numbered("actor e", usize::from(number)),
        Actor::Server(number) => out.put_numbered("actor s", usize::from(number)),
        Actor::Worker(number) => out.put_numbered("actor w", usize::from(number)),
    }
    put_line(out, " events ", events);
}

/// Adds the lines of the actors of a layout.
fn put_actors(out: &mut Writer, layout: Layout, actors: &Table) {
    for index in 0..layout.actor_count() {
        put_actor(out, layout.actor_at(index), actors.at(index as u64));
    }
}

impl Stats {
    /// Returns the lines. The names and the budgets are those of the machine's procedures, as far as they are known.
    pub fn text(
        &self,
        alloc: Global,
        plain: &Plain,
        names: &Symbols,
        budgets: &[u64],
    ) -> Result<Vec<u8>, AllocError> {
        let mut text = Writer::new(alloc);
        text.put("numbers\n");
        put_line(&mut text, "events ", self.counts.events);
        put_kinds(&mut text, &self.counts.kinds);
        for number in 0..plain.program().procedures().len() {
            put_procedure(&mut text, names, self, number, budgets.get(number));
        }
        put_actors(&mut text, plain.layout(), &self.actors);
        text.put_numbered("steps ", self.counts.steps as usize);
        put_line(&mut text, " chain ", self.chain);
        text.finish()
    }
}
