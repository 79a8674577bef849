//! The steps of a pool or a host, and their results.

use crate::tables::{Said, Table};
use std::alloc::Global;
use std::sync::Wait;
use tw_case_lines::{Complaint, Text, read_actor};
use tw_types::{Actor, Layout};

/// More steps than an actor makes here without a pause, and more rounds than a run has.
pub const MOST: u8 = 100;

/// The order of a run's scheduling steps.
#[derive(Clone, Copy)]
pub enum Course<'s> {
    /// The steps of a script.
    Script(&'s str),
    /// Engines, then workers, then servers, each until it is idle or the run is over; and so on until the run is over for all. The run is stopped
    /// after this many steps.
    Rounds(u64),
}

/// The results of steps, a line each, and the events that were reported with them.
#[derive(Drop)]
pub struct Talk {
    pub text: Text,
    /// How many steps are left before the run is stopped.
    pub left: u64,
    /// The first result after the stop.
    pub last_said: Option<(Said, u64)>,
    /// Whether all results after the stop are the same.
    pub is_one: bool,
    /// Why the steps weren't made to their end.
    pub complaint: Option<Complaint>,
}

impl Talk {
    /// Adds the result of a step to a course's output, and compares it with the first after the stop.
    fn hear(&mut self, said: Said, number: u64) {
        match self.last_said {
            Some(before) => self.is_one &= before == (said, number),
            None if self.left == 0 => self.last_said = Some((said, number)),
            None => {}
        }
        self.text.put(said.words());
        if number > 0 {
            self.text.number(" ", number);
        }
        self.text.put("\n");
    }
}

/// Makes one step of a course, and adds its result. Stops the run first if no step is left.
fn turn<K: Drop, T: Table<K>, R: Wait>(
    rt: &R,
    alloc: Global,
    table: &mut T,
    talk: &mut Talk,
    actor: Actor,
    kept: &mut Option<K>,
) -> Result<Said, Complaint> {
    if talk.left == 0 {
        table.stop(rt);
    }
    let before = table.count(actor);
    let Some(answer) = table.turn(rt, alloc, actor, kept) else {
        return Err(Complaint::NoTurn);
    };
    talk.hear(answer.said, answer.number);
    talk.left = talk.left.saturating_sub(1);
    for index in before..table.count(actor) {
        if let Some(event) = table.reported(actor, index) {
            talk.text.event(&event);
        }
    }
    Ok(answer.said)
}

/// Makes an actor's steps in a course until it is idle or the run is over. Returns whether the run is over.
fn turn_on<K: Drop, T: Table<K>, R: Wait>(
    rt: &R,
    alloc: Global,
    table: &mut T,
    talk: &mut Talk,
    actor: Actor,
) -> Result<bool, Complaint> {
    let mut kept = None;
    for _ in 0..MOST {
        let said = turn(rt, alloc, table, talk, actor, &mut kept)?;
        if said.is_over() || said == Said::Idle {
            return Ok(said.is_over());
        }
        if !said.goes_on() {
            return Err(Complaint::Astray);
        }
    }
    Err(Complaint::Endless)
}

/// The maximal number of actors.
pub const PLACES: u8 = 24;

/// Returns the actor of a place in the rounds of a course: engines come first, then workers, then servers.
pub fn actor_at(layout: Layout, place: u8) -> Option<Actor> {
    let actor = match place {
        0..=3 => Actor::Engine(place),
        4..=19 => Actor::Worker(place.wrapping_sub(4)),
        _ => Actor::Server(place.wrapping_sub(20)),
    };
    if layout.has(actor) { Some(actor) } else { None }
}

/// Makes the rounds of a course, a step of each actor, until the run is over for all.
fn turn_rounds<K: Drop, T: Table<K>, R: Wait>(
    rt: &R,
    alloc: Global,
    table: &mut T,
    talk: &mut Talk,
    layout: Layout,
) -> Result<(), Complaint> {
    for _ in 0..MOST {
        let mut is_over = true;
        for place in 0..PLACES {
            if let Some(actor) = actor_at(layout, place) {
                is_over &= turn_on(rt, alloc, table, talk, actor)?;
            }
        }
        if is_over {
            return Ok(());
        }
    }
    Err(Complaint::Endless)
}

/// Returns the text before a sign in a script's item, and the register after it, or a number that no register has.
fn cut_register(text: &str, sign: char) -> Result<(&str, usize), Complaint> {
    match text.split_once(sign) {
        Some((before, number)) => Ok((before.trim(), number.parse::<usize>()?)),
        None => Ok((text, usize::MAX)),
    }
}

/// Takes the content of a register of a script, if there is any.
fn taken<K: Drop>(kept: &mut [Option<K>], register: usize) -> Option<K> {
    match kept.get_mut(register) {
        Some(slot) => slot.take(),
        None => None,
    }
}

/// Executes an item of a script: `stop`, or a step of an actor of the first table, or of the second after `b `. Submits `kept`.
fn turn_item<K: Drop, A: Table<K>, B: Table<K>, R: Wait>(
    rt: &R,
    alloc: Global,
    first: &mut A,
    second: &mut B,
    talk: &mut Talk,
    item: &str,
    kept: &mut Option<K>,
) -> Result<(), Complaint> {
    if item == "stop" {
        talk.left = 0;
        return Ok(());
    }
    let _said = match item.strip_prefix("b ") {
        Some(actor) => turn(rt, alloc, second, talk, read_actor(actor)?, kept)?,
        None => turn(rt, alloc, first, talk, read_actor(item)?, kept)?,
    };
    Ok(())
}

/// Executes a script of a course: `e0 <1 >2` is a step of e0 that submits the content of register 1, and puts its `Done` into
/// register 2.
fn play<K: Drop, A: Table<K>, B: Table<K>, R: Wait>(
    rt: &R,
    alloc: Global,
    first: &mut A,
    second: &mut B,
    talk: &mut Talk,
    script: &str,
) -> Result<(), Complaint> {
    let mut kept = Vec::new(alloc);
    for _ in 0..4_u8 {
        kept.push(None)?;
    }
    for item in script.split(',') {
        let (item, to) = cut_register(item.trim(), '>')?;
        let (item, from) = cut_register(item, '<')?;
        let mut done = taken(kept.as_mut_slice(), from);
        turn_item(rt, alloc, first, second, talk, item, &mut done)?;
        if let Some(slot) = kept.get_mut(to) {
            *slot = done;
        }
    }
    Ok(())
}

/// Makes the steps of a course on the first table; a script may also have steps of the second one, which has the same program. Returns all results,
/// and why the course wasn't completed.
pub fn turned<K: Drop, A: Table<K>, B: Table<K>, R: Wait>(
    rt: &R,
    alloc: Global,
    first: &mut A,
    second: &mut B,
    layout: Layout,
    course: Course<'_>,
) -> Talk {
    let mut talk = Talk {
        text: Text::new(alloc),
        left: u64::MAX,
        last_said: None,
        is_one: true,
        complaint: None,
    };
    let came = match course {
        Course::Script(script) => play(rt, alloc, first, second, &mut talk, script),
        Course::Rounds(turns) => {
            talk.left = turns;
            turn_rounds(rt, alloc, first, &mut talk, layout)
        }
    };
    if let Err(complaint) = came {
        talk.complaint = Some(complaint);
        talk.text.lose();
    }
    talk
}
