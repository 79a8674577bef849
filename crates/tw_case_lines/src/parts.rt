//! Cases of the lowest crates, by name: types, rights, theorems, and the texts of errors that no session shows.

use crate::complaint::Complaint;
use crate::programs::read_verified;
use crate::text::Text;
use std::alloc::{AllocError, Global};
use tw_budget::{BudgetError, frame_theorems};
use tw_code::{NoMemory, shown_and_read};
use tw_rights::{Arg, Bundle, Held, ReadRight, RightFile, WriteRight};
use tw_types::{Actor, DataType, DatumId, Scalar, Value, counts_kept};
use tw_verify::{Verified, no_trap};

/// Makes three containers around an int. Returns the depth, whether the int is found inside, and whether a fourth container is possible.
fn three_containers() -> Option<(u8, bool, bool)> {
    let three = DataType::int().cont()?.cont()?.cont()?;
    let inside = three.element()?.element()?.element()?;
    let is_int = inside == DataType::int() && three.scalar() == Scalar::Int;
    Some((three.depth(), is_int, three.cont().is_some()))
}

/// Makes containers of both kinds around a text. Returns whether each has the subscripts that it was made with, the outermost first, and whether a
/// fourth container is possible.
fn containers_of_both_kinds() -> Option<(bool, bool)> {
    let three = DataType::text().tcont()?.cont()?.tcont()?;
    let two = three.element()?;
    let one = two.element()?;
    let are_so = three.is_container_by(Scalar::Text)
        && two.is_container_by(Scalar::Int)
        && one.is_container_by(Scalar::Text);
    Some((are_so, three.tcont().is_some()))
}

/// Adds what some types of containers say of themselves, for a case of parts: depth, scalars and members.
fn put_types(text: &mut Text) {
    let (depth, is_int, has_fourth) = three_containers().unwrap_or((0, false, true));
    let (are_so, has_fourth_by_text) = containers_of_both_kinds().unwrap_or((false, true));
    let has_element = DataType::int().element().is_some();
    let is_same = DataType::text() == DataType::int();
    let are_same = DataType::int().cont() == DataType::int().tcont();
    text.number("depth ", u64::from(depth));
    text.put_flag(" int ", is_int);
    text.put_flag(" fourth ", has_fourth);
    text.put_flag(" kinds ", are_so);
    text.put_flag(" fourth ", has_fourth_by_text);
    text.put_flag(" element ", has_element);
    text.put_flag(" same ", is_same);
    text.put_flag(" ", are_same);
}

/// Adds how many pairs of actors in a list rise, for the case `actors`.
fn put_order(text: &mut Text) {
    let in_order = [
        Actor::Engine(0),
        Actor::Engine(3),
        Actor::Server(0),
        Actor::Server(2),
        Actor::Worker(0),
        Actor::Worker(15),
    ];
    let mut rising = 0_u64;
    for pair in in_order.windows(2) {
        rising = rising.wrapping_add(u64::from(pair.first() < pair.get(1)));
    }
    text.number("", rising);
    text.put(" rise");
}

/// Makes a read right on the datum of this id, at place 0, for a case of parts.
fn read(id: u64) -> ReadRight {
    ReadRight::of(DatumId::new(id), 0)
}

/// Spends a right that was taken in a case of parts. Returns its id, plus 100 if it is a write right; 0 if there was none.
fn spent(held: Option<Held>) -> u64 {
    match held {
        Some(Held::Read(right)) => right.spend().number(),
        Some(Held::Write(right)) => right.spend().number().saturating_add(100),
        None => 0,
    }
}

/// Adds what is peeked at and taken in a file with two rights, and which places are empty.
fn put_file(text: &mut Text) {
    let mut file = RightFile::new();
    file.place(0, Held::Read(read(4)));
    file.place(15, Held::Write(WriteRight::of(DatumId::new(9), 0)));
    let peeked = file.peek(15).map_or(0, |held| held.id().number());
    text.number("peeked ", peeked);
    text.put_flag(" empty ", file.is_empty(0));
    text.put_flag(" ", file.is_empty(1));
    text.put_flag(" ", file.is_empty(16));
    text.number(" taken ", spent(file.take(0)));
    text.number(" ", spent(file.take(0)));
    text.number(" ", spent(file.take(200)));
    text.number(" ", spent(file.take(15)));
    file.place(3, Held::Read(read(5)));
    file.shut();
}

/// Makes a bundle of eight read rights for a case of parts, on data with ids from 0.
fn eight(alloc: Global) -> Result<Bundle, AllocError> {
    let mut args = Vec::with_capacity(alloc, Bundle::MAX_LEN)?;
    for id in 0..Bundle::MAX_LEN {
        args.push_reserved(Arg::Read(read(id as u64)));
    }
    Ok(Bundle::of(args))
}

/// Adds the number of arguments in a bundle of eight, the id of the third, and whether there is a ninth.
fn put_eight(text: &mut Text, alloc: Global) {
    let Ok(bundle) = eight(alloc) else {
        return text.lose();
    };
    text.number("", bundle.len() as u64);
    if let Some(Arg::Read(right)) = bundle.get(2) {
        text.number(" third ", right.id().number());
    }
    text.put_flag(" ninth ", bundle.get(8).is_some());
    bundle.shut();
}

/// Returns the number, or the id of the right, that was popped; 99 if there was none.
fn popped(arg: Option<Arg>) -> u64 {
    match arg {
        Some(Arg::Val(Value::Int(number))) => u64::try_from(number).unwrap_or(98),
        Some(Arg::Val(Value::Text(_))) => 98,
        Some(Arg::Read(right)) => right.spend().number(),
        Some(Arg::Write(right)) => right.spend().number(),
        None => 99,
    }
}

/// Makes a bundle of 7 and a read right on datum 3.
fn two(alloc: Global) -> Result<Bundle, AllocError> {
    let mut args = Vec::with_capacity(alloc, 2)?;
    args.push_reserved(Arg::Val(Value::Int(7)));
    args.push_reserved(Arg::Read(read(3)));
    Ok(Bundle::of(args))
}

/// Adds the results of three pops from a bundle of two.
fn put_pops(text: &mut Text, alloc: Global) {
    let Ok(mut bundle) = two(alloc) else {
        return text.lose();
    };
    text.number("", popped(bundle.pop()));
    text.number(" ", popped(bundle.pop()));
    text.number(" ", popped(bundle.pop()));
    bundle.shut();
}

/// Calls theorems, which compute nothing, for a case of parts. Adds how many procedures the program has.
fn put_theorems(text: &mut Text, verified: Verified) {
    no_trap(&verified);
    counts_kept();
    frame_theorems();
    shown_and_read();
    text.number("", verified.program().procedures().len() as u64);
}

/// Adds the messages of the errors of budgets, and of encoding without memory, for a case of parts.
fn put_errors(text: &mut Text) {
    text.display(&BudgetError::TooLarge);
    text.put("; ");
    text.display(&BudgetError::NoMemory);
    text.put("; ");
    text.display(&NoMemory);
}

/// Returns the output of a case on a named part of the lowest crates.
pub fn part_text(alloc: Global, name: &str, bytes: &[u8]) -> Result<String, Complaint> {
    let mut text = Text::new(alloc);
    match name {
        "types" => put_types(&mut text),
        "actors" => put_order(&mut text),
        "file" => put_file(&mut text),
        "bundle" => put_eight(&mut text, alloc),
        "pops" => put_pops(&mut text, alloc),
        "errors" => put_errors(&mut text),
        "laws" => put_theorems(&mut text, read_verified(alloc, bytes)?),
        _ => return Err(Complaint::UnknownPart),
    }
    text.into_line()
}
