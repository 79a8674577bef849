//! The names of registers, for messages that print their numbers.

use crate::assigned::register_of;
use crate::hidden::literal_at;
use crate::line::take_line;
use crate::line_expansion::put_line;
use crate::meaning::{Bank, Binding, is_bank};
use crate::names::{Names, Table};
use crate::procedures::{Procedures, procedures_of};
use crate::rejection::{Rejection, taken};
use crate::symbols::put_bracketed;
use std::alloc::{AllocError, Global};

/// Adds the names of a line, and the expansion of its words.
fn put_names<'a>(
    alloc: Global,
    procedures: &Procedures<'_>,
    number: usize,
    names: &mut Names<'a>,
    out: &mut Vec<u8>,
    line: &'a str,
) -> Result<(), Rejection<'a>> {
    let taken = take_line(alloc, line)?;
    put_line(alloc, procedures, number, names, out, &taken.words)
}

/// Adds the names of a line to those that messages print. Returns whether it has no error.
pub fn add_names<'a>(
    alloc: Global,
    procedures: &Procedures<'_>,
    number: usize,
    names: &mut Names<'a>,
    out: &mut Vec<u8>,
    line: &'a str,
) -> Result<bool, AllocError> {
    taken(put_names(alloc, procedures, number, names, out, line))
}

/// Returns the names of registers after the line of this number; `None` if it or an earlier one has an error, or there is no such
/// line.
fn names_after_line<'a>(
    alloc: Global,
    procedures: &Procedures<'_>,
    text: &'a str,
    last: usize,
) -> Result<Option<Names<'a>>, AllocError> {
    let mut names = Names::new(alloc, procedures.hash);
    let mut out = Vec::new(alloc);
    for (index, line) in text.lines().enumerate() {
        if !add_names(alloc, procedures, index + 1, &mut names, &mut out, line)? {
            return Ok(None);
        }
        if index + 1 == last {
            return Ok(Some(names));
        }
    }
    Ok(None)
}

/// Returns whether a name's meaning is the register with this number in this bank.
fn is_register(bank: Bank, number: usize, binding: Binding) -> bool {
    match binding {
        Binding::Register(other, place, _) => is_bank(bank, other) && number == place,
        _ => false,
    }
}

/// Returns the name that was given last to a register which a message prints, or nothing if it has none.
fn last_name<'a>(table: &Table<'a>, bank: Bank, number: usize) -> &'a [u8] {
    let mut found: &'a [u8] = &[];
    for index in 0..table.len() {
        if let Some((name, binding)) = table.get_index(index) {
            if is_register(bank, number, *binding) {
                found = *name;
            }
        }
    }
    found
}

/// Splits a message at its first space, after the register with which it begins.
fn cut(text: &[u8]) -> (&[u8], &[u8]) {
    for index in 0..text.len() {
        if text[index] == b' ' {
            return text.split_at(index);
        }
    }
    (text, &[])
}

/// Returns what a message prints beside a register: the literal of a hidden one, or else the name that it got last.
fn name_of<'a>(names: &Names<'a>, bank: Bank, number: usize) -> &'a [u8] {
    match (bank, literal_at(names, number)) {
        (Bank::Value, Some(literal)) => literal,
        _ => last_name(&names.registers, bank, number),
    }
}

/// Adds a message with the name of its register in brackets after the first word, if there is a name.
pub fn put_named(out: &mut Vec<u8>, text: &[u8], name: &[u8]) -> Result<(), AllocError> {
    let (word, rest) = cut(text);
    out.extend_from_slice(word)?;
    put_bracketed(out, name)?;
    out.extend_from_slice(rest)
}

/// Returns the name that the register of a message's first word has after the line of this number, or nothing if it has none.
fn name_after_line<'a>(
    alloc: Global,
    text: &'a str,
    last: usize,
    message: &[u8],
) -> Result<&'a [u8], AllocError> {
    let procedures = procedures_of(alloc, text)?;
    let names = names_after_line(alloc, &procedures, text, last)?;
    let (word, _) = cut(message);
    match (names, register_of(word)) {
        (Some(names), Some((bank, number))) => Ok(name_of(&names, bank, number)),
        _ => Ok(&[]),
    }
}

/// Adds a message, and after the register with which it begins that register's name, if the lines of the text up to this one have defined it.
pub fn put_with_name(
    alloc: Global,
    out: &mut Vec<u8>,
    text: &str,
    line: usize,
    message: &[u8],
) -> Result<(), AllocError> {
    let name = name_after_line(alloc, text, line, message)?;
    put_named(out, message, name)
}
