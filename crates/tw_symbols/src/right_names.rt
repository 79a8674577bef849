//! The names of right registers, line by line.

use crate::expansion::{begins_with, is_named};
use crate::line::{is_plainly_blank, take_line};
use crate::meaning::{Bank, Binding};
use crate::names::{Names, Table};
use crate::procedures::{Procedures, procedures_of};
use crate::registers::add_names;
use std::alloc::{AllocError, Global};

/// How many right registers a procedure has.
const RIGHTS: usize = 16;

/// Keeps what the lines read so far have said.
#[derive(Drop)]
struct Reader<'a> {
    procedures: Procedures<'a>,
    names: Names<'a>,
    /// The expansion of a line; nobody needs it.
    plain: Vec<u8>,
    /// The last name of each right register, or an empty one.
    rights: Vec<&'a [u8]>,
}

/// Reads the names of right registers line by line, in time linear in the text.
#[derive(Drop)]
pub struct RightNames<'a> {
    reader: Option<Reader<'a>>,
}

/// Returns whether a line begins a procedure, so that names of right registers are forgotten.
fn begins_procedure(alloc: Global, line: &str) -> Result<bool, AllocError> {
    let taken = take_line(alloc, line)?;
    Ok(begins_with(&taken.words, b"proc"))
}

/// Returns the names of registers that have none.
fn no_names<'a>(alloc: Global) -> Result<Vec<&'a [u8]>, AllocError> {
    vec![in alloc; b"".as_slice(); RIGHTS]
}

/// Returns the right register that a name's meaning is, if it is one.
fn right_number(binding: Binding) -> Option<usize> {
    match binding {
        Binding::Register(Bank::Right, number, _) => Some(number),
        _ => None,
    }
}

/// Keeps the last name of a register, if it is that of one.
fn set_name<'a>(rights: &mut Vec<&'a [u8]>, name: &'a [u8], number: Option<usize>) {
    if let Some(number) = number {
        if let Some(last) = rights.get_mut(number) {
            *last = name;
        }
    }
}

/// Keeps the last names of a table, from those of its first entries.
fn note_from<'a>(rights: &mut Vec<&'a [u8]>, table: &Table<'a>, first: usize) {
    for index in first..table.len() {
        if let Some((name, binding)) = table.get_index(index) {
            set_name(rights, *name, right_number(*binding));
        }
    }
}

/// Returns the last name of a right register among kept ones, or nothing if it has none.
fn name_at<'a>(rights: &[&'a [u8]], register: usize) -> &'a [u8] {
    match rights.get(register) {
        Some(name) => *name,
        None => &[],
    }
}

/// Forgets all last names at a line that begins a procedure. Returns how many entries stay.
fn kept_names<'a>(
    alloc: Global,
    rights: &mut Vec<&'a [u8]>,
    table: &Table<'_>,
    line: &str,
) -> Result<usize, AllocError> {
    if begins_procedure(alloc, line)? {
        *rights = no_names(alloc)?;
        return Ok(0);
    }
    Ok(table.len())
}

/// Keeps what a line adds. Returns whether the line is accepted.
fn read_line<'a>(
    alloc: Global,
    reader: &mut Reader<'a>,
    number: usize,
    line: &'a str,
) -> Result<bool, AllocError> {
    if is_plainly_blank(line) {
        return Ok(true);
    }
    let Reader {
        procedures,
        names,
        plain,
        rights,
    } = reader;
    let first = kept_names(alloc, rights, &names.registers, line)?;
    if !add_names(alloc, procedures, number, names, plain, line)? {
        return Ok(false);
    }
    note_from(rights, &names.registers, first);
    plain.clear();
    Ok(true)
}

impl<'a> RightNames<'a> {
    /// Returns a reader of right registers' names without names, for a program that wasn't read from a text.
    pub fn none() -> RightNames<'a> {
        RightNames { reader: None }
    }

    /// Returns a reader of right registers' names before the first line of a text.
    pub fn of(alloc: Global, text: &'a str) -> Result<RightNames<'a>, AllocError> {
        if !is_named(alloc, text)? {
            return Ok(RightNames { reader: None });
        }
        let procedures = procedures_of(alloc, text)?;
        let names = Names::new(alloc, procedures.hash);
        let rights = no_names(alloc)?;
        Ok(RightNames {
            reader: Some(Reader {
                procedures,
                names,
                plain: Vec::new(alloc),
                rights,
            }),
        })
    }

    /// Reads the names of the line of this number, the next one after those read. None is known after a rejected line.
    pub fn read(&mut self, alloc: Global, number: usize, line: &'a str) -> Result<(), AllocError> {
        let accepted = match &mut self.reader {
            Some(reader) => read_line(alloc, reader, number, line)?,
            None => true,
        };
        if !accepted {
            self.reader = None;
        }
        Ok(())
    }

    /// Returns the name of a right register, or nothing if it has none.
    pub fn name(&self, register: usize) -> &[u8] {
        match &self.reader {
            Some(reader) => name_at(&reader.rights, register),
            None => &[],
        }
    }
}
