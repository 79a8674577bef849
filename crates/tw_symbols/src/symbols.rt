//! The names that a text gives its procedures, by their numbers.

ghost use Rattle.std.specs.Prelude.{◌≡◌, ◌++◌, ◌∷◌, [], IfOk, OnOk, unwrap_or};
ghost use Rattle.tw_symbols.specs.Lines.{IsTaken, Line};
ghost use Rattle.tw_symbols.specs.LineNames.{procedure_name};
ghost use Rattle.tw_symbols.specs.Seen.{texts};
ghost use Rattle.tw_symbols.specs.Symbols.{AreNames, bracketed, head_names, line_names, name_at};

use crate::heads::procedure_name;
use crate::line::{may_begin_procedure, take_line};
use crate::pieces::pieces_of;
use std::alloc::{AllocError, Global};
use std::marker::Model;
use tw_types::Items;

/// The names of a program's procedures, by number; an empty one if a procedure has none.
#[derive(Drop)]
pub struct Symbols {
    procedures: Vec<Items<u8>>,
}

impl Model for Symbols {
    ghost use Rattle.std.specs.Prelude.{List, ℕ};

    ghost Value = { List (List ℕ) };

    ghost view = { λ s. s.procedures.items };
}

/// Returns the procedure's name in a head's words, or an empty one.
fn head_name<'a>(words: &[&'a [u8]]) -> &'a [u8]
    ensures { result.now ≡ unwrap_or (procedure_name (texts words.now)) [] }
{
    match procedure_name(words) {
        Some(name) => name,
        None => &[],
    }
}

/// Adds a copy of a procedure's name to the list of names.
fn push_name(alloc: Global, names: &mut Vec<Items<u8>>, name: &[u8]) -> Result<(), AllocError>
    ensures { OnOk result (names.new.items ≡ names.old.items ++ name.now ∷ []) }
{
    let own = name.to_vec(alloc)?;
    names.push(Items::from(own))?;
    Ok(())
}

/// Adds the name of the procedure that a line begins, if it begins one.
fn push_words(alloc: Global, names: &mut Vec<Items<u8>>, words: &[&[u8]]) -> Result<(), AllocError>
    ensures { OnOk result (names.new.items ≡ names.old.items ++ head_names (texts words.now)) }
{
    match words {
        [first, others @ ..] if *first == b"proc".as_slice() => {
            let pieces = pieces_of(alloc, others)?;
            push_name(alloc, names, head_name(&pieces))
        }
        _ => Ok(()),
    }
}

/// Adds the name that a line gives a procedure, if it gives one.
fn push_line(alloc: Global, names: &mut Vec<Items<u8>>, line: &str) -> Result<(), AllocError>
    ensures { OnOk result ((taken : Line) × IsTaken taken line.now × (names.new.items ≡ names.old.items ++ line_names taken)) }
{
    let taken = take_line(alloc, line)?;
    push_words(alloc, names, &taken.words)
}

/// Adds a procedure's name in brackets to a text, if it isn't empty.
pub fn put_bracketed(out: &mut Vec<u8>, name: &[u8]) -> Result<(), AllocError>
    ensures { OnOk result (out.new.items ≡ out.old.items ++ bracketed name.now) }
{
    if name.is_empty() {
        return Ok(());
    }
    out.extend_from_slice(b" (")?;
    out.extend_from_slice(name)?;
    out.extend_from_slice(b")")
}

impl Symbols {
    /// Returns the table of procedures' names of a program without names.
    pub fn none(alloc: Global) -> Symbols
        ensures { result ≡ [] }
    {
        Symbols {
            procedures: Vec::new(alloc),
        }
    }

    /// Reads the names of all procedures in one pass over a text.
    pub fn of(alloc: Global, text: &str) -> Result<Symbols, AllocError>
        ensures { IfOk result (λ symbols. AreNames text.now symbols) }
    {
        let mut procedures = Vec::new(alloc);
        for line in text.lines() {
            if may_begin_procedure(line) {
                push_line(alloc, &mut procedures, line)?;
            }
        }
        Ok(Symbols { procedures })
    }

    /// Returns the names of all procedures of a program, by their numbers.
    pub fn names(&self) -> &[Items<u8>]
        ensures { result.now ≡ self.entry.now }
    {
        self.procedures.as_slice()
    }

    /// Returns the name of the procedure of this number, or an empty one if it has none.
    pub fn procedure(&self, number: usize) -> &[u8]
        ensures { result.now ≡ name_at self.entry.now number }
    {
        match self.procedures.get(number) {
            Some(name) => name.as_slice(),
            None => &[],
        }
    }

    /// Adds the name of the procedure of this number in brackets to a text, if it has one.
    pub fn put(&self, out: &mut Vec<u8>, number: usize) -> Result<(), AllocError>
        ensures { OnOk result (out.new.items ≡ out.old.items ++ bracketed (name_at self.now number)) }
    {
        put_bracketed(out, self.procedure(number))
    }
}
