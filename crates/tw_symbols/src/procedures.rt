//! The procedures of a text.

ghost use Rattle.std.specs.Prelude.{◌≡◌, ◌≤◌, ◌<◌, List, IfOk, OnOk, length, nat_le};
ghost use Rattle.std.specs.Option.{option_map};
ghost use Rattle.std.specs.Str.Lines.{lines};
ghost use Rattle.tw_symbols.specs.Lines.{AreTaken, IsTaken, Line};
ghost use Rattle.tw_symbols.specs.Seen.{now, seen_procedures, seen_table, texts};
ghost use Rattle.tw_symbols.specs.Heads.{HasTooMany, procedures_of, with_head, with_line, with_name, with_words};

use crate::hash::NameHash;
use crate::heads::{banks_of_modes, procedure_name};
use crate::line::{may_begin_procedure, take_line};
use crate::meaning::{Bank, Binding};
use crate::names::{Table, meaning, put_name};
use crate::pieces::pieces_of;
use indexmap::IndexMap;
use std::alloc::{AllocError, Global};
use tw_code::Program;

/// A procedure: the banks of its parameters, and the line at which it begins.
#[derive(Drop)]
pub struct Head {
    pub banks: Vec<Bank>,
    pub line: usize,
}

/// The procedures of a text, and the meanings of their names.
///
/// Of those past the limit only the first is kept, since the text is rejected there.
#[derive(Drop)]
pub struct Procedures<'a> {
    /// The hash function of the text's names.
    pub hash: NameHash,
    pub table: Table<'a>,
    pub heads: Vec<Head>,
}

/// Returns whether one more head of a procedure is read: those up to the first one past the limit are.
pub fn reads_heads(procedures: &Procedures<'_>) -> bool
    ensures { result ≡ nat_le (length procedures.now.heads.items) 64 }
{
    procedures.heads.len() <= usize::from(Program::MAX_PROCEDURES)
}

/// Adds the name of a procedure to the table of names, unless an earlier one has it.
fn name_procedure<'a>(
    table: &mut Table<'a>,
    name: Option<&'a [u8]>,
    number: usize,
) -> Result<(), AllocError>
    ensures { OnOk result (seen_table table.new.entries ≡ with_name (option_map now name.entry) number (seen_table table.old.entries)) }
{
    if let Some(name) = name {
        if meaning(table, name).is_none() {
            put_name(table, name, Binding::Procedure(number))?;
        }
    }
    Ok(())
}

/// Adds a procedure with its line and the banks of its parameters to those of a text.
fn add_head<'a>(
    alloc: Global,
    procedures: &mut Procedures<'a>,
    number: usize,
    words: &[&'a [u8]],
) -> Result<(), AllocError>
    ensures { OnOk result (seen_procedures procedures.new ≡ with_head (seen_procedures procedures.old) number (texts words.now)) }
{
    let count = procedures.heads.len();
    name_procedure(&mut procedures.table, procedure_name(words), count)?;
    let banks = banks_of_modes(alloc, words)?;
    procedures.heads.push(Head {
        banks,
        line: number,
    })?;
    Ok(())
}

/// Adds the procedure whose head these words of a line are, if they begin with `proc`.
fn add_words<'a>(
    alloc: Global,
    procedures: &mut Procedures<'a>,
    number: usize,
    words: &[&'a [u8]],
) -> Result<(), AllocError>
    ensures { OnOk result (seen_procedures procedures.new ≡ with_words (seen_procedures procedures.old) number (texts words.now)) }
{
    match words {
        [first, others @ ..] if *first == b"proc".as_slice() => {
            let pieces = pieces_of(alloc, others)?;
            add_head(alloc, procedures, number, &pieces)
        }
        _ => Ok(()),
    }
}

/// Adds the procedure whose head the line of this number is, if it is one.
fn add_line<'a>(
    alloc: Global,
    procedures: &mut Procedures<'a>,
    number: usize,
    line: &'a str,
) -> Result<(), AllocError>
    ensures { OnOk result ((taken : Line) × IsTaken taken line.entry.now × (seen_procedures procedures.new ≡ with_line (seen_procedures procedures.old) number taken)) }
{
    let taken = take_line(alloc, line)?;
    add_words(alloc, procedures, number, &taken.words)
}

/// Returns the procedures of a text by their heads, up to the first one past the limit.
pub fn procedures_of(alloc: Global, text: &str) -> Result<Procedures<'_>, AllocError>
    ensures all { IfOk result (λ procedures. length procedures.heads.items ≤ 64 → (all : List Line) × AreTaken all (lines text.now) × (seen_procedures procedures ≡ procedures_of all)) }
    ensures many { IfOk result (λ procedures. 64 < length procedures.heads.items → HasTooMany text.now) }
{
    let hash = NameHash::new(text);
    let mut procedures = Procedures {
        hash,
        table: IndexMap::with_hasher(alloc, hash),
        heads: Vec::new(alloc),
    };
    for (index, line) in text.lines().enumerate() {
        if !reads_heads(&procedures) {
            return Ok(procedures);
        }
        if may_begin_procedure(line) {
            add_line(alloc, &mut procedures, index + 1, line)?;
        }
    }
    Ok(procedures)
}
