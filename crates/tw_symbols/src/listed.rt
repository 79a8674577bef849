//! Expansion of lines that list registers: `proc` and `regs`.

ghost use Rattle.std.specs.Prelude.{◌≡◌, ◌≤◌, ◌^◌, OnOk, Some, true};
ghost use Rattle.std.specs.Option.{option_map};
ghost use Rattle.tw_symbols.specs.Answers.{};
ghost use Rattle.tw_lexer.specs.Names.{before_colon};
ghost use Rattle.tw_symbols.specs.LineNames.{at_head, begins, begins_at, begins_first, is_head_name, list_name, names_after_list, name_before, number_in};
ghost use Rattle.tw_symbols.specs.Seen.{now, seen_names, seen_procedures, texts};

use crate::heads::{bank_of_mode, parameters, procedure_name, value_types};
use crate::hidden::begins_quoted;
use crate::meaning::{Bank, Binding, Listed};
use crate::names::{Names, add_listed, is_name, meaning};
use crate::operand_text::{count, first_words, put_all, put_plain};
use crate::procedures::Procedures;
use crate::rejection::{NameNo, Rejection};
use std::alloc::{AllocError, Global};
use tw_lexer::before_colon;

/// Returns the bank of the register that a line `proc` or `regs` lists with this word, if any.
fn begins(listed: Listed, word: &[u8]) -> Option<Bank>
    ensures { result ≡ begins listed word.now }
{
    match listed {
        Listed::Parameters => bank_of_mode(word),
        Listed::Registers => {
            if before_colon(word).is_some() {
                None
            } else {
                Some(Bank::Value)
            }
        }
    }
}

/// Returns the bank of the register that a line `proc` or `regs` lists with its first word.
fn begins_first(listed: Listed, words: &[&[u8]]) -> Option<Bank>
    ensures { result ≡ begins_first listed (texts words.now) }
{
    match words {
        [word, ..] => begins(listed, word),
        [] => None,
    }
}

/// Returns the number of the next register of a bank, by the counts of registers listed so far.
fn number_in(bank: Bank, values: usize, rights: usize) -> usize
    ensures { result ≡ number_in bank values rights }
{
    match bank {
        Bank::Value => values,
        Bank::Right => rights,
    }
}

/// Returns whether a word listed in a head or a line `regs` begins a map: `map`, `tmap` or `sum`.
fn is_map_word(word: &[u8]) -> bool {
    word == b"map".as_slice() || word == b"tmap".as_slice() || word == b"sum".as_slice()
}

/// Returns whether a word has a meaning of its own in a list of registers: a mode, or a word of a type.
fn is_listed_word(word: &[u8]) -> bool {
    bank_of_mode(word).is_some()
        || word == b"int".as_slice()
        || word == b"text".as_slice()
        || word == b"cont".as_slice()
        || word == b"tcont".as_slice()
        || is_map_word(word)
}

/// Returns whether a listed word that isn't quoted contains a `:`.
fn has_colon(word: &[u8]) -> bool {
    !begins_quoted(word) && word.contains(&b':')
}

/// Checks a word of a line `proc` or `regs` that isn't a name and `:`.
fn check_unnamed<'a>(word: &'a [u8]) -> Result<(), Rejection<'a>> {
    if is_name(word) && !is_listed_word(word) {
        Err(Rejection::Flawed(NameNo::Unlisted, word))
    } else if has_colon(word) {
        Err(Rejection::Flawed(NameNo::Form, word))
    } else {
        Ok(())
    }
}

/// Adds the listed name of the register that begins after it, in a line `proc` or `regs`.
fn name_begun<'a>(
    procedures: &Procedures<'_>,
    names: &mut Names<'a>,
    begun: (usize, usize),
    word: &'a [u8],
    name: &'a [u8],
    bank: Option<Bank>,
) -> Result<(), Rejection<'a>>
    ensures { OnOk result (list_name (seen_procedures procedures.now) (seen_names names.old) begun.0 begun.1 name.now bank ≡ Some (seen_names names.new)) }
{
    match bank {
        Some(bank) if !name.is_empty() => {
            let number = number_in(bank, begun.0, begun.1);
            add_listed(procedures, names, name, bank, number)
        }
        _ => Err(Rejection::Flawed(NameNo::Form, word)),
    }
}

/// Adds the name of a register which begins after this word, if it is a name and `:`.
fn name_listed<'a>(
    procedures: &Procedures<'_>,
    listed: Listed,
    names: &mut Names<'a>,
    begun: (usize, usize),
    word: &'a [u8],
    others: &[&'a [u8]],
) -> Result<(), Rejection<'a>>
    ensures { OnOk result (name_before (seen_procedures procedures.now) listed (seen_names names.old) begun.0 begun.1 (texts others.now) (before_colon word.now) ≡ Some (seen_names names.new)) }
{
    match before_colon(word) {
        Some(name) => name_begun(
            procedures,
            names,
            begun,
            word,
            name,
            begins_first(listed, others),
        ),
        None => check_unnamed(word),
    }
}

/// Adds the names of listed registers, if so many value registers are listed before these words.
pub fn list<'a>(
    procedures: &Procedures<'_>,
    listed: Listed,
    names: &mut Names<'a>,
    first: usize,
    words: &[&'a [u8]],
) -> Result<(), Rejection<'a>>
    requires { first ≤ 2 ^ 63 }
    ensures { OnOk result (names_after_list (seen_procedures procedures.now) listed (seen_names names.old) first 0 (texts words.now) ≡ Some (seen_names names.new)) }
{
    let mut values = first;
    let mut rights = 0;
    let mut rest = words;
    while let [word, others @ ..] = rest {
        name_listed(procedures, listed, names, (values, rights), word, others)?;
        match begins(listed, word) {
            Some(Bank::Value) => values += 1,
            Some(Bank::Right) => rights += 1,
            None => {}
        }
        rest = others;
    }
    Ok(())
}

/// Adds the words of a line `proc` or `regs` to the expansion, except each name with `:`. Returns how many.
fn put_unnamed(out: &mut Vec<u8>, words: &[&[u8]]) -> Result<usize, AllocError> {
    let mut count = 0usize;
    for word in words {
        if before_colon(word).is_none() {
            put_plain(out, word)?;
            count = count.saturating_add(1);
        }
    }
    Ok(count)
}

/// Returns whether the procedure that a name means has its head at this line.
fn begins_at(procedures: &Procedures<'_>, number: usize, binding: Option<Binding>) -> bool
    ensures { result ≡ begins_at (seen_procedures procedures.now) number binding }
{
    match binding {
        Some(Binding::Procedure(index)) => match procedures.heads.get(index) {
            Some(head) => head.line == number,
            None => false,
        },
        _ => false,
    }
}

/// Checks the name in a head: it may be one, and means the procedure of this line.
pub fn check_name<'a>(
    procedures: &Procedures<'_>,
    number: usize,
    name: Option<&'a [u8]>,
) -> Result<(), Rejection<'a>>
    ensures { OnOk result (is_head_name (seen_procedures procedures.now) number (option_map now name.entry) ≡ true) }
{
    let Some(name) = name else {
        return Ok(());
    };
    if !is_name(name) {
        Err(Rejection::Flawed(NameNo::NoName, name))
    } else if begins_at(procedures, number, meaning(&procedures.table, name)) {
        Ok(())
    } else {
        Err(Rejection::Flawed(NameNo::Twice, name))
    }
}

/// Forgets the registers of the procedure before a head, and keeps the types of its own `val` parameters.
pub fn begin_head<'a>(
    alloc: Global,
    names: &mut Names<'a>,
    words: &[&'a [u8]],
) -> Result<(), AllocError>
    ensures { OnOk result (seen_names names.new ≡ at_head (seen_names names.old) (texts words.now)) }
{
    let types = value_types(alloc, parameters(words))?;
    names.values = types.len();
    names.types = if procedure_name(words).is_some() {
        types
    } else {
        Vec::new(alloc)
    };
    names.registers.clear();
    names.rights = 0;
    names.first = None;
    names.hidden.clear();
    names.literals.clear();
    names.read = 0;
    Ok(())
}

/// Adds the expansion of the words after `proc`, and the names of the parameters.
pub fn put_head<'a>(
    alloc: Global,
    procedures: &Procedures<'_>,
    number: usize,
    names: &mut Names<'a>,
    out: &mut Vec<u8>,
    words: &[&'a [u8]],
) -> Result<(), Rejection<'a>> {
    check_name(procedures, number, procedure_name(words))?;
    begin_head(alloc, names, words)?;
    let params = parameters(words);
    list(procedures, Listed::Parameters, names, 0, params)?;
    put_all(out, first_words(words, 1))?;
    put_unnamed(out, params)?;
    Ok(())
}

/// Adds the expansion of the words after `regs`, and the names of the registers.
pub fn put_registers<'a>(
    procedures: &Procedures<'_>,
    names: &mut Names<'a>,
    out: &mut Vec<u8>,
    words: &[&'a [u8]],
) -> Result<(), Rejection<'a>> {
    let first = count(&names.types);
    list(procedures, Listed::Registers, names, first, words)?;
    put_all(out, &names.types)?;
    let listed = put_unnamed(out, words)?;
    names.list_hidden(first.saturating_add(listed), &[])?;
    Ok(())
}
