//! Compares a line of symbolic assembly with that of its expansion.

ghost use Rattle.std.specs.Prelude.{◌≡◌, ◌++◌, ◌∷◌, [], IfOk, IfSome, IsTrue, Some, filter, length};
ghost use Rattle.tw_symbols.specs.LineNames.{is_unnamed, names_after_list};
ghost use Rattle.tw_symbols.specs.Renamed.{AreOthers, AreRegisters, IsHead, IsInstruction, IsLine, OnlyNames};
ghost use Rattle.tw_symbols.specs.Seen.{seen_names, seen_procedures, texts};
ghost use Rattle.tw_symbols.specs.declared.meaning.Listed.TheVariants.{Registers};

use crate::assigned::{add_const, add_let};
use crate::heads::{parameters, procedure_name};
use crate::hidden::are_hidden;
use crate::instruction::{banks_of, compares, expected_in, makes};
use crate::line_kind::{LineKind, kind_of};
use crate::listed::{begin_head, check_name, list};
use crate::meaning::Listed;
use crate::names::Names;
use crate::operand_text::{count, expected_after, first_words, words_after};
use crate::pieces::pieces_of;
use crate::procedures::Procedures;
use crate::rejection::taken;
use crate::renamed_words::{are_made, are_operands, are_same};
use std::alloc::{AllocError, Global};
use tw_code::Opcode;
use tw_lexer::before_colon;

/// Returns the words after this one, which isn't there if it is a name and `:`.
fn after_word<'b, 'a>(word: &[u8], plains: &'b [&'a [u8]]) -> Option<&'b [&'a [u8]]>
    ensures { IfSome result (λ more. texts plains.now ≡ filter is_unnamed (word.now ∷ []) ++ texts more.now) }
{
    if before_colon(word).is_some() {
        return Some(plains);
    }
    match plains {
        [plain, more @ ..] if *plain == word => Some(more),
        _ => None,
    }
}

/// Returns the words after these, without each name and `:`. A line that isn't a statement may have millions.
fn after_unnamed<'b, 'a>(words: &[&[u8]], plains: &'b [&'a [u8]]) -> Option<&'b [&'a [u8]]>
    ensures { IfSome result (λ more. texts plains.now ≡ filter is_unnamed (texts words.now) ++ texts more.now) }
{
    let mut left = words;
    let mut more = Some(plains);
    while let [word, others @ ..] = left {
        more = after_word(word, more?);
        left = others;
    }
    more
}

/// Returns the words after the first ones, and then these without each name and `:`.
fn after_listed<'b, 'a>(
    front: &[&[u8]],
    words: &[&[u8]],
    plains: &'b [&'a [u8]],
) -> Option<&'b [&'a [u8]]>
    ensures { IfSome result (λ more. texts plains.now ≡ texts front.now ++ (filter is_unnamed (texts words.now) ++ texts more.now)) }
{
    match front {
        [] => after_unnamed(words, plains),
        [word, others @ ..] => match plains {
            [plain, more @ ..] if plain == word => after_listed(others, words, more),
            _ => None,
        },
    }
}

/// Returns whether the words are the first ones, and then these without each name and `:`.
fn are_listed(front: &[&[u8]], words: &[&[u8]], plains: &[&[u8]]) -> bool
    ensures { IsTrue result → texts plains.now ≡ texts front.now ++ filter is_unnamed (texts words.now) }
{
    match after_listed(front, words, plains) {
        Some([]) => true,
        _ => false,
    }
}

/// Returns whether these are the words of a head without its names, and adds the names of the parameters.
fn is_head<'a>(
    alloc: Global,
    procedures: &Procedures<'_>,
    number: usize,
    names: &mut Names<'a>,
    words: &[&'a [u8]],
    plains: &[&[u8]],
) -> Result<bool, AllocError>
    ensures { IfOk result (λ is. IsTrue is → IsHead (seen_procedures procedures.now) number (seen_names names.old) (texts words.now) (texts plains.now) (seen_names names.new)) }
{
    let read = names.read == names.hidden.len();
    let named = taken(check_name(procedures, number, procedure_name(words)))?;
    begin_head(alloc, names, words)?;
    let params = parameters(words);
    let listed = taken(list(procedures, Listed::Parameters, names, 0, params))?;
    Ok(read && named && listed && are_listed(first_words(words, 1), params, plains))
}

/// Adds the names of a line `regs`. Returns whether it has no error.
fn add_registers<'a>(
    procedures: &Procedures<'_>,
    names: &mut Names<'a>,
    words: &[&'a [u8]],
) -> Result<bool, AllocError>
    ensures { IfOk result (λ is. IsTrue is → names_after_list (seen_procedures procedures.now) Registers (seen_names names.old) (length (texts names.old.types.items)) 0 (texts words.now) ≡ Some (seen_names names.new)) }
{
    let first = count(&names.types);
    taken(list(procedures, Listed::Registers, names, first, words))
}

/// Returns whether these are the words of a line `regs` without its names, and then types of hidden registers; and adds the names.
fn are_registers<'a>(
    procedures: &Procedures<'_>,
    names: &mut Names<'a>,
    words: &[&'a [u8]],
    plains: &[&'a [u8]],
) -> Result<bool, AllocError>
    ensures { IfOk result (λ is. IsTrue is → AreRegisters (seen_procedures procedures.now) (seen_names names.old) (texts words.now) (texts plains.now) (seen_names names.new)) }
{
    let Some(more) = after_listed(&names.types, words, plains) else {
        return Ok(false);
    };
    let listed = add_registers(procedures, names, words)?;
    names.list_hidden(plains.len() - more.len(), more)?;
    Ok(listed && are_hidden(plains.len(), more))
}

/// Returns whether these are an instruction's operands with their names replaced, and adds the names that it makes.
fn is_instruction<'a>(
    alloc: Global,
    procedures: &Procedures<'_>,
    names: &mut Names<'a>,
    opcode: Opcode,
    words: &[&'a [u8]],
    plains: &[&[u8]],
) -> Result<bool, AllocError>
    ensures { IfOk result (λ is. IsTrue is → IsInstruction (seen_procedures procedures.now) (seen_names names.old) opcode (texts words.now) (texts plains.now) (seen_names names.new)) }
{
    let made = makes(opcode);
    let first = first_words(words, made);
    let filled = are_made(procedures, names, first, first_words(plains, made))?;
    let banks = banks_of(procedures, names, words);
    let places = expected_in(alloc, compares(opcode), banks, opcode.forms())?;
    let left = expected_after(&places, made);
    let others = words_after(words, made);
    let replaced = are_operands(
        alloc,
        procedures,
        names,
        left,
        others,
        words_after(plains, made),
    )?;
    Ok(filled && replaced)
}

/// Adds the names of a line that has no words in assembly text. Returns whether it is such a line.
fn only_names<'a>(
    kind: LineKind,
    procedures: &Procedures<'_>,
    names: &mut Names<'a>,
    first: &'a [u8],
    words: &[&'a [u8]],
) -> Result<bool, AllocError>
    ensures { IfOk result (λ is. IsTrue is → OnlyNames kind (seen_procedures procedures.now) (seen_names names.old) (texts words.now) (seen_names names.new)) }
{
    match kind {
        LineKind::Names => Ok(true),
        LineKind::Constant => taken(add_const(procedures, names, first, words)),
        LineKind::Let => taken(add_let(procedures, names, first, words)),
        _ => Ok(false),
    }
}

/// Returns whether these are the words of a line after its first, with names replaced, and adds the names of the line of this number.
fn are_others<'a>(
    alloc: Global,
    kind: LineKind,
    procedures: &Procedures<'_>,
    number: usize,
    names: &mut Names<'a>,
    words: &[&'a [u8]],
    plains: &[&'a [u8]],
) -> Result<bool, AllocError>
    ensures { IfOk result (λ is. IsTrue is → AreOthers kind (seen_procedures procedures.now) number (seen_names names.old) (texts words.now) (texts plains.now) (seen_names names.new)) }
{
    let pieces = pieces_of(alloc, words)?;
    match kind {
        LineKind::Head => is_head(alloc, procedures, number, names, &pieces, plains),
        LineKind::Registers => are_registers(procedures, names, &pieces, plains),
        LineKind::Instruction(opcode) => {
            is_instruction(alloc, procedures, names, opcode, &pieces, plains)
        }
        LineKind::Other => Ok(are_same(words, plains)),
        _ => Ok(false),
    }
}

/// Returns whether these are the words of a line with this first word, with names replaced, and adds the names of the line of this number.
fn is_begun<'a>(
    alloc: Global,
    procedures: &Procedures<'_>,
    number: usize,
    names: &mut Names<'a>,
    first: &'a [u8],
    words: &[&'a [u8]],
    plains: &[&'a [u8]],
) -> Result<bool, AllocError>
    ensures { IfOk result (λ is. IsTrue is → IsLine (seen_procedures procedures.now) number (seen_names names.old) (first.now ∷ texts words.now) (texts plains.now) (seen_names names.new)) }
{
    let kind = kind_of(first, words);
    match plains {
        [] => only_names(kind, procedures, names, first, words),
        [plain, others @ ..] => {
            let same = *plain == first;
            let kept = are_others(alloc, kind, procedures, number, names, words, others)?;
            Ok(same && kept)
        }
    }
}

/// Returns whether these are a line's words with names replaced, and adds the names of the line of this number.
pub fn is_line<'a>(
    alloc: Global,
    procedures: &Procedures<'_>,
    number: usize,
    names: &mut Names<'a>,
    words: &[&'a [u8]],
    plains: &[&'a [u8]],
) -> Result<bool, AllocError>
    ensures { IfOk result (λ is. IsTrue is → IsLine (seen_procedures procedures.now) number (seen_names names.old) (texts words.now) (texts plains.now) (seen_names names.new)) }
{
    match words {
        [first, others @ ..] => is_begun(alloc, procedures, number, names, first, others, plains),
        [] => Ok(plains.is_empty()),
    }
}
