//! Instruction lines: the operands of each opcode.

ghost use Rattle.std.specs.Prelude.{◌≡◌, [], map};
ghost use Rattle.tw_lexer.specs.Seen.{seen as seen_word};
ghost use Rattle.tw_code.specs.declared.instr.Instr.TheVariants as instr;
ghost use Rattle.tw_code.specs.declared.instr.LocalInstr.TheVariants as local;
ghost use Rattle.tw_code.specs.declared.instr.Priority.TheVariants.{Computed, Constant};
ghost use Rattle.tw_code.specs.declared.version.Version.{Version};
ghost use Rattle.tw_code.specs.format.Operands.{ArePlain, made_of, plain};
ghost use Rattle.tw_code.specs.format.Table.{forms_of};
ghost use Rattle.tw_asm.specs.reading.ByForms.{IsOfOneWord, gathered_in, of_goal, of_type, with_one, word_in};
ghost use Rattle.tw_asm.specs.reading.Operands.{both};
ghost use Rattle.tw_asm.specs.reading.Lines.{Gives, args, draft_in, drafted, goal, line_in, literal, more, natural, nothing, number, target, type_in, value};
ghost use Rattle.tw_lexer.specs.Digits.{as_is};

use crate::flaw::{Due, Flaw, at, both_at};
use crate::gathering::{args_of, type_of};
use crate::operands::*;
use crate::rejection::Rejection;
use crate::statement::Unlinked;
use crate::stops::{args_stop, early, stop_of};
use std::alloc::Global;
use std::marker::Model;
use tw_code::{
    Action, Form, Instr, LocalInstr, Opcode, Operands, PlainOperand, Priority, Version, make,
};
use tw_lexer::{TokenError, Word};
use tw_types::{Items, Text};

/// Reads a value register and a text.
fn value_and_literal(alloc: Global, words: &[Word<'_>]) -> Result<(u8, (Text, ())), Rejection>
    ensures { Gives (λ x. x) result (line_in (more value (more literal nothing)) (map seen_word words.now)) }
{
    match words {
        [first, text, others @ ..] => {
            let text = at(literal_of(alloc, text)?, 3, Due::Operand(Form::Literal));
            let first = at(value_of(first), 2, Due::Operand(Form::Value));
            Ok(both_at(first, both_at(text, nothing_of(others, 4)))?)
        }
        _ => Err(Rejection::Flawed(early(Opcode::Text.forms(), words, 2))),
    }
}

/// Adds to the error of arguments its place.
fn located(args: Result<Items<u8>, TokenError>, words: &[Word<'_>]) -> Result<Items<u8>, Flaw>
    ensures { result ≡ args }
{
    match args {
        Ok(args) => Ok(args),
        Err(error) => Err(args_stop(words, error, 5)),
    }
}

/// Reads the operands of RULE and PUT: procedure, priority, target and arguments.
fn action_parts(
    alloc: Global,
    words: &[Word<'_>],
) -> Result<(u8, (i64, (Option<u8>, Items<u8>))), Rejection>
    ensures { Gives (λ x. x) result (line_in (more (natural 0 255) (more number (more target args))) (map seen_word words.now)) }
{
    match words {
        [procedure, priority, target, args @ ..] => {
            let args = located(args_of(alloc, args)?, args);
            let front = at(byte_of(0, 255, procedure), 2, Due::Operand(Form::Callee));
            let priority = at(number_of(priority), 3, Due::Operand(Form::Number));
            let target = at(target_of(target), 4, Due::Operand(Form::Target));
            Ok(both_at(front, both_at(priority, both_at(target, args)))?)
        }
        _ => Err(Rejection::Flawed(early(Opcode::Rule.forms(), words, 2))),
    }
}

/// Reads the operands of RULEV and PUTV, whose priority is in a value register.
fn computed_parts(
    alloc: Global,
    words: &[Word<'_>],
) -> Result<(u8, (u8, (Option<u8>, Items<u8>))), Rejection>
    ensures { Gives (λ x. x) result (line_in (more (natural 0 255) (more value (more target args))) (map seen_word words.now)) }
{
    match words {
        [procedure, priority, target, args @ ..] => {
            let args = located(args_of(alloc, args)?, args);
            let front = at(byte_of(0, 255, procedure), 2, Due::Operand(Form::Callee));
            let priority = at(value_of(priority), 3, Due::Operand(Form::Value));
            let target = at(target_of(target), 4, Due::Operand(Form::Target));
            Ok(both_at(front, both_at(priority, both_at(target, args)))?)
        }
        _ => Err(Rejection::Flawed(early(Opcode::RuleComputed.forms(), words, 2))),
    }
}

/// Makes an action whose priority is a constant.
fn with_constant_priority(parts: (u8, (i64, (Option<u8>, Items<u8>)))) -> Action
    ensures { result ≡ record { procedure = parts.0; priority = Constant parts.1.0; target = parts.1.1.0; args = parts.1.1.1 } }
{
    let (procedure, (priority, (target, args))) = parts;
    Action {
        procedure,
        priority: Priority::Constant(priority),
        target,
        args,
    }
}

/// Makes an action whose priority is computed.
fn with_computed_priority(parts: (u8, (u8, (Option<u8>, Items<u8>)))) -> Action
    ensures { result ≡ record { procedure = parts.0; priority = Computed parts.1.0; target = parts.1.1.0; args = parts.1.1.1 } }
{
    let (procedure, (priority, (target, args))) = parts;
    Action {
        procedure,
        priority: Priority::Computed(priority),
        target,
        args,
    }
}

/// Makes the instruction that loads a text into a register.
fn text(parts: (u8, (Text, ()))) -> Instr
    ensures { result ≡ instr.Local (local.Text parts.0 parts.1.0) }
{
    let (to, (text, ())) = parts;
    Instr::Local(LocalInstr::Text { to, text })
}

// ---- operands by their forms

/// The operands of an instruction without text and arguments, and the label that its goal names.
#[derive(Drop)]
struct Gathered<'a> {
    operands: Operands,
    label: Option<&'a [u8]>,
}

impl<'a> Model for Gathered<'a> {
    ghost use Rattle.std.specs.Prelude.{List, Option, ℕ};
    ghost use Rattle.tw_code.specs.declared.operands.Operands as gathered;
    ghost use Rattle.tw_asm.specs.Seen.{bytes_of};

    ghost Value = { gathered.Operands × Option (List ℕ) };

    ghost view = { λ g. (g.operands, bytes_of g.label) };
}

/// Reads an operand of one word.
fn operand_of(form: Form, word: &Word<'_>) -> Result<PlainOperand, TokenError>
    requires { IsOfOneWord form }
    ensures { as_is plain result ≡ word_in form (seen_word word.now) }
{
    match form {
        Form::Value => Ok(PlainOperand::Value(value_of(word)?)),
        Form::Right => Ok(PlainOperand::Right(right_of(word)?)),
        Form::Number => Ok(PlainOperand::Number(number_of(word)?)),
        Form::Iterations => Ok(PlainOperand::Iterations(iterations_of(word)?)),
        _ => unreachable!(),
    }
}

/// Checks that there are no more words.
fn nothing_of(words: &[Word<'_>], number: usize) -> Result<(), Flaw>
    ensures { result ≡ line_in nothing (map seen_word words.now) }
{
    match words {
        [] => Ok(()),
        _ => Err(Flaw::form(number, Due::End)),
    }
}

/// Checks that there are no operands.
fn no_operands<'a>(words: &[Word<'a>], number: usize) -> Result<Gathered<'a>, Flaw>
    ensures { (version : Version) → result ≡ gathered_in version [] (map seen_word words.now) }
{
    match words {
        [] => Ok(Gathered {
            operands: Operands::none(),
            label: None,
        }),
        _ => Err(Flaw::form(number, Due::End)),
    }
}

/// Reads a goal, the last operand.
fn only_goal<'a>(words: &[Word<'a>], number: usize) -> Result<Gathered<'a>, Flaw>
    ensures { result ≡ as_is of_goal (line_in goal (map seen_word words.now)) }
{
    match words {
        [word] => {
            let Goal { skip, label } = at(goal_of(word), number, Due::Operand(Form::Skip))?;
            Ok(Gathered {
                operands: Operands::none().after(PlainOperand::Skip(skip)),
                label,
            })
        }
        _ => Err(early(&[Form::Skip], words, number)),
    }
}

/// Reads a type, the last operand.
fn only_type<'a>(version: Version, words: &[Word<'a>], number: usize) -> Result<Gathered<'a>, Flaw>
    ensures { result ≡ as_is of_type (type_in version (map seen_word words.now)) }
{
    match type_of(version, words) {
        Ok(ty) => Ok(Gathered {
            operands: Operands::none().after(PlainOperand::TypeOf(ty)),
            label: None,
        }),
        Err(error) => {
            Err(stop_of(
                version,
                words,
                error,
                number,
                Due::Operand(Form::TypeOf),
                Due::End,
            ))
        }
    }
}

/// Puts an operand before others.
fn with_first<'a>(
    first: Result<PlainOperand, Flaw>,
    others: Result<Gathered<'a>, Flaw>,
) -> Result<Gathered<'a>, Flaw>
    ensures { result ≡ as_is with_one (both (as_is plain first) others.entry) }
{
    match both_at(first, others) {
        Ok(both) => {
            let (first, others) = both;
            let Gathered { operands, label } = others;
            Ok(Gathered {
                operands: operands.after(first),
                label,
            })
        }
        Err(flaw) => Err(flaw),
    }
}

/// Reads operands of these forms.
fn operands_of<'a>(
    version: Version,
    forms: &[Form],
    words: &[Word<'a>],
    number: usize,
) -> Result<Gathered<'a>, Flaw>
    requires { ArePlain forms.now }
    ensures { result ≡ gathered_in version forms.now (map seen_word words.now) }
{
    match forms {
        [] => no_operands(words, number),
        [form, others @ ..] => match form {
            Form::Skip => only_goal(words, number),
            Form::TypeOf => only_type(version, words, number),
            _ => match words {
                [] => Err(Flaw::form(number, Due::Operand(*form))),
                [word, rest @ ..] => {
                    let first = at(operand_of(*form, word), number, Due::Operand(*form));
                    with_first(
                        first,
                        operands_of(version, others, rest, number.saturating_add(1)),
                    )
                }
            },
        },
    }
}

// ---- all instructions

/// Makes the instruction with these operands, in a line that has so many words.
fn unlinked<'a>(opcode: Opcode, gathered: Gathered<'a>, last: usize) -> Unlinked<'a>
    requires { ArePlain (forms_of opcode) }
    ensures { drafted result ≡ (made_of opcode gathered.entry.0, gathered.entry.1) }
{
    let Gathered { operands, label } = gathered;
    Unlinked {
        instr: make(opcode, operands),
        goal: label,
        last,
    }
}

/// Reads an instruction without text and arguments.
fn plain_of<'a>(version: Version, opcode: Opcode, words: &[Word<'a>]) -> Result<Unlinked<'a>, Flaw>
    requires { ArePlain (forms_of opcode) }
    ensures { as_is drafted result ≡ draft_in version opcode (map seen_word words.now) }
{
    match operands_of(version, opcode.forms(), words, 2) {
        Ok(gathered) => Ok(unlinked(opcode, gathered, words.len().saturating_add(1))),
        Err(flaw) => Err(flaw),
    }
}

/// Reads the operands of an instruction from the words after its name. Only a text and a list of arguments are allocated.
pub fn draft_of<'a>(
    alloc: Global,
    version: Version,
    opcode: Opcode,
    words: &[Word<'a>],
) -> Result<Unlinked<'a>, Rejection>
    ensures { Gives drafted result (draft_in version opcode (map seen_word words.now)) }
{
    let instr = match opcode {
        Opcode::Text => text(value_and_literal(alloc, words)?),
        Opcode::Rule => Instr::Rule(with_constant_priority(action_parts(alloc, words)?)),
        Opcode::Put => Instr::Put(with_constant_priority(action_parts(alloc, words)?)),
        Opcode::RuleComputed => Instr::Rule(with_computed_priority(computed_parts(alloc, words)?)),
        Opcode::PutComputed => Instr::Put(with_computed_priority(computed_parts(alloc, words)?)),
        _ => return Ok(plain_of(version, opcode, words)?),
    };
    Ok(Unlinked {
        instr,
        goal: None,
        last: 0,
    })
}
