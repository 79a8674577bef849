//! Output about symbolic assembly and its expanded text.

ghost use Rattle.std.specs.Prelude.{◌≡◌, IfOk, MatchOption};
ghost use Rattle.tw_source.specs.Source.{plain_of};
ghost use Rattle.tw_source.specs.Program.{IsFailure, RepliesByPlain};
ghost use Rattle.tw_source.specs.declared.program.NoProgram.TheVariants.{Named};
ghost use Rattle.tw_source.specs.Reply.{reply};
ghost use Rattle.tw_visible.specs.Visible.{HidesNothing};

use crate::close::Close;
use crate::failure::{Failure, Position};
use crate::first_words::first_word;
use crate::name_hint::{is_argument, put_head, put_name_hint};
use crate::name_place::text_place;
use crate::program::{NoProgram, ReadProgram, parse_error_reply, program_of_text};
use crate::reply::{Reply, fixed_reply, not_utf8_reply};
use std::alloc::{AllocError, Global};
use tw_diagnostics::put_shown_line;
use tw_lexer::{put, put_both, put_numbered, put_shortened};
use tw_symbols::{Bank, Binding, Expected, NameError, NameNo};
use tw_visible::visible_bytes;

/// A symbolic assembly text that can't be expanded, and its first error.
#[derive(Clone, Copy)]
pub struct UnexpandedText<'a> {
    pub text: &'a str,
    pub error: NameError<'a>,
}

/// Returns what a name means, in words.
fn binding_words(binding: Binding) -> &'static str {
    match binding {
        Binding::Constant(_) => "a constant",
        Binding::Register(Bank::Value, _, _) => "a value register",
        Binding::Register(Bank::Right, _, _) => "a right register",
        Binding::Procedure(_) => "a procedure",
    }
}

/// Returns what is required in a name's place, in words.
fn expected_words(asked: Expected) -> &'static str {
    match asked {
        Expected::Value | Expected::Read | Expected::ValueArgument => "a value register",
        Expected::Right | Expected::RightArgument => "a right register",
        Expected::Number => "a number",
        Expected::Procedure => "a procedure",
        Expected::Nothing => "no name",
    }
}

/// Returns how the mistake is usually mended, if it is a usual one. `first` is the first word of the line.
fn kind_hint(first: &str, binding: Binding, asked: Expected) -> &'static str {
    match (binding, asked) {
        (Binding::Register(_, _, _), Expected::Number) if first == "INT" => {
            "; GET reads a datum into a register, COPY copies a register"
        }
        (Binding::Register(_, _, _), Expected::Number) if first == "REPEAT" => {
            "; how often is fixed: a number or a constant; JEQ and JLT skip the body"
        }
        (Binding::Constant(_), Expected::Value | Expected::Read | Expected::ValueArgument) => {
            "; INT puts a constant into a register"
        }
        (Binding::Register(Bank::Value, _, _), Expected::Number) => "; a constant will do",
        (Binding::Register(Bank::Right, _, _), Expected::Number) => {
            "; a priority comes before the target, as in PUT NAME 0 any NAME"
        }
        (_, Expected::ValueArgument | Expected::RightArgument) => {
            "; arguments are in the order of the parameters"
        }
        _ => "",
    }
}

/// Adds what a name means, and what is required in its place.
fn put_kind(
    out: &mut Vec<u8>,
    first: &str,
    binding: Binding,
    asked: Expected,
) -> Result<(), AllocError> {
    put_both(out, "it is ", binding_words(binding))?;
    put_both(out, ", ", expected_words(asked))?;
    put_both(out, " is required", kind_hint(first, binding, asked))
}

/// Says which form a line lacks, by the word at which it ends to have one.
fn form_diagnostic(word: &[u8]) -> &'static str {
    if word.ends_with(b":") {
        "needs a type after it, and in a line proc a mode before that: val, closed, ref or write"
    } else if word.contains(&b':') {
        "a blank follows the colon"
    } else {
        "expected const NAME = NUMBER, or let NAME = REGISTER; there are no expressions"
    }
}

/// Says that a name has no meaning, where this is required.
fn unknown_diagnostic(asked: Expected) -> &'static str {
    match asked {
        Expected::Procedure => "no procedure has this name",
        _ => "the name means nothing here",
    }
}

/// Says what is wrong with a word, for errors that have one text.
fn fixed_diagnostic(no: NameNo) -> &'static str {
    match no {
        NameNo::NoName => "this can't be a name",
        NameNo::Twice => "an earlier procedure has this name",
        NameNo::Unlisted => {
            "neither a mode nor a type; after a name there is a colon, as in total: int"
        }
        NameNo::Listed => "its register has a name already; a procedure has one line regs",
        NameNo::Limit => "there is no register left for it",
        NameNo::Internal => "its expansion isn't what it says; this is an error of tw",
        _ => "",
    }
}

/// Adds why a number or text gets no register, if so many are listed.
fn put_none_left(
    out: &mut Vec<u8>,
    word: &[u8],
    listed: usize,
    is_used: bool,
) -> Result<(), AllocError> {
    let kind = if word.starts_with(b"\"") {
        "text"
    } else {
        "number"
    };
    put_both(out, "no value register is left for this ", kind)?;
    put_numbered(out, "; ", listed)?;
    if is_used {
        return put(out, " of 16 are listed, and one after them is used before");
    }
    put_numbered(
        out,
        " of 16 are listed, which leaves ",
        16usize.saturating_sub(listed),
    )?;
    put(out, " for numbers and texts")
}

/// Adds what is wrong with a word.
fn put_diagnostic(
    out: &mut Vec<u8>,
    first: &str,
    word: &[u8],
    no: NameNo,
) -> Result<(), AllocError> {
    match no {
        NameNo::Form => put(out, form_diagnostic(word)),
        NameNo::Kind(binding, asked) => put_kind(out, first, binding, asked),
        NameNo::Taken(binding) => put_both(out, "the name is taken by ", binding_words(binding)),
        NameNo::Unknown(asked) => put(out, unknown_diagnostic(asked)),
        NameNo::Hidden(listed) => {
            put_numbered(out, "", listed)?;
            put(
                out,
                " of 16 registers are listed; those after them hold numbers and texts",
            )
        }
        NameNo::Spent(listed) => put_none_left(out, word, listed, false),
        NameNo::Used(listed) => put_none_left(out, word, listed, true),
        _ => put(out, fixed_diagnostic(no)),
    }
}

/// Returns what is between a word and what is wrong with it. A word may have a colon at its end.
fn separator(word: &[u8]) -> &'static str {
    if word.ends_with(b":") { " " } else { ": " }
}

/// Adds a word, and what is wrong with it.
fn put_word_reason(
    out: &mut Vec<u8>,
    first: &str,
    word: &[u8],
    no: NameNo,
) -> Result<(), AllocError> {
    put_shortened(out, word)?;
    put(out, separator(word))?;
    put_diagnostic(out, first, word, no)
}

/// Adds the line of a word: what is wrong with it, and what was meant.
fn put_word_diagnostic(
    alloc: Global,
    out: &mut Vec<u8>,
    text: &str,
    rejection: NameError<'_>,
) -> Result<(), AllocError> {
    let NameError { line, word, no } = rejection;
    put_word_reason(out, first_word(text, line), word, no)?;
    put_name_hint(alloc, out, text, no, word)?;
    put(out, "\n")
}

/// Returns the rejected line as it was written, what is wrong with which word of it, and the head of the procedure that is called.
pub(crate) fn name_details(
    alloc: Global,
    text: &str,
    rejection: NameError<'_>,
) -> Result<Vec<u8>, AllocError>
    ensures { IfOk result (λ details. HidesNothing details.items) }
{
    let mut out = Vec::new(alloc);
    put_shown_line(&mut out, text, rejection.line)?;
    put_word_diagnostic(alloc, &mut out, text, rejection)?;
    if is_argument(rejection.no) {
        put_head(alloc, &mut out, text, rejection.line)?;
    }
    visible_bytes(alloc, &out)
}

/// Returns the error of symbolic assembly that can't be expanded, at the name's place.
pub(crate) fn name_failure(
    alloc: Global,
    unexpanded: &UnexpandedText<'_>,
) -> Result<Failure, AllocError>
    ensures { IfOk result (IsFailure (Named unexpanded.now)) }
{
    let error = unexpanded.error;
    let line = error.line;
    let (word, column) = text_place(alloc, unexpanded.text, line, error.word)?;
    let position = Position::Line { line, word, column };
    Ok(Failure::coded(b'N', error.no.number(), position))
}

/// Returns the expanded text of what was read.
fn plain_in<'b>(text: &'b str, read: &'b ReadProgram<'_>) -> &'b str
    ensures { MatchOption read.entry.now.source (result.now ≡ text.entry.now) (λ source. result.now ≡ plain_of source) }
{
    match &read.source {
        Some(source) => source.plain(),
        None => text,
    }
}

/// Returns the expanded text, also if it has a fault, or the first name error.
fn text_plain_reply(alloc: Global, text: &str) -> Result<Reply, AllocError>
    ensures { IfOk result (λ r. RepliesByPlain text.now (reply r.text.items r.close)) }
{
    match program_of_text(alloc, text) {
        Ok(read) => fixed_reply(alloc, plain_in(text, &read), Close::Success),
        Err(NoProgram::Text(faulty)) => fixed_reply(alloc, faulty.plain(), Close::Success),
        Err(why) => parse_error_reply(alloc, &why),
    }
}

/// Like `text_plain_reply`, for bytes that may not be UTF-8.
pub fn plain_reply(alloc: Global, input: &[u8]) -> Result<Reply, AllocError>
    ensures { IfOk result (λ r. RepliesByPlain input.now (reply r.text.items r.close)) }
{
    match str::from_utf8(input) {
        Ok(text) => text_plain_reply(alloc, text),
        Err(_) => not_utf8_reply(alloc),
    }
}
