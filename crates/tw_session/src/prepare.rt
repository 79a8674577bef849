//! Prepares an order, up to its run.

ghost use Rattle.std.specs.Prelude.{◌≡◌, ◌≤◌, ◌↔◌, IfOk, IsTrue, IsUtf8, MatchOption, false, length};
ghost use Rattle.std.specs.Str.Lines.{lines};
ghost use Rattle.tw_session.specs.Parts.{AreTexts, seen};
ghost use Rattle.tw_session.specs.ProgramAction.{AreEncodedWords, Awaits, HasShortTrace, IsFinishedBy, RepliesByAction};
ghost use Rattle.tw_session.specs.Session.{MayReplyOn, RepliesByInputs, RepliesByParts, RepliesByProgram, RepliesByReplay, RepliesByTrace, replay_with, run_with, IsExcessive};
ghost use Rattle.tw_source.specs.Failure.{coded, failed};
ghost use Rattle.tw_source.specs.Inputs.{RepliesByWords, words_in as words_in_is};
ghost use Rattle.tw_source.specs.Program.{RepliesBySource, source_text};
ghost use Rattle.tw_source.specs.declared.failure.Position.TheVariants as position;

use crate::action::{Action, GivenInputs, act};
use crate::parts::Parts;
use crate::programs::Prepared;
use std::alloc::{AllocError, Global};
use tw_each::too_long_reply;
use tw_inputs::inputs_of;
use tw_order::{Answer, Order, ReplayOrder, RunInputs, RunOptions, Source};
use tw_program_output::assembled_reply;
use tw_source::{
    Failure, Position, ReadProgram, failed_reply, not_utf8_reply, parse_error_reply, read_program,
    refused_words_reply, words_in,
};
use tw_types::{Input, Items, Layout};

/// Reads a program, and does an action on it up to its run.
fn read<'a>(
    alloc: Global,
    source: Source,
    action: Action<'a>,
    input: &'a [u8],
) -> Result<Prepared<'a>, AllocError>
    requires { HasShortTrace action }
    ensures { IfOk result (Awaits (RepliesBySource source input.entry.now (RepliesByAction (source_text source input.entry.now) action.entry))) }
{
    match read_program(alloc, source, input) {
        Ok(read) => {
            let ReadProgram {
                program,
                source: text,
            } = read;
            act(alloc, text, action, program)
        }
        Err(why) => {
            let reply = parse_error_reply(alloc, &why)?;
            Ok(Prepared::Finished(reply))
        }
    }
}

/// Replays a trace on a program.
fn replay<'a>(
    alloc: Global,
    source: Source,
    order: ReplayOrder,
    parts: Parts<'a>,
) -> Result<Prepared<'a>, AllocError>
    requires { length parts.trace.now ≤ 16777216 }
    ensures { IfOk result (Awaits (RepliesByTrace source order (seen parts.entry))) }
{
    let action = Action::Replay(order, parts.trace);
    read(alloc, source, action, parts.program)
}

/// Returns the inputs that words in lines encode, or the reply to the first that encodes none.
fn words_given(alloc: Global, inputs: &str) -> Result<GivenInputs, AllocError>
    ensures { IfOk result (AreEncodedWords (words_in_is (lines inputs.now))) }
{
    let words = words_in(alloc, inputs)?;
    match inputs_of(alloc, &words) {
        Ok(inputs) => Ok(GivenInputs::Inputs(inputs)),
        Err(why) => {
            let reply = refused_words_reply(alloc, why)?;
            Ok(GivenInputs::Fault(reply))
        }
    }
}

/// Runs a program with the inputs that words encode.
fn run_on_words<'a>(
    alloc: Global,
    source: Source,
    options: RunOptions,
    text: &str,
    parts: Parts<'a>,
) -> Result<Prepared<'a>, AllocError>
    requires { text.now ≡ parts.inputs.now }
    ensures { IfOk result (Awaits (RepliesByWords (words_in_is (lines parts.entry.inputs.now)) (λ given. RepliesByProgram source (run_with options given) (seen parts.entry)))) }
{
    match words_given(alloc, text)? {
        GivenInputs::Inputs(inputs) => {
            let action = Action::Run(options, inputs);
            read(alloc, source, action, parts.program)
        }
        GivenInputs::Fault(reply) => Ok(Prepared::Finished(reply)),
    }
}

/// Replays a trace on a program with the inputs that words encode.
fn replay_on_words<'a>(
    alloc: Global,
    source: Source,
    answer: Answer,
    layout: Layout,
    text: &str,
    parts: Parts<'a>,
) -> Result<Prepared<'a>, AllocError>
    requires inputs { text.now ≡ parts.inputs.now }
    requires few { length parts.trace.now ≤ 16777216 }
    ensures { IfOk result (Awaits (RepliesByWords (words_in_is (lines parts.entry.inputs.now)) (λ given. RepliesByTrace source (replay_with answer layout given) (seen parts.entry)))) }
{
    match words_given(alloc, text)? {
        GivenInputs::Inputs(inputs) => {
            let order = ReplayOrder {
                answer,
                layout,
                inputs,
            };
            replay(alloc, source, order, parts)
        }
        GivenInputs::Fault(reply) => Ok(Prepared::Finished(reply)),
    }
}

/// Returns whether bytes are UTF-8.
fn is_text(bytes: &[u8]) -> bool
    ensures { IsTrue result ↔ IsUtf8 bytes.now }
{
    str::from_utf8(bytes).is_ok()
}

/// Returns the text of the inputs, if all parts are texts.
fn inputs_text<'a>(parts: Parts<'a>) -> Option<&'a str>
    ensures { MatchOption result (AreTexts (seen parts.entry) → ⊥) (λ text. AreTexts (seen parts.entry) × (text.now ≡ parts.entry.inputs.now)) }
{
    if !is_text(parts.program) || !is_text(parts.trace) {
        return None;
    }
    match str::from_utf8(parts.inputs) {
        Ok(text) => Some(text),
        Err(_) => None,
    }
}

/// Returns the reply to what isn't UTF-8.
fn no_text<'a>(alloc: Global) -> Result<Prepared<'a>, AllocError>
    ensures { IfOk result (IsFinishedBy (failed (coded 72 3 position.Nowhere))) }
{
    let reply = not_utf8_reply(alloc)?;
    Ok(Prepared::Finished(reply))
}

/// Prepares a run of a program with its inputs.
fn prepare_run_with<'a>(
    alloc: Global,
    source: Source,
    options: RunOptions,
    given: RunInputs,
    parts: Parts<'a>,
) -> Result<Prepared<'a>, AllocError>
    ensures { IfOk result (Awaits (RepliesByInputs source options given (seen parts.entry))) }
{
    match given {
        RunInputs::Given(inputs) => {
            let action = Action::Run(options, inputs);
            read(alloc, source, action, parts.program)
        }
        RunInputs::Words => match inputs_text(parts) {
            Some(text) => run_on_words(alloc, source, options, text, parts),
            None => no_text(alloc),
        },
        RunInputs::Json => match inputs_text(parts) {
            Some(json) => {
                let action = Action::RunWithJson(options, json);
                read(alloc, source, action, parts.program)
            }
            None => no_text(alloc),
        },
    }
}

/// Prepares a replay of the trace after a program and its inputs.
fn prepare_replay<'a>(
    alloc: Global,
    source: Source,
    answer: Answer,
    layout: Layout,
    given: Option<Items<Input>>,
    parts: Parts<'a>,
) -> Result<Prepared<'a>, AllocError>
    requires { length parts.trace.now ≤ 16777216 }
    ensures { IfOk result (Awaits (RepliesByReplay source answer layout given (seen parts.entry))) }
{
    match given {
        Some(inputs) if is_text(parts.trace) => {
            let order = ReplayOrder {
                answer,
                layout,
                inputs,
            };
            replay(alloc, source, order, parts)
        }
        Some(_) => no_text(alloc),
        None => match inputs_text(parts) {
            Some(text) => replay_on_words(alloc, source, answer, layout, text, parts),
            None => no_text(alloc),
        },
    }
}

/// Returns the reply to too many bytes. Its form is that of other errors before JSON is made of them.
fn excessive<'a>(alloc: Global, order: &Order) -> Result<Prepared<'a>, AllocError>
    ensures { IfOk result (Awaits (IsExcessive order.now)) }
{
    let reply = match order {
        Order::Each(..) => too_long_reply(alloc)?,
        _ => failed_reply(alloc, Failure::coded(b'H', 2, Position::Nowhere))?,
    };
    Ok(Prepared::Finished(reply))
}

/// Prepares an order, if there aren't too many bytes.
fn prepare_few<'a>(
    alloc: Global,
    order: Order,
    parts: Parts<'a>,
) -> Result<Prepared<'a>, AllocError>
    requires { length parts.trace.now ≤ 16777216 }
    ensures { IfOk result (Awaits (RepliesByParts order (seen parts.entry))) }
{
    let program = parts.program;
    match order {
        Order::Assemble(order) => {
            let reply = assembled_reply(alloc, order.what, program)?;
            Ok(Prepared::Finished(reply))
        }
        Order::Disassemble(source, order) => {
            read(alloc, source, Action::Disassemble(order), program)
        }
        Order::Check(source, order) => read(alloc, source, Action::Check(order), program),
        Order::Run(source, options, given) => prepare_run_with(
            alloc, source, options, given, parts,
        ),
        Order::Each(source, order) => Ok(Prepared::Lines(source, order, program)),
        Order::Replay(source, answer, layout, given) => {
            prepare_replay(alloc, source, answer, layout, given, parts)
        }
    }
}

/// Prepares an order for what was read. The error is that an allocation fails.
pub fn prepare<'a>(
    alloc: Global,
    order: Order,
    parts: Parts<'a>,
) -> Result<Prepared<'a>, AllocError>
    requires { parts.too_long ≡ false → length parts.trace.now ≤ 16777216 }
    ensures { IfOk result (Awaits (MayReplyOn order (seen parts.entry))) }
{
    if parts.too_long {
        excessive(alloc, &order)
    } else {
        prepare_few(alloc, order, parts)
    }
}
