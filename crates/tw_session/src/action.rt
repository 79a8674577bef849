//! Actions on a program that was read, also a run whose inputs are JSON.

ghost use Rattle.std.specs.Prelude.{IfOk};
ghost use Rattle.tw_source.specs.Reply.{reply};
ghost use Rattle.tw_source.specs.Source.{MayBeSource, text_of};
ghost use Rattle.tw_session.specs.ProgramAction.{AreGiven, Awaits, HasShortTrace, RepliesByAction};
ghost use Rattle.tw_session.specs.Session.{PrintsFault, RepliesByJsonRun};

use crate::programs::{Prepared, prepare_run};
use std::alloc::{AllocError, Global};
use tw_code::{Program, main_params};
use tw_inputs::{NoInputs, Place, Scratch, fault_text, read_inputs};
use tw_order::{CheckOrder, DisassembleOrder, ReplayOrder, RunOptions};
use tw_program_output::{checked_reply, disassembled};
use tw_replay_output::replayed_reply;
use tw_source::{Close, Reply, SourceText, unreadable_reply};
use tw_types::{Input, Items, Param};

/// An action on a program that is to be read.
#[derive(Drop)]
pub enum Action<'a> {
    Disassemble(DisassembleOrder),
    Check(CheckOrder),
    /// A run with these inputs.
    Run(RunOptions, Items<Input>),
    /// A run with the inputs that a JSON text has.
    RunWithJson(RunOptions, &'a str),
    /// A replay of a trace.
    Replay(ReplayOrder, &'a [u8]),
}

/// The inputs that words or a JSON text have, or the reply with their fault.
#[derive(Drop)]
pub enum GivenInputs {
    Inputs(Items<Input>),
    Fault(Reply),
}

/// Returns the reply with the fault of a JSON text, whose lines count from 1.
fn fault_reply(
    alloc: Global,
    params: &[Param],
    json: &str,
    place: Place,
    scratch: &mut Scratch,
) -> Result<Reply, AllocError>
    ensures { IfOk result (λ r. PrintsFault place (reply r.text.items r.close)) }
{
    let text = fault_text(alloc, params, json, place, 1, scratch)?;
    unreadable_reply(alloc, &text, place)
}

/// Returns the inputs that a JSON text has for these parameters.
fn inputs_in(alloc: Global, params: &[Param], json: &str) -> Result<GivenInputs, AllocError>
    ensures { IfOk result (AreGiven params.now json.now) }
{
    let mut scratch = Scratch::new(alloc);
    match read_inputs(alloc, params, json, &mut scratch) {
        Ok(inputs) => Ok(GivenInputs::Inputs(Items::from(inputs))),
        Err(NoInputs::At(place)) => {
            let reply = fault_reply(alloc, params, json, place, &mut scratch)?;
            Ok(GivenInputs::Fault(reply))
        }
        Err(NoInputs::NoMemory) => Err(AllocError),
    }
}

/// Reads the inputs of a run, and prepares it.
fn prepare_json_run<'a>(
    alloc: Global,
    source: Option<SourceText<'a>>,
    options: RunOptions,
    json: &str,
    program: Program,
) -> Result<Prepared<'a>, AllocError>
    requires { MayBeSource source program.procedures }
    ensures { IfOk result (Awaits (RepliesByJsonRun (text_of source.entry) options json.now program)) }
{
    let params = main_params(program.procedures());
    match inputs_in(alloc, params, json)? {
        GivenInputs::Inputs(inputs) => prepare_run(alloc, source, options, inputs, program),
        GivenInputs::Fault(reply) => Ok(Prepared::Finished(reply)),
    }
}

/// Does an action on a program that was read from this text, if from any, up to its run.
pub fn act<'a>(
    alloc: Global,
    source: Option<SourceText<'a>>,
    action: Action<'_>,
    program: Program,
) -> Result<Prepared<'a>, AllocError>
    requires source { MayBeSource source program.procedures }
    requires few { HasShortTrace action }
    ensures { IfOk result (Awaits (RepliesByAction (text_of source.entry) action.entry program)) }
{
    match action {
        Action::Disassemble(order) => Ok(Prepared::Finished(Reply {
            text: disassembled(alloc, order.places, &program)?,
            close: Close::Success,
            more: None,
        })),
        Action::Check(order) => {
            let reply = checked_reply(alloc, &source, order, program)?;
            Ok(Prepared::Finished(reply))
        }
        Action::Run(options, inputs) => prepare_run(alloc, source, options, inputs, program),
        Action::RunWithJson(options, json) => {
            prepare_json_run(alloc, source, options, json, program)
        }
        Action::Replay(order, trace) => {
            let reply = replayed_reply(alloc, &source, &order, trace, program)?;
            Ok(Prepared::Finished(reply))
        }
    }
}
