//! The answer to one line.

ghost use Rattle.std.specs.Prelude.{◌≡◌, ◌≢◌, ◌++◌, List, ℕ, IfOk, MatchResult, string_bytes};
ghost use Rattle.tw_code.specs.machine.Opening.{main_params};
ghost use Rattle.tw_pool.specs.Openings.{IsRejection};
ghost use Rattle.tw_pool.specs.declared.open.OpenError.TheVariants.{NoMemory};
ghost use Rattle.tw_inputs.specs.JsonInputs.{AreInputsOf, HasFaultOf};
ghost use Rattle.tw_inputs.specs.JsonLines.{line_id, line_json};
ghost use Rattle.tw_json_output.specs.Lines.{IsJsonLine};
ghost use Rattle.tw_each.specs.Answers.{IsAnswer, IsFaultAnswer, IsInputsAnswer, IsLeftLine, IsRejectedLine, labelled, numbered, way};
ghost use Rattle.tw_each.specs.declared.worst.WorstEnd.TheVariants.{Refused};

use crate::numbered::put_labelled_line;
use crate::worst::WorstEnd;
use std::alloc::{AllocError, Global};
use std::time::{Clock, Duration};
use tw_code::main_params;
use tw_in_turn::{EndedRun, run_timed};
use tw_inputs::{InputLine, Place, Scratch, line_fault_text, read_line};
use tw_pool::OpenError;
use tw_program_output::error_line;
use tw_replay_output::inputs_refused_reply;
use tw_run_output::end_line;
use tw_source::{Failure, SourceText, failed_reply, unreadable_reply};
use tw_types::{Input, Layout, Param};
use tw_verify::Verified;

/// A program that is run on many lines, and how.
#[derive(Drop)]
pub struct EachRun<'a> {
    /// The text from which the program was read, if any.
    pub source: Option<SourceText<'a>>,
    pub verified: Verified,
    pub layout: Layout,
    /// The maximum number of events of each run.
    pub limit: usize,
    /// After how many seconds each run is stopped, if its time is limited.
    pub seconds: Option<Duration>,
}

/// An object's line, and how the line that it answers ended.
#[derive(Drop)]
pub struct AnswerLine {
    pub line: String,
    pub end: WorstEnd,
}

/// Returns the parameters for which a line has inputs.
fn params_of<'r>(run: &'r EachRun<'_>) -> &'r [Param]
    ensures { result.now ≡ main_params run.now.verified.program }
{
    main_params(run.verified.program().procedures())
}

/// Returns the line of what a run left, if memory lasted.
fn left_line(alloc: Global, left: &EndedRun) -> Result<AnswerLine, AllocError>
    ensures { IfOk result (λ answer. IsLeftLine left.now (string_bytes answer.line) answer.end) }
{
    match left.closing() {
        Some(closing) => {
            let line = end_line(alloc, &left.outcome, &left.history, left.cut(), closing)?;
            let end = WorstEnd::of(closing);
            Ok(AnswerLine { line, end })
        }
        None => Err(AllocError),
    }
}

/// Returns the line of an error at opening.
fn rejected_line(
    alloc: Global,
    run: &EachRun<'_>,
    inputs: &[Input],
    why: OpenError,
) -> Result<String, AllocError>
    requires rejected { IsRejection run.now.verified.program inputs.now run.now.layout run.now.limit why }
    requires other { why ≢ NoMemory }
    ensures { IfOk result (λ line. IsRejectedLine (way run.now) inputs.now (string_bytes line)) }
{
    let procedures = run.verified.program().procedures();
    let reply = inputs_refused_reply(alloc, &run.source, why.number(), procedures, inputs)?;
    error_line(alloc, &reply)
}

/// Runs the program with these inputs.
fn inputs_answer<C: Clock>(
    alloc: Global,
    clock: &C,
    run: &EachRun<'_>,
    inputs: &[Input],
) -> Result<AnswerLine, AllocError>
    ensures { IfOk result (λ answer. IsInputsAnswer (way run.now) inputs.now (string_bytes answer.line) answer.end) }
{
    let (verified, layout) = (&run.verified, run.layout);
    let (limit, seconds) = (run.limit, run.seconds);
    match run_timed(clock, alloc, verified, inputs, layout, limit, None, seconds) {
        Ok(left) => left_line(alloc, &left),
        Err(OpenError::NoMemory) => Err(AllocError),
        Err(why) => Ok(AnswerLine {
            line: rejected_line(alloc, run, inputs, why)?,
            end: WorstEnd::Refused,
        }),
    }
}

/// Returns the answer to a line that has no inputs.
fn fault_answer(
    alloc: Global,
    run: &EachRun<'_>,
    number: usize,
    text: &str,
    place: Place,
    scratch: &mut Scratch,
) -> Result<AnswerLine, AllocError>
    ensures { IfOk result (λ answer. IsFaultAnswer (string_bytes answer.line) answer.end) }
{
    let error = line_fault_text(alloc, params_of(run), text, place, number, scratch)?;
    Ok(AnswerLine {
        line: error_line(alloc, &unreadable_reply(alloc, &error, place)?)?,
        end: WorstEnd::Refused,
    })
}

/// Returns the answer to a line, without its number and id.
fn line_answer<C: Clock>(
    alloc: Global,
    clock: &C,
    run: &EachRun<'_>,
    number: usize,
    text: &str,
    inputs: Result<Vec<Input>, Place>,
    scratch: &mut Scratch,
) -> Result<AnswerLine, AllocError>
    requires { MatchResult inputs
        (λ given. AreInputsOf (main_params run.now.verified.program) (line_json text.now) given.items)
        (HasFaultOf (main_params run.now.verified.program) (line_json text.now)) }
    ensures { IfOk result (λ answer. IsAnswer (way run.now) text.now (string_bytes answer.line) answer.end) }
{
    match inputs {
        Ok(inputs) => inputs_answer(alloc, clock, run, &inputs),
        Err(place) => fault_answer(alloc, run, number, text, place, scratch),
    }
}

/// Appends the answer to the line with this number, and returns its end.
pub fn put_answer<C: Clock>(
    alloc: Global,
    out: &mut Vec<u8>,
    clock: &C,
    run: &EachRun<'_>,
    number: usize,
    text: &str,
    scratch: &mut Scratch,
) -> Result<WorstEnd, AllocError>
    ensures { IfOk result (λ end. (line : List ℕ) × IsAnswer (way run.now) text.now line end × (out.new.items ≡ out.old.items ++ labelled number (line_id text.now) line)) }
{
    let InputLine { id, inputs } = read_line(alloc, params_of(run), text, scratch)?;
    let answer = line_answer(alloc, clock, run, number, text, inputs, scratch)?;
    put_labelled_line(out, number, &id, answer.line.as_bytes())?;
    Ok(answer.end)
}

/// Appends the error of the line with this number, which isn't read as inputs. Returns that it is rejected.
pub fn put_unread(
    alloc: Global,
    out: &mut Vec<u8>,
    number: usize,
    failure: Failure,
) -> Result<WorstEnd, AllocError>
    ensures { IfOk result (λ end. (end ≡ Refused) × ((line : List ℕ) × IsJsonLine line × (out.new.items ≡ out.old.items ++ numbered number line))) }
{
    let error = failed_reply(alloc, failure)?;
    let line = error_line(alloc, &error)?;
    put_labelled_line(out, number, &None, line.as_bytes())?;
    Ok(WorstEnd::Refused)
}
