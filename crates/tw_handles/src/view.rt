//! Views of what a handle holds, for calls that only read it.

ghost use Rattle.std.specs.Prelude.{◌≡◌, Err, MatchResult, None, Ok, Some, option_map};
ghost use Rattle.std.specs.Arc.{arc_value};
ghost use Rattle.tw_handles.specs.Codes.{no_inputs, no_program, no_report, no_stop, no_string};
ghost use Rattle.tw_handles.specs.Loading.{finished_in, inputs_in, program_in};
ghost use Rattle.tw_handles.specs.Reading.{readable};
ghost use Rattle.tw_handles.specs.Stops.{flag_in};
ghost use Rattle.tw_handles.specs.Texts.{text_in};

use crate::codes;
use crate::finished::Finished;
use crate::held::Held;
use crate::report::readable;
use std::sync::Arc;
use tw_flags::StopFlag;
use tw_pool::Final;
use tw_types::Input;
use tw_verify::Verified;

/// Takes the box of a handle out, calls a function with a view of it, and puts it back. Returns the view's error if it holds something else.
#[macro_export]
macro_rules! reading {
    ($alloc:expr, $handle:expr, $view:path, $seen:ident => $call:expr) => {{
        let whole = $handle.take($alloc);
        match $view(&whole) {
            Ok($seen) => {
                let code = $call;
                $handle.put(whole);
                code
            }
            Err(code) => {
                $handle.put(whole);
                code
            }
        }
    }};
}

/// Returns the program that a handle shares with others.
pub fn shared_of(whole: &Option<Box<Held>>) -> Result<&Arc<Verified>, u8>
    ensures { MatchResult result (λ shared. program_in (option_map (λ b. b.value) whole.now) ≡ Some (arc_value shared.now))
        (λ code. (program_in (option_map (λ b. b.value) whole.now) ≡ None) × (code ≡ no_program)) }
{
    match whole {
        Some(held) => match &**held {
            Held::Program(shared) => Ok(shared),
            Held::Inputs(_)
            | Held::Report(_)
            | Held::Stop(_)
            | Held::Container(_)
            | Held::Text(_) => { Err(codes::NO_PROGRAM) }
        },
        None => Err(codes::NO_PROGRAM),
    }
}

/// Returns the program of a handle.
pub fn program_of(whole: &Option<Box<Held>>) -> Result<&Verified, u8>
    ensures { MatchResult result (λ verified. program_in (option_map (λ b. b.value) whole.now) ≡ Some verified.now)
        (λ code. (program_in (option_map (λ b. b.value) whole.now) ≡ None) × (code ≡ no_program)) }
{
    match shared_of(whole) {
        Ok(shared) => Ok(&**shared),
        Err(code) => Err(code),
    }
}

/// Returns the inputs of a handle; a null one has none.
pub fn inputs_of(whole: &Option<Box<Held>>) -> Result<&[Input], u8>
    ensures { MatchResult result (λ inputs. inputs_in (option_map (λ b. b.value) whole.now) ≡ Some inputs.now)
        (λ code. (inputs_in (option_map (λ b. b.value) whole.now) ≡ None) × (code ≡ no_inputs)) }
{
    match whole {
        Some(held) => match &**held {
            Held::Inputs(inputs) => Ok(inputs.as_slice()),
            Held::Program(_)
            | Held::Report(_)
            | Held::Stop(_)
            | Held::Container(_)
            | Held::Text(_) => { Err(codes::NO_INPUTS) }
        },
        None => Ok(&[]),
    }
}

/// Returns the report of a handle.
pub fn report_of(whole: &Option<Box<Held>>) -> Result<&Finished, u8>
    ensures { MatchResult result (λ run. finished_in (option_map (λ b. b.value) whole.now) ≡ Some run.now)
        (λ code. (finished_in (option_map (λ b. b.value) whole.now) ≡ None) × (code ≡ no_report)) }
{
    match whole {
        Some(held) => match &**held {
            Held::Report(run) => Ok(run),
            Held::Program(_)
            | Held::Inputs(_)
            | Held::Stop(_)
            | Held::Container(_)
            | Held::Text(_) => { Err(codes::NO_REPORT) }
        },
        None => Err(codes::NO_REPORT),
    }
}

/// Returns the outputs and the store of a handle's report, if they are read.
pub fn outputs_of(whole: &Option<Box<Held>>) -> Result<&Final, u8>
    ensures { MatchResult result (λ outcome. readable (option_map (λ b. b.value) whole.now) ≡ Ok outcome.now)
        (λ code. readable (option_map (λ b. b.value) whole.now) ≡ Err code) }
{
    match report_of(whole) {
        Ok(run) => readable(run),
        Err(code) => Err(code),
    }
}

/// Returns the stop flag of a handle.
pub fn stop_of(whole: &Option<Box<Held>>) -> Result<&StopFlag, u8>
    ensures { MatchResult result (λ flag. flag_in (option_map (λ b. b.value) whole.now) ≡ Some flag.now)
        (λ code. (flag_in (option_map (λ b. b.value) whole.now) ≡ None) × (code ≡ no_stop)) }
{
    match whole {
        Some(held) => match &**held {
            Held::Stop(flag) => Ok(flag),
            Held::Program(_)
            | Held::Inputs(_)
            | Held::Report(_)
            | Held::Container(_)
            | Held::Text(_) => { Err(codes::NO_STOP) }
        },
        None => Err(codes::NO_STOP),
    }
}

/// Returns the text of a handle.
pub fn text_of(whole: &Option<Box<Held>>) -> Result<&[u8], u8>
    ensures { MatchResult result (λ text. text_in (option_map (λ b. b.value) whole.now) ≡ Some text.now)
        (λ code. (text_in (option_map (λ b. b.value) whole.now) ≡ None) × (code ≡ no_string)) }
{
    match whole {
        Some(held) => match &**held {
            Held::Text(text) => Ok(text.as_slice()),
            Held::Program(_)
            | Held::Inputs(_)
            | Held::Report(_)
            | Held::Stop(_)
            | Held::Container(_) => { Err(codes::NO_STRING) }
        },
        None => Err(codes::NO_STRING),
    }
}
