//! Reads a line of inputs: a JSON array, or an object with an id and the array.

ghost use Rattle.std.specs.Prelude.{◌≡◌, Some, IfErr, IfOk, MatchResult, is_some, option_map};
ghost use Rattle.json.specs.Print.{quoted};
ghost use Rattle.json.specs.Value.{value_view};
ghost use Rattle.tw_inputs.specs.JsonInputs.{AreInputsOf, HasFaultOf, HasNoInputs};
ghost use Rattle.tw_inputs.specs.JsonLines.{has_two_members, id_in, id_text, inputs_in, line_id, line_json};

use crate::json_inputs::{NoInputs, Place, inputs_of, json_in};
use json::{Error, Scratch, Value as Json, Writer};
use std::alloc::{AllocError, Global};
use tw_types::{Input, Param};

/// A line of inputs.
#[derive(Drop)]
pub struct InputLine {
    /// The id as JSON, if the line has one.
    pub id: Option<Vec<u8>>,
    /// The inputs, or what is at fault.
    pub inputs: Result<Vec<Input>, Place>,
}

/// Returns a text as a JSON string.
fn quoted(alloc: Global, text: &str) -> Result<Vec<u8>, AllocError>
    ensures { IfOk result (λ out. out.items ≡ quoted text.now) }
{
    let mut writer = Writer::new(Vec::new(alloc));
    writer.string(text)?;
    Ok(writer.into_inner())
}

/// Returns an id as JSON, if it is a number or a string.
fn id_text(alloc: Global, id: &Json<'_>) -> Result<Option<Vec<u8>>, AllocError>
    ensures { IfOk result (λ text. option_map (λ t. t.items) text ≡ id_text (value_view id.now)) }
{
    match id {
        Json::Number(digits) => Ok(Some(digits.as_bytes().to_vec(alloc)?)),
        Json::String(text) => Ok(Some(quoted(alloc, text)?)),
        Json::Null | Json::Bool(_) | Json::Array(_) | Json::Object(_) => Ok(None),
    }
}

/// Returns a line's id as JSON, if it is an object that has one.
fn id_in(alloc: Global, line: &Json<'_>) -> Result<Option<Vec<u8>>, AllocError>
    ensures { IfOk result (λ text. option_map (λ t. t.items) text ≡ id_in (value_view line.now)) }
{
    match line.get("id") {
        Some(id) => id_text(alloc, id),
        None => Ok(None),
    }
}

/// Returns whether a line is an object of two members.
fn has_two_members(line: &Json<'_>) -> bool
    ensures { result ≡ has_two_members (value_view line.now) }
{
    match line {
        Json::Object(members) => members.len() == 2,
        _ => false,
    }
}

/// Returns the value that is a line's inputs.
fn inputs_in<'v, 'a>(line: &'v Json<'a>, has_id: bool) -> &'v Json<'a>
    requires { has_id ≡ is_some (id_in (value_view line.now)) }
    ensures { value_view result.now ≡ inputs_in (value_view line.now) }
{
    if has_two_members(line) && has_id {
        line.get("inputs").unwrap_or(line)
    } else {
        line
    }
}

/// Reads a program's inputs from a JSON value: an array with an item for each input.
fn value_inputs(alloc: Global, params: &[Param], value: &Json<'_>) -> Result<Vec<Input>, NoInputs>
    ensures read { IfOk result (λ inputs. AreInputsOf params.now (Some (value_view value.now)) inputs.items) }
    ensures fault { IfErr result (HasNoInputs params.now (Some (value_view value.now))) }
{
    match value {
        Json::Array(items) => inputs_of(alloc, params, items),
        _ => Err(NoInputs::At(Place::Array)),
    }
}

/// Reads the id and the inputs of a line that is JSON.
fn value_line(alloc: Global, params: &[Param], line: &Json<'_>) -> Result<InputLine, AllocError>
    ensures id { IfOk result (λ read. option_map (λ t. t.items) read.id ≡ id_in (value_view line.now)) }
    ensures read { IfOk result (λ read. MatchResult read.inputs
        (λ inputs. AreInputsOf params.now (Some (inputs_in (value_view line.now))) inputs.items)
        (HasFaultOf params.now (Some (inputs_in (value_view line.now))))) }
{
    let id = id_in(alloc, line)?;
    match value_inputs(alloc, params, inputs_in(line, id.is_some())) {
        Ok(inputs) => Ok(InputLine {
            id,
            inputs: Ok(inputs),
        }),
        Err(NoInputs::At(place)) => Ok(InputLine {
            id,
            inputs: Err(place),
        }),
        Err(NoInputs::NoMemory) => Err(AllocError),
    }
}

/// Reads a line of inputs: a JSON array with an item for each input; or an object whose two members are an id, and such an array as `inputs`.
pub fn read_line(
    alloc: Global,
    params: &[Param],
    text: &str,
    scratch: &mut Scratch,
) -> Result<InputLine, AllocError>
    ensures id { IfOk result (λ read. option_map (λ t. t.items) read.id ≡ line_id text.now) }
    ensures read { IfOk result (λ read. MatchResult read.inputs
        (λ inputs. AreInputsOf params.now (line_json text.now) inputs.items)
        (HasFaultOf params.now (line_json text.now))) }
{
    match json_in(alloc, text, scratch) {
        Ok(line) => value_line(alloc, params, &line),
        Err(Error::Invalid) => Ok(InputLine {
            id: None,
            inputs: Err(Place::Text),
        }),
        Err(_) => Err(AllocError),
    }
}
