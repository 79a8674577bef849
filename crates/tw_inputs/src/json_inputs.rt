//! Reads the inputs of a program from a JSON array.

ghost use Rattle.std.specs.Prelude.{◌≡◌, ℕ, Err, None, Some, suc, IfOk, IfErr, map};
ghost use Rattle.json.specs.Value.{value_view};
ghost use Rattle.tw_inputs.specs.JsonInputs.{AreInputsFrom, AreInputsIn, HasFault, IsBadItem, json_in, type_at};
ghost use Rattle.json.specs.declared.error.Error.TheVariants.{Invalid as invalid};
ghost use Rattle.tw_inputs.specs.declared.json_inputs.NoInputs.TheVariants.{NoMemory as no_memory};

use crate::json_faults::MOST_DEPTH;
use crate::json_item::input_of;
use json::{Error, Reader, Scratch, Value as Json};
use std::alloc::{AllocError, AllocFailed, Global};
use tw_code::input_param;
use tw_types::{DataType, Input, Param};

/// The part of a text that is at fault.
#[derive(Clone, Copy, Debug, PartialEq, Eq)]
pub enum Place {
    /// The text is no JSON.
    Text,
    /// It is JSON, and no array.
    Array,
    /// The item with this number, counted from 1, is no input for its parameter.
    Item(usize),
}

/// The reason why a text has no inputs.
#[derive(Clone, Copy, Debug, PartialEq, Eq)]
pub enum NoInputs {
    At(Place),
    /// An allocation failed.
    NoMemory,
}

impl From<AllocError> for NoInputs {
    ghost from_gives = { λ _ e. e ≡ no_memory };

    fn from(_error: AllocError) -> NoInputs {
        NoInputs::NoMemory
    }
}

impl<T: Drop> From<AllocFailed<T>> for NoInputs {
    ghost from_gives = { λ _ e. e ≡ no_memory };

    fn from(_failed: AllocFailed<T>) -> NoInputs {
        NoInputs::NoMemory
    }
}

/// Returns the type of the parameter of the input after so many. Beyond the parameters it is `int`: opening a program rejects too many inputs.
pub fn type_at(params: &[Param], index: usize) -> DataType
    ensures { result ≡ type_at params.now index }
{
    match input_param(params, index) {
        Some(param) => param.ty,
        None => DataType::int(),
    }
}

/// Reads the inputs of an array's items.
pub(crate) fn inputs_of(
    alloc: Global,
    params: &[Param],
    items: &[Json<'_>],
) -> Result<Vec<Input>, NoInputs>
    ensures read { IfOk result (λ inputs. AreInputsFrom params.now 0 (map value_view items.now) inputs.items) }
    ensures fault { IfErr result (IsBadItem params.now (map value_view items.now)) }
{
    let mut inputs = Vec::new(alloc);
    for (index, item) in items.iter().enumerate() {
        match input_of(alloc, type_at(params, index), item)? {
            Some(input) => inputs.push(input)?,
            None => return Err(NoInputs::At(Place::Item(index + 1))),
        }
    }
    Ok(inputs)
}

/// Reads a text's JSON value. Unlike `Json::parse` it takes `MOST_DEPTH`, since each level takes stack.
pub(crate) fn json_in<'a>(
    alloc: Global,
    text: &'a str,
    scratch: &'a mut Scratch,
) -> Result<Json<'a>, Error>
    ensures read { IfOk result (λ j. json_in text.entry.now ≡ Some (value_view j)) }
    ensures invalid { result ≡ Err invalid → json_in text.entry.now ≡ None }
{
    let mut reader = Reader::new(text, scratch)?;
    let value = Json::read(alloc, &mut reader, MOST_DEPTH)?;
    if reader.next().is_some() {
        return Err(Error::Invalid);
    }
    Ok(value)
}

/// Reads a program's inputs from a text: a JSON array with an item for each input.
pub fn read_inputs(
    alloc: Global,
    params: &[Param],
    text: &str,
    scratch: &mut Scratch,
) -> Result<Vec<Input>, NoInputs>
    ensures read { IfOk result (λ inputs. AreInputsIn params.now text.now inputs.items) }
    ensures fault { IfErr result (HasFault params.now text.now) }
{
    match json_in(alloc, text, scratch) {
        Ok(Json::Array(items)) => inputs_of(alloc, params, &items),
        Ok(_) => Err(NoInputs::At(Place::Array)),
        Err(Error::Invalid) => Err(NoInputs::At(Place::Text)),
        Err(_) => Err(NoInputs::NoMemory),
    }
}
