//! Reads one input by its parameter's type.

ghost use Rattle.std.specs.Prelude.{◌≡◌, IfOk, MatchOption, option_map};
ghost use Rattle.tw_types.specs.DataType.{has_subscripts_by};
ghost use Rattle.tw_types.specs.declared.data_type.Scalar.{Scalar as ScalarType};
ghost use Rattle.tw_types.specs.declared.data_type.Scalar.TheVariants as scalar;
ghost use Rattle.tw_types.specs.declared.input.Input.{Input as GivenInput};
ghost use Rattle.tw_types.specs.declared.input.Input.TheVariants.{Int};
ghost use Rattle.json.specs.Value.{members_view, value_view};
ghost use Rattle.tw_inputs.specs.JsonInputs.{IsContainer, IsInput, int_in};

use crate::json_list::listed;
use crate::json_members::members;
use crate::parts::{int_of, text_of};
use json::Value as Json;
use std::alloc::{AllocError, Global};
use tw_types::{DataType, Input, Items, Scalar};

/// Returns the container that an object is, by the types of its subscripts and of its values.
fn container_of(
    alloc: Global,
    by_text: bool,
    scalar: Scalar,
    object: &[(&str, Json<'_>)],
) -> Result<Option<Input>, AllocError>
    ensures { IfOk result (λ read. MatchOption read
        ((given : GivenInput) → IsContainer by_text scalar (members_view object.now) given → ⊥)
        (IsContainer by_text scalar (members_view object.now))) }
{
    match (by_text, scalar) {
        (false, Scalar::Int) => match members(alloc, object)? {
            Some(members) => Ok(Some(Input::Ints(Items::from(members)))),
            None => Ok(None),
        },
        (false, Scalar::Text) => match members(alloc, object)? {
            Some(members) => Ok(Some(Input::Texts(Items::from(members)))),
            None => Ok(None),
        },
        (true, Scalar::Int) => match members(alloc, object)? {
            Some(members) => Ok(Some(Input::IntsByText(Items::from(members)))),
            None => Ok(None),
        },
        (true, Scalar::Text) => match members(alloc, object)? {
            Some(members) => Ok(Some(Input::TextsByText(Items::from(members)))),
            None => Ok(None),
        },
    }
}

/// Returns the input that a number is, if it is an integer of 64 bits.
fn input_of_number(digits: &str) -> Option<Input>
    ensures { result ≡ option_map Int (int_in digits.now) }
{
    int_of(digits.as_bytes()).map(|number| Input::Int(number))
}

/// Returns the input that a JSON value is for a parameter of this type, if it is one. An integer and a text needn't be of the type: opening
/// the program compares them.
pub fn input_of(alloc: Global, ty: DataType, value: &Json<'_>) -> Result<Option<Input>, AllocError>
    ensures { IfOk result (λ read. MatchOption read
        ((given : GivenInput) → IsInput ty (value_view value.now) given → ⊥)
        (IsInput ty (value_view value.now))) }
{
    match value {
        Json::Number(digits) => Ok(input_of_number(digits)),
        Json::String(text) => Ok(Some(Input::Text(text_of(alloc, text)?))),
        Json::Object(object) => {
            container_of(
                alloc,
                ty.has_subscripts_by(Scalar::Text),
                ty.scalar(),
                object,
            )
        }
        Json::Array(items) if ty.is_map_by(Scalar::Int) => listed(alloc, ty.scalar(), items),
        Json::Null | Json::Bool(_) | Json::Array(_) => Ok(None),
    }
}
