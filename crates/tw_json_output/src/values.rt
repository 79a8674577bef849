//! JSON values of scalars and of members.

ghost use Rattle.std.specs.Prelude.{◌≡◌, IfOk, option_map, string_bytes};
ghost use Rattle.std.specs.Option.{option_copied};
ghost use Rattle.serde_json.specs.View.{view};
ghost use Rattle.tw_json_output.specs.Outputs.{datum_json, key_of, scalar_json};

use itoa::Buffer;
use serde_json::Value as Json;
use std::alloc::{AllocError, Global};
use tw_datum::{Datum, Member};
use tw_types::Value;

/// Returns an integer as a JSON number, and a text as a JSON string.
pub fn scalar_value(alloc: Global, value: &Value) -> Result<Json, AllocError>
    ensures { IfOk result (λ v. view v ≡ scalar_json value.now) }
{
    match value {
        Value::Int(number) => Ok(Json::from(*number)),
        Value::Text(text) => Json::try_from_str(alloc, text.as_str()),
    }
}

/// Returns the JSON key of a member: its subscript, in decimal digits if that is an integer.
pub fn key_of(alloc: Global, subscript: &Value) -> Result<String, AllocError>
    ensures { IfOk result (λ key. string_bytes key ≡ key_of subscript.now) }
{
    match subscript {
        Value::Int(number) => {
            let mut digits = Buffer::new();
            String::from_str(alloc, digits.format(*number))
        }
        Value::Text(text) => String::from_str(alloc, text.as_str()),
    }
}

/// Returns the JSON value of a scalar, or `null` if it is unset or freed.
pub fn datum_value<M: Member>(alloc: Global, datum: Option<&Datum<M>>) -> Result<Json, AllocError>
    ensures { IfOk result (λ v. view v ≡ datum_json (option_map (λ d. d.datum) (option_copied datum.entry))) }
{
    let Some(datum) = datum else {
        return Ok(Json::Null);
    };
    match datum.value() {
        Some(value) => scalar_value(alloc, value),
        None => Ok(Json::Null),
    }
}
