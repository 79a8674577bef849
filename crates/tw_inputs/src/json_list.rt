//! Reads the values of a map from an array.

ghost use Rattle.std.specs.Prelude.{◌≡◌, None, Some, IfOk, MatchOption, map};
ghost use Rattle.std.specs.List.{Contains};
ghost use Rattle.json.specs.Value.{value_view};
ghost use Rattle.tw_types.specs.declared.input.Input.{Input as GivenInput};
ghost use Rattle.tw_inputs.specs.JsonInputs.{IsListed, numbered};

use crate::parts::Part;
use json::Value as Json;
use std::alloc::{AllocError, Global};
use tw_types::{Input, Items, Scalar};

/// Returns the values at the subscripts from 0 on, or none if one of the items is no such value.
fn numbered<V: Part>(alloc: Global, items: &[Json<'_>]) -> Result<Option<Vec<(i64, V)>>, AllocError>
    ensures { IfOk result (λ read. MatchOption read
        (Contains (numbered V.of_value 0 (map value_view items.now)) None)
        (λ values. map Some values.items ≡ numbered V.of_value 0 (map value_view items.now))) }
{
    let mut values = Vec::new(alloc);
    for (index, item) in items.iter().enumerate() {
        match V::from_value(alloc, item)? {
            Some(value) => values.push((index as i64, value))?,
            None => return Ok(None),
        }
    }
    Ok(Some(values))
}

/// Returns the map with int subscripts that an array is, by the type of its values.
pub(crate) fn listed(
    alloc: Global,
    scalar: Scalar,
    items: &[Json<'_>],
) -> Result<Option<Input>, AllocError>
    ensures { IfOk result (λ read. MatchOption read
        ((given : GivenInput) → IsListed scalar (map value_view items.now) given → ⊥)
        (IsListed scalar (map value_view items.now))) }
{
    match scalar {
        Scalar::Int => match numbered(alloc, items)? {
            Some(values) => Ok(Some(Input::Ints(Items::from(values)))),
            None => Ok(None),
        },
        Scalar::Text => match numbered(alloc, items)? {
            Some(values) => Ok(Some(Input::Texts(Items::from(values)))),
            None => Ok(None),
        },
    }
}
