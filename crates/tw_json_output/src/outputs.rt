//! JSON values of outputs, with the members of containers and the values of maps.

ghost use Rattle.std.specs.Prelude.{◌≡◌, ◌++◌, IfOk, OnOk, map, true};
ghost use Rattle.std.specs.FinMap.{entries, get};
ghost use Rattle.serde_json.specs.Data.{object};
ghost use Rattle.serde_json.specs.View.{members_view, view};
ghost use Rattle.tw_types.specs.StoreCalls.{entries_in, members_in};
ghost use Rattle.tw_datum.specs.Kept.{has_entries};
ghost use Rattle.tw_json_output.specs.Outputs.{members_json, output_json, outputs_json, values_json};

use crate::values::{datum_value, key_of, scalar_value};
use serde_json::{Map, Value as Json};
use std::alloc::{AllocError, Global};
use tw_datum::{Datum, Member};
use tw_report::ReportSource;
use tw_types::DatumId;

/// Returns the JSON object of a container's members.
fn members_value<T: ReportSource>(
    alloc: Global,
    shown: &T,
    container: &Datum<T::Kept>,
) -> Result<Json, AllocError>
    requires { T.IsShown shown.now container.now }
    ensures { IfOk result (λ v. view v ≡ object (members_json (T.live shown.now) (entries (members_in container.now.datum.content)))) }
{
    let mut members = Map::new(alloc);
    for index in 0..container.len() {
        let Some((subscript, datum)) = shown.member(container, index) else {
            unreachable!();
        };
        let key = key_of(alloc, subscript)?;
        let value = datum_value(alloc, datum)?;
        serde_json::put(&mut members, alloc, key.as_str(), value)?;
    }
    Ok(Json::Object(members))
}

/// Returns the JSON object of a map's values.
fn values_value<M: Member>(alloc: Global, map: &Datum<M>) -> Result<Json, AllocError>
    requires { has_entries map.now.datum.content ≡ true }
    ensures { IfOk result (λ v. view v ≡ object (values_json (entries (entries_in map.now.datum.content)))) }
{
    let mut values = Map::new(alloc);
    for index in 0..map.count() {
        let Some(entry) = map.nth_value(index) else {
            unreachable!();
        };
        let key = key_of(alloc, &entry.0)?;
        let value = scalar_value(alloc, &entry.1)?;
        serde_json::put(&mut values, alloc, key.as_str(), value)?;
    }
    Ok(Json::Object(values))
}

/// Returns the JSON value of an output: a scalar's value, an object of a container's members or of a map's values, or `null`.
fn output_value<T: ReportSource>(alloc: Global, shown: &T, id: DatumId) -> Result<Json, AllocError>
    ensures { IfOk result (λ v. view v ≡ output_json (T.live shown.now) (get (T.live shown.now) id)) }
{
    let Some(datum) = shown.datum(id) else {
        return Ok(Json::Null);
    };
    if let Some(value) = datum.value() {
        return scalar_value(alloc, value);
    }
    if datum.is_unset() {
        return Ok(Json::Null);
    }
    if datum.is_map() {
        return values_value(alloc, datum);
    }
    members_value(alloc, shown, datum)
}

/// Returns the JSON values of the outputs, from number 0 on.
pub fn output_values<T: ReportSource>(alloc: Global, shown: &T) -> Result<Vec<Json>, AllocError>
    ensures { IfOk result (λ v. map view v.items ≡ outputs_json (T.live shown.now) (T.ids shown.now)) }
{
    let mut values = Vec::new(alloc);
    for id in shown.outputs() {
        values.push(output_value(alloc, shown, *id)?)?;
    }
    Ok(values)
}
