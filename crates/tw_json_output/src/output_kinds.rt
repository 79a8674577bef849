//! Kinds of outputs, as words.

ghost use Rattle.std.specs.Prelude.{◌≡◌, IfOk, map, option_map};
ghost use Rattle.std.specs.Option.{option_copied};
ghost use Rattle.serde_json.specs.View.{view};
ghost use Rattle.tw_json_output.specs.Outputs.{container_kind, datum_kind, kinds_json, map_kind, values_of};

use serde_json::Value as Json;
use std::alloc::{AllocError, Global};
use tw_datum::{Datum, Member};
use tw_report::ReportSource;
use tw_types::{DataType, Scalar, Value};

/// Returns the kind of a container in JSON, by whether its subscripts are texts, by its members' type, and by whether it is
/// closed.
fn container_kind(by_text: bool, scalar: Scalar, closed: bool) -> &'static str
    ensures { result.now ≡ container_kind by_text scalar closed }
{
    match (by_text, scalar, closed) {
        (false, Scalar::Int, false) => "cont int open",
        (false, Scalar::Int, true) => "cont int closed",
        (false, Scalar::Text, false) => "cont text open",
        (false, Scalar::Text, true) => "cont text closed",
        (true, Scalar::Int, false) => "tcont int open",
        (true, Scalar::Int, true) => "tcont int closed",
        (true, Scalar::Text, false) => "tcont text open",
        (true, Scalar::Text, true) => "tcont text closed",
    }
}

/// Returns the kind of a map in JSON, by whether its subscripts are texts, by its values' type, and by whether it is closed; no
/// type is sums'.
fn map_kind(by_text: bool, values: Option<Scalar>, closed: bool) -> &'static str
    ensures { result.now ≡ map_kind by_text values closed }
{
    match (by_text, values, closed) {
        (false, None, false) => "map sum open",
        (false, None, true) => "map sum closed",
        (false, Some(Scalar::Int), false) => "map int open",
        (false, Some(Scalar::Int), true) => "map int closed",
        (false, Some(Scalar::Text), false) => "map text open",
        (false, Some(Scalar::Text), true) => "map text closed",
        (true, None, false) => "tmap sum open",
        (true, None, true) => "tmap sum closed",
        (true, Some(Scalar::Int), false) => "tmap int open",
        (true, Some(Scalar::Int), true) => "tmap int closed",
        (true, Some(Scalar::Text), false) => "tmap text open",
        (true, Some(Scalar::Text), true) => "tmap text closed",
    }
}

/// Returns the type of a map's values for its kind in JSON, or `None` for sums.
fn values_of(ty: DataType) -> Option<Scalar>
    ensures { result ≡ values_of ty }
{
    if ty.has_sums() {
        None
    } else {
        Some(ty.scalar())
    }
}

/// Returns the kind of an output, in the words of the report's lines.
fn datum_kind<M: Member>(datum: Option<&Datum<M>>) -> &'static str
    ensures { result.now ≡ datum_kind (option_map (λ d. d.datum) (option_copied datum.entry)) }
{
    let Some(datum) = datum else {
        return "gone";
    };
    match datum.value() {
        Some(Value::Int(_)) => "int",
        Some(Value::Text(_)) => "text",
        None if datum.is_unset() => "unset",
        None if datum.is_map() => {
            let ty = datum.ty();
            map_kind(ty.is_map_by(Scalar::Text), values_of(ty), datum.closed())
        }
        None => {
            let ty = datum.ty();
            container_kind(
                ty.is_container_by(Scalar::Text),
                ty.scalar(),
                datum.closed(),
            )
        }
    }
}

/// Returns the kinds of the outputs in JSON, from number 0 on.
pub fn output_kinds<T: ReportSource>(alloc: Global, shown: &T) -> Result<Vec<Json>, AllocError>
    ensures { IfOk result (λ v. map view v.items ≡ kinds_json (T.live shown.now) (T.ids shown.now)) }
{
    let mut kinds = Vec::new(alloc);
    for id in shown.outputs() {
        let kind = datum_kind(shown.datum(*id));
        kinds.push(Json::try_from_str(alloc, kind)?)?;
    }
    Ok(kinds)
}
