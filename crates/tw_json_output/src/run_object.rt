//! The JSON line of a finished run.

ghost use Rattle.std.specs.Prelude.{◌≡◌, false, IfOk, OnOk, option_map, string_bytes};
ghost use Rattle.serde_json.specs.Data.{object};
ghost use Rattle.serde_json.specs.View.{members_view, view};
ghost use Rattle.serde_json.specs.Written.{has_float, members_have_float};
ghost use Rattle.tw_json_output.specs.Run.{circle_json, end_members, json_line, link_json, run_json, run_members, size_json, with_circle, with_pending};

use crate::output_kinds::output_kinds;
use crate::outputs::output_values;
use serde_json::{Map, Number, Value as Json, json};
use std::alloc::{AllocError, Global};
use tw_report::ReportSource;
use tw_types::Link;

/// Counts of a run.
#[derive(Clone, Copy)]
pub struct RunNumbers {
    /// The number of events.
    pub events: u64,
    /// The number of instructions executed.
    pub instructions: u128,
}

/// How a run ended.
#[derive(Drop)]
pub struct RunEnd<'a> {
    /// `quiet`, `stuck`, `limit` or `stopped`. `tw run` never stops one.
    pub status: &'a str,
    /// The number of pending rules, if the run is stuck.
    pub pending: Option<u64>,
    /// The circle of rules that wait for one another, if there is one.
    pub circle: Option<Vec<Link>>,
}

/// Returns a number of a run as JSON, or `null` past 64 bits.
fn size_value(number: u128) -> Json
    ensures { view result ≡ size_json number }
{
    match Number::from_u128(number) {
        Some(number) => Json::from(number),
        None => Json::Null,
    }
}

/// Returns a link of a stuck run's circle as a JSON array of its three numbers.
fn link_value(alloc: Global, link: &Link) -> Result<Json, AllocError>
    ensures { IfOk result (λ v. view v ≡ link_json link.now) }
{
    json!(in alloc; [link.rule.number(), link.datum.number(), link.next.number()])
}

/// Returns the links of a stuck run's circle as JSON.
fn circle_value(alloc: Global, links: &[Link]) -> Result<Json, AllocError>
    ensures { IfOk result (λ v. view v ≡ circle_json links.now) }
{
    let mut values = Vec::new(alloc);
    for link in links {
        values.push(link_value(alloc, link)?)?;
    }
    Ok(Json::from(values))
}

/// Adds the members that a stuck run has to the JSON object of a run.
fn put_pending(
    alloc: Global,
    members: &mut Map<String, Json>,
    end: &RunEnd<'_>,
) -> Result<(), AllocError>
    ensures { OnOk result (members_view members.new.entries ≡ with_circle (option_map (λ v. v.items) end.now.circle) (with_pending end.now.pending (members_view members.old.entries))) }
{
    if let Some(pending) = end.pending {
        serde_json::put(members, alloc, "pending", Json::from(pending))?;
    }
    if let Some(links) = &end.circle {
        let circle = circle_value(alloc, links)?;
        serde_json::put(members, alloc, "circle", circle)?;
    }
    Ok(())
}

/// Returns the members that the JSON object of each run has.
fn run_members<T: ReportSource>(
    alloc: Global,
    shown: &T,
    numbers: RunNumbers,
    status: &str,
) -> Result<Map<String, Json>, AllocError>
    ensures { IfOk result (λ members. members_view members.entries ≡ run_members status.now numbers.events numbers.instructions (T.live shown.now) (T.ids shown.now)) }
{
    let outputs = Json::from(output_values(alloc, shown)?);
    let kinds = Json::from(output_kinds(alloc, shown)?);
    let mut members = Map::new(alloc);
    serde_json::put(
        &mut members,
        alloc,
        "status",
        Json::try_from_str(alloc, status)?,
    )?;
    serde_json::put(&mut members, alloc, "outputs", outputs)?;
    serde_json::put(&mut members, alloc, "kinds", kinds)?;
    serde_json::put(
        &mut members,
        alloc,
        "instructions",
        size_value(numbers.instructions),
    )?;
    serde_json::put(&mut members, alloc, "events", Json::from(numbers.events))?;
    Ok(members)
}

/// Returns a JSON value as one line.
pub fn line_of(alloc: Global, value: &Json) -> Result<String, AllocError>
    requires { has_float (view value.now) ≡ false }
    ensures { IfOk result (λ line. string_bytes line ≡ json_line (view value.now)) }
{
    let mut line = value.to_string(alloc)?;
    line.push_str("\n")?;
    Ok(line)
}

/// Returns the members of the JSON object of a run, with those of a stuck one.
pub fn end_members<T: ReportSource>(
    alloc: Global,
    shown: &T,
    numbers: RunNumbers,
    end: &RunEnd<'_>,
) -> Result<Map<String, Json>, AllocError>
    ensures is { IfOk result (λ members. members_view members.entries ≡ end_members end.now.status.now end.now.pending (option_map (λ v. v.items) end.now.circle) numbers.events numbers.instructions (T.live shown.now) (T.ids shown.now)) }
    ensures whole { IfOk result (λ members. members_have_float (members_view members.entries) ≡ false) }
{
    let mut members = run_members(alloc, shown, numbers, end.status)?;
    put_pending(alloc, &mut members, end)?;
    Ok(members)
}

/// Returns the JSON object of a run, on one line.
pub fn run_line<T: ReportSource>(
    alloc: Global,
    shown: &T,
    numbers: RunNumbers,
    end: &RunEnd<'_>,
) -> Result<String, AllocError>
    ensures { IfOk result (λ line. string_bytes line ≡ json_line (run_json end.now.status.now end.now.pending (option_map (λ v. v.items) end.now.circle) numbers.events numbers.instructions (T.live shown.now) (T.ids shown.now))) }
{
    let members = end_members(alloc, shown, numbers, end)?;
    line_of(alloc, &Json::Object(members))
}
