//! The JSON line of a finished run.

ghost use Rattle.std.specs.Prelude.{◌≡◌, ◌≤◌, ◌*◌, false, IfOk, length, option_map, string_bytes};
ghost use Rattle.serde_json.specs.View.{members_view};
ghost use Rattle.serde_json.specs.Written.{members_have_float};
ghost use Rattle.tw_bounds.specs.Runs.{instructions_in};
ghost use Rattle.tw_run_output.specs.Ends.{InEachState};
ghost use Rattle.tw_run_output.specs.Json.{AreEndMembers, IsEndLine, circle_in, cut_at, pending_of, status_of};

use crate::end_report::circle;
use crate::finished_run::FinishedRun;
use serde_json::{Map, Value as Json};
use std::alloc::{AllocError, Global};
use tw_json_output::{RunEnd, RunNumbers, line_of};
use tw_pool::{Closing, Final, History};
use tw_replay_output::instructions_by;
use tw_types::Link;

/// Returns the word for the end of a run.
fn status_of(closing: Closing) -> &'static str
    ensures { result.now ≡ status_of closing }
{
    match closing {
        Closing::Quiet => "quiet",
        Closing::Stuck(_) => "stuck",
        Closing::Stopped => "stopped",
        Closing::Limit => "limit",
    }
}

/// Returns the number of pending rules of a stuck run.
fn pending_of(closing: Closing) -> Option<u64>
    ensures { result ≡ pending_of closing }
{
    match closing {
        Closing::Stuck(rules) => Some(rules),
        Closing::Quiet | Closing::Stopped | Closing::Limit => None,
    }
}

/// Returns the circle of rules of a stuck run, if there is one.
fn circle_of(alloc: Global, left: &Final, closing: Closing) -> Result<Option<Vec<Link>>, AllocError>
    ensures { IfOk result (λ found. InEachState left.now (λ program s. option_map (λ v. v.items) found ≡ circle_in program s closing)) }
{
    match closing {
        Closing::Stuck(_) => circle(alloc, left),
        Closing::Quiet | Closing::Stopped | Closing::Limit => Ok(None),
    }
}

/// Returns how many instructions a trace executes.
pub fn instructions_in(history: &History) -> u128
    ensures is { result ≡ instructions_in history.now.events }
    ensures few { result ≤ length history.now.events * 18446744073709551615 }
{
    let mut sum = 0;
    for index in 0..history.len() {
        sum += u128::from(instructions_by(history.event(index)));
    }
    sum
}

/// Returns the local instructions of tasks that were cut off, if the run ended by a stop.
fn cut_at(closing: Closing, cut: u64) -> u64
    ensures { result ≡ cut_at closing cut }
{
    match closing {
        Closing::Stopped => cut,
        Closing::Quiet | Closing::Stuck(_) | Closing::Limit => 0,
    }
}

/// Returns the members of the JSON object of a finished run, whose tasks that were cut off executed so many local instructions.
pub(crate) fn end_members(
    alloc: Global,
    left: &Final,
    history: &History,
    cut: u64,
    closing: Closing,
) -> Result<Map<String, Json>, AllocError>
    ensures are { IfOk result (λ members. AreEndMembers left.now history.now.events cut closing (members_view members.entries)) }
    ensures whole { IfOk result (λ members. members_have_float (members_view members.entries) ≡ false) }
{
    let numbers = RunNumbers {
        events: history.len() as u64,
        instructions: instructions_in(history) + u128::from(cut_at(closing, cut)),
    };
    let end = RunEnd {
        status: status_of(closing),
        pending: pending_of(closing),
        circle: circle_of(alloc, left, closing)?,
    };
    tw_json_output::end_members(alloc, &FinishedRun { of: left }, numbers, &end)
}

/// Returns the JSON line of a finished run, whose tasks that were cut off executed so many local instructions.
pub fn end_line(
    alloc: Global,
    left: &Final,
    history: &History,
    cut: u64,
    closing: Closing,
) -> Result<String, AllocError>
    ensures { IfOk result (λ line. IsEndLine left.now history.now.events cut closing (string_bytes line)) }
{
    let members = end_members(alloc, left, history, cut, closing)?;
    line_of(alloc, &Json::Object(members))
}
