//! Calls that print a report.

ghost use Rattle.std.specs.Prelude.{◌≡◌};
ghost use Rattle.tw_in_turn.specs.Stopping.{cut_of, executed_in};
ghost use Rattle.tw_run_output.specs.Json.{IsEndLine};
ghost use Rattle.tw_handles.specs.Codes.{done};
ghost use Rattle.tw_handles.specs.Texts.{IsJsonIn, IsReportOf, IsTextMade, IsTrace, capped as capped_is};

use crate::codes;
use crate::handle::Handle;
use crate::texts::keep_text;
use std::alloc::Global;
use tw_in_turn::EndedRun;
use tw_pool::Closing;
use tw_run_output::{end_line, instructions_in, report as report_text, trace as trace_text};

/// Prints a report as `tw run` does. The text's handle holds it then, and its former contents are freed.
pub fn print_report(alloc: Global, left: &EndedRun, text: &mut Handle) -> u8
    ensures { IsTextMade (IsReportOf left.now) text.old.held text.new.held result }
{
    match report_text(alloc, &left.outcome) {
        Ok(made) => keep_text(alloc, made, text),
        Err(_) => codes::NO_MEMORY,
    }
}

/// Prints the events of a run as `tw run --trace` does.
pub fn print_trace(alloc: Global, left: &EndedRun, text: &mut Handle) -> u8
    ensures { IsTextMade (IsTrace left.now) text.old.held text.new.held result }
{
    match trace_text(alloc, &left.history) {
        Ok(made) => keep_text(alloc, made, text),
        Err(_) => codes::NO_MEMORY,
    }
}

/// Prints the JSON line of a run with this end into the handle of a text.
fn put_line(alloc: Global, left: &EndedRun, closing: Closing, text: &mut Handle) -> u8
    ensures { IsTextMade (IsEndLine left.now.outcome left.now.history.events (cut_of left.now.end) closing) text.old.held text.new.held result }
{
    match end_line(alloc, &left.outcome, &left.history, left.cut(), closing) {
        Ok(line) => keep_text(alloc, line.into_bytes(), text),
        Err(_) => codes::NO_MEMORY,
    }
}

/// Prints a run as `tw run --json` does. Returns `NO_END` if the run was stopped, or memory ran out.
pub fn print_json(alloc: Global, left: &EndedRun, text: &mut Handle) -> u8
    ensures { IsJsonIn left.now text.old.held text.new.held result }
{
    match left.outcome.closing() {
        Some(closing) => put_line(alloc, left, closing, text),
        None => codes::NO_END,
    }
}

/// Returns a number of 64 bits; the greatest one if the number is larger.
fn capped(number: u128) -> u64
    ensures { result ≡ capped_is number }
{
    match u64::try_from(number) {
        Ok(number) => number,
        Err(_) => u64::MAX,
    }
}

/// Returns how many instructions a run executed, with those of a task that was cut off, at most 2 ^ 64 - 1.
pub(crate) fn instructions_of(left: &EndedRun) -> u64
    ensures { result ≡ capped_is (executed_in left.now) }
{
    capped(instructions_in(&left.history)).saturating_add(left.cut())
}

/// Writes how many instructions a run executed, with those of a task that was cut off; 2 ^ 64 - 1 if they were more.
pub fn instructions(left: &EndedRun, count: &mut u64) -> u8
    ensures count { count.new ≡ capped_is (executed_in left.now) }
    ensures code { result ≡ done }
{
    *count = instructions_of(left);
    codes::DONE
}
