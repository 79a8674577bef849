//! Calls that read a report.

ghost use Rattle.std.specs.Prelude.{◌≡◌, Err, MatchResult, Ok, Some};
ghost use Rattle.tw_handles.specs.Codes.{done};
ghost use Rattle.tw_handles.specs.Reading.{IsOutputIn, IsOutputTextIn, closing_status as closing_status_is, end_status as end_status_is, ending_of, readable_of};
ghost use Rattle.tw_handles.specs.Numbers.{filled};

use crate::codes;
use crate::finished::Finished;
use crate::item::{Item, item_of, value_of, write_text};
use crate::numbers::put;
use tw_in_turn::{End, EndedRun};
use tw_pool::{Closing, Final};

/// Returns the exit status of a run that ended.
fn closing_status(closing: Option<Closing>) -> u8
    ensures { result ≡ closing_status_is closing }
{
    match closing {
        Some(Closing::Quiet) => 0,
        Some(Closing::Stuck(_)) => 3,
        Some(Closing::Limit) => 4,
        Some(Closing::Stopped) | None => 5,
    }
}

/// Returns the exit status of a run, 5 if memory ran out and 8 if it was stopped.
fn end_status(left: &EndedRun) -> u8
    ensures { result ≡ end_status_is left.now }
{
    match left.end {
        End::Over => closing_status(left.outcome.closing()),
        End::NoMemory => 5,
        End::Stopped(_) => 8,
    }
}

/// Writes the end of a run in numbers: of events and of outputs, and the exit status of `tw run`: 0 quiet, 3 stuck, 4 limit, 5 out of memory; or 8 if
/// it was stopped.
pub fn report_ending(left: &EndedRun, numbers: &mut [u64]) -> u8
    ensures numbers { numbers.new ≡ filled (ending_of left.now) numbers.old }
    ensures code { result ≡ done }
{
    let events = left.history.len() as u64;
    let outputs = left.outcome.outputs().len() as u64;
    put(&[events, outputs, end_status(left) as u64], numbers);
    codes::DONE
}

/// Returns the outputs and the store of a report, if they are read. Those of a run that didn't end by itself, quiet, are read only if its options
/// ask for what is there: otherwise returns `UNFINISHED`.
pub(crate) fn readable(run: &Finished) -> Result<&Final, u8>
    ensures { MatchResult result (λ outcome. readable_of (Some run.now) ≡ Ok outcome.now) (λ code. readable_of (Some run.now) ≡ Err code) }
{
    if run.partial || end_status(&run.left) == 0 {
        Ok(&run.left.outcome)
    } else {
        Err(codes::UNFINISHED)
    }
}

/// Describes the output with this index, from 0. Returns `NO_INDEX` if there are fewer.
pub fn output(outcome: &Final, index: usize, item: &mut Item) -> u8
    ensures { IsOutputIn outcome.now index item.old item.new result }
{
    let outputs = outcome.outputs();
    if index < outputs.len() {
        *item = item_of(outcome.view(outputs[index]));
        codes::DONE
    } else {
        codes::NO_INDEX
    }
}

/// Writes the text of an output to the start of a buffer. `output` returns its length. Returns `NO_TEXT` if the output is no text, and `NO_ROOM` if
/// the buffer is shorter.
pub fn output_text(outcome: &Final, index: usize, room: &mut [u8]) -> u8
    ensures { IsOutputTextIn outcome.now index room.old room.new result }
{
    let outputs = outcome.outputs();
    if index < outputs.len() {
        write_text(value_of(outcome.view(outputs[index])), room)
    } else {
        codes::NO_INDEX
    }
}
