//! Sections of a file: a program, inputs after it, a trace.

ghost use Rattle.std.specs.Prelude.{◌≡◌, ℕ, List, length, MatchOption};
ghost use Rattle.tw_report.specs.History.{AreParts};
ghost use Rattle.tw_files.specs.Input.{HasEvents, HasNoEvents, begins_inputs as begins_inputs_is, has_inputs as has_inputs_is, is_untraced as is_untraced_is};

use crate::arguments::reads_trace;
use tw_report::cut_history;

/// Returns whether a line of a program's file is `inputs`, after which inputs follow.
fn begins_inputs(line: &[u8]) -> bool
    ensures { result ≡ begins_inputs_is line.now }
{
    line == b"inputs".as_slice() || line == b"inputs\r".as_slice()
}

/// Returns whether a program's file has inputs, too.
pub fn has_inputs(program: &[u8]) -> bool
    ensures { result ≡ has_inputs_is program.now }
{
    program.split(|byte| *byte == b'\n').any(begins_inputs)
}

/// Returns the events of a trace, after its line `events`. Returns none if it has no such line, unless it is empty.
pub fn events_in(trace: &[u8]) -> Option<&[u8]>
    ensures { MatchOption result (HasNoEvents trace.now) (λ events. HasEvents trace.now events.now) }
{
    let (before, events) = cut_history(trace);
    if before.len() == trace.len() && !trace.is_empty() {
        None
    } else {
        Some(events)
    }
}

/// Returns inputs, and the events that follow them after a line `events`, if they have such a line.
pub fn followed(inputs: &[u8]) -> Option<(&[u8], &[u8])>
    ensures { (before after : List ℕ) × AreParts inputs.now before after
        × MatchOption result (length before ≡ length inputs.now) (λ parts. (parts.0.now ≡ before) × (parts.1.now ≡ after)) }
{
    let (before, events) = cut_history(inputs);
    if before.len() == inputs.len() {
        None
    } else {
        Some((before, events))
    }
}

/// Returns whether a program's file has no trace for a command.
pub fn has_no_trace(command: &str, program: &[u8]) -> bool
    ensures { (before after : List ℕ) × AreParts program.now before after × (result ≡ is_untraced_is command.now program.now before) }
{
    let (before, _events) = cut_history(program);
    !reads_trace(command) || before.len() == program.len()
}
