//! The parts of what files hold.

use tw_files::{Contents, followed};

/// Returns the bytes of a file that may not have been read.
fn bytes_of(bytes: &Option<Vec<u8>>) -> Option<&[u8]> {
    match bytes {
        Some(bytes) => Some(bytes.as_slice()),
        None => None,
    }
}

/// Returns the inputs and the events of a trace that files hold, as a session's input.
pub fn inputs_and_trace(files: &Contents) -> (Option<&[u8]>, Option<&[u8]>) {
    let inputs = bytes_of(&files.inputs);
    let parts = match inputs {
        Some(inputs) if files.trace_follows => followed(inputs),
        _ => None,
    };
    match parts {
        Some((inputs, events)) => (Some(inputs), Some(events)),
        None => (inputs, bytes_of(&files.trace)),
    }
}
