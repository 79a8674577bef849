//! The contents of a handle.

use crate::container::Container;
use crate::finished::Finished;
use std::sync::Arc;
use tw_flags::StopFlag;
use tw_types::Input;
use tw_verify::Verified;

/// A loaded program, the inputs of a run, a container among them, the report of a run, a stop flag, or a text.
#[derive(Drop)]
pub enum Held {
    /// An accepted program, shared by all handles that `share` made from one.
    Program(Arc<Verified>),
    /// Inputs, in the order of main's parameters.
    Inputs(Vec<Input>),
    /// A container that is to be an input.
    Container(Container),
    /// The result of a run, and its certificate.
    Report(Finished),
    /// A stop flag, shared by its handles.
    Stop(StopFlag),
    /// A text that a call made.
    Text(Vec<u8>),
}
