//! Checks of a program and its inputs, before it is opened.

ghost use Rattle.std.specs.Prelude.{◌≡◌};
ghost use Rattle.tw_machine.specs.Opening.{rejection_of};

use crate::rejection::OpenError;
use tw_code::{Procedure, has_fitting_inputs, has_input_count, has_main_shape};
use tw_types::Input;

/// Returns why the reference machine can't be opened with these inputs, apart from a failed allocation.
pub fn rejection_of(program: &[Procedure], inputs: &[Input]) -> Option<OpenError>
    ensures { result ≡ rejection_of program.now inputs.now }
{
    if !has_main_shape(program) {
        Some(OpenError::MainShape)
    } else if !has_input_count(program, inputs) {
        Some(OpenError::InputCount)
    } else if !has_fitting_inputs(program, inputs) {
        Some(OpenError::InputType)
    } else {
        None
    }
}
