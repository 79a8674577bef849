//! The inputs of a run.

ghost use Rattle.std.specs.Prelude.{◌≡◌, ◌∷◌, [], Some, None, IfOk};
ghost use Rattle.tw_types.specs.declared.input.Input.TheVariants as input;
ghost use Rattle.tw_handles.specs.Loading.{inputs_in};
ghost use Rattle.tw_handles.specs.Containers.{IsTextOf, WithText};
ghost use Rattle.tw_handles.specs.Running.{IsAdded, IsAppended};

use crate::codes;
use crate::handle::Handle;
use crate::held::Held;
use std::alloc::{AllocError, Global};
use tw_types::{Input, InputText};

/// Makes a handle of one input.
fn handle_of(alloc: Global, input: Input) -> Result<Handle, AllocError>
    ensures { IfOk result (λ h. inputs_in h.held ≡ Some (input ∷ [])) }
{
    let mut inputs = Vec::new(alloc);
    match inputs.push(input) {
        Ok(()) => Handle::of_held(alloc, Held::Inputs(inputs)),
        Err(_) => Err(AllocError),
    }
}

/// Puts one input into a null handle.
fn begin(alloc: Global, inputs: &mut Handle, input: Input) -> u8
    requires { inputs.old.held ≡ None }
    ensures { IsAppended input [] inputs.new.held result }
{
    match handle_of(alloc, input) {
        Ok(handle) => {
            *inputs = handle;
            codes::DONE
        }
        Err(_) => codes::NO_MEMORY,
    }
}

/// Appends an input, if the contents are inputs.
fn add_held(held: &mut Held, input: Input) -> u8
    ensures { IsAdded input (Some held.old) (Some held.new) result }
{
    match held {
        Held::Inputs(inputs) => match inputs.push(input) {
            Ok(()) => codes::DONE,
            Err(_) => codes::NO_MEMORY,
        },
        Held::Program(_) | Held::Container(_) | Held::Report(_) | Held::Stop(_) | Held::Text(_) =>
            codes::NO_INPUTS,
    }
}

/// Appends an input to those of a handle.
pub(crate) fn add(alloc: Global, inputs: &mut Handle, input: Input) -> u8
    ensures { IsAdded input inputs.old.held inputs.new.held result }
{
    let Some(mut whole) = inputs.take(alloc) else {
        return begin(alloc, inputs, input);
    };
    let code = add_held(&mut whole, input);
    *inputs = Handle::of(whole);
    code
}

/// Copies bytes that are a text.
pub(crate) fn text_of(alloc: Global, bytes: &[u8]) -> Result<InputText, u8>
    ensures { IsTextOf bytes.now result }
{
    let Ok(text) = str::from_utf8(bytes) else {
        return Err(codes::NO_UTF8);
    };
    match String::from_str(alloc, text) {
        Ok(string) => Ok(InputText::from(string)),
        Err(_) => Err(codes::NO_MEMORY),
    }
}

/// Appends an integer to the inputs of a handle. A null handle is an empty list. Returns `NO_INPUTS` if the handle holds a program or a report.
pub fn input_int(alloc: Global, inputs: &mut Handle, number: i64) -> u8
    ensures { IsAdded (input.Int number) inputs.old.held inputs.new.held result }
{
    add(alloc, inputs, Input::Int(number))
}

/// Appends a text to the inputs of a handle. A null handle is an empty list. Returns `NO_UTF8` if the bytes aren't UTF-8.
pub fn input_text(alloc: Global, inputs: &mut Handle, text: &[u8]) -> u8
    ensures { WithText text.now (IsAdded (input.Text text.now) inputs.old.held inputs.new.held result) inputs.old.held inputs.new.held result }
{
    match text_of(alloc, text) {
        Ok(text) => add(alloc, inputs, Input::Text(text)),
        Err(code) => code,
    }
}
