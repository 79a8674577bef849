//! Finds why a program isn't opened with these inputs.

ghost use Rattle.std.specs.Prelude.{◌≡◌, ◌++◌, ℕ, List, IfOk, MatchOption, false, true};
ghost use Rattle.tw_code.specs.machine.Inputs.{has_fitting_inputs};
ghost use Rattle.tw_replay_output.specs.Opening.{AreOpeningDetails, IsFirstUnfit, IsUnfitAt, IsWrongInput};
ghost use Rattle.tw_source.specs.Failure.{coded, failed_with};
ghost use Rattle.tw_source.specs.Reply.{reply};
ghost use Rattle.tw_source.specs.Source.{text_of};
ghost use Rattle.tw_visible.specs.Visible.{HidesNothing};

use std::alloc::{AllocError, Global};
use tw_asm::put_type;
use tw_code::{
    MAX_ENTRIES, MAX_MEMBERS, Procedure, has_fitting_inputs, has_input_count, input_count,
    input_param, main_params, rises,
};
use tw_report::{put, put_numbered};
use tw_source::{
    Failure, Position, Reply, SourceText, example_word, put_examples, put_failure_line, refused_by,
};
use tw_types::{AsValue, DataType, Input, Param, Scalar};
use tw_visible::put_visible;

/// Adds words that encode the inputs of these parameters, if some take one.
fn put_such(out: &mut Vec<u8>, params: &[Param]) -> Result<(), AllocError> {
    if input_count(params) == 0 {
        return Ok(());
    }
    put(out, ", such as")?;
    put_examples(out, params, " ", "")
}

/// Adds how many inputs are given, how many these parameters require, and which.
fn put_counts(out: &mut Vec<u8>, given: usize, params: &[Param]) -> Result<(), AllocError> {
    put_numbered(out, "inputs given: ", given)?;
    put_numbered(out, ", required: ", input_count(params))?;
    put_such(out, params)?;
    put(out, "\n")
}

/// Returns the type of members with these subscripts, for a parameter of type `asked`: a map if that is one, else a container. There always
/// is one.
fn many_given(asked: DataType, by: Scalar, scalar: Scalar) -> Option<DataType> {
    if !asked.is_map() {
        DataType::from(scalar).container(by)
    } else if asked.has_sums() && scalar == Scalar::Int {
        Some(DataType::sums(by))
    } else {
        Some(DataType::map(by, scalar))
    }
}

/// Returns the type of an input for a parameter of type `asked`. There always is one.
fn type_given(asked: DataType, input: &Input) -> Option<DataType> {
    match input {
        Input::Int(_) => Some(DataType::int()),
        Input::Text(_) => Some(DataType::text()),
        Input::Ints(_) => many_given(asked, Scalar::Int, Scalar::Int),
        Input::Texts(_) => many_given(asked, Scalar::Int, Scalar::Text),
        Input::IntsByText(_) => many_given(asked, Scalar::Text, Scalar::Int),
        Input::TextsByText(_) => many_given(asked, Scalar::Text, Scalar::Text),
    }
}

/// Like `has_twice`, after a subscript.
fn has_twice_after<K: AsValue, V: AsValue>(first: &K, members: &[(K, V)]) -> bool {
    let mut before = first;
    for (subscript, _) in members {
        if !before.as_value().is_before(subscript.as_value()) {
            return !subscript.as_value().is_before(before.as_value());
        }
        before = subscript;
    }
    false
}

/// Returns whether the first subscript that isn't greater than the one before is the same.
fn has_twice<K: AsValue, V: AsValue>(members: &[(K, V)]) -> bool {
    match members.split_first() {
        Some((first, others)) => has_twice_after(&first.0, others),
        None => false,
    }
}

/// Returns the limit that the members of a container or the values of a map exceed.
fn members_text<K: AsValue, V: AsValue>(asked: DataType, members: &[(K, V)]) -> &'static str {
    if asked.is_map() && members.len() > MAX_ENTRIES {
        " has more than 100000 values\n"
    } else if !asked.is_map() && members.len() > MAX_MEMBERS {
        " has more than 1000 members\n"
    } else if rises(members) {
        " has a text of more than 4096 bytes\n"
    } else if has_twice(members) {
        " has a subscript twice\n"
    } else {
        " has subscripts that don't rise\n"
    }
}

/// Returns the limit that is exceeded by an input of its parameter's type.
fn excess_text(asked: DataType, input: &Input) -> &'static str {
    match input {
        Input::Int(_) | Input::Text(_) => " is a text of more than 4096 bytes\n",
        Input::Ints(members) => members_text(asked, members.as_slice()),
        Input::Texts(members) => members_text(asked, members.as_slice()),
        Input::IntsByText(members) => members_text(asked, members.as_slice()),
        Input::TextsByText(members) => members_text(asked, members.as_slice()),
    }
}

/// Adds what type an input has, which one is required, and a word for one of that.
fn put_types(out: &mut Vec<u8>, given: DataType, asked: DataType) -> Result<(), AllocError> {
    put(out, " is")?;
    put_type(out, given)?;
    put(out, ", required:")?;
    put_type(out, asked)?;
    put(out, ", such as ")?;
    put(out, example_word(asked))?;
    put(out, "\n")
}

/// Adds why an input doesn't fit its parameter.
fn put_unfit_text(out: &mut Vec<u8>, asked: DataType, input: &Input) -> Result<(), AllocError> {
    match type_given(asked, input) {
        Some(given) => {
            if asked == given {
                put(out, excess_text(asked, input))
            } else {
                put_types(out, given, asked)
            }
        }
        None => Ok(()),
    }
}

/// Returns how many inputs precede the first that doesn't fit its parameter, if one doesn't.
pub fn first_unfit(program: &[Procedure], inputs: &[Input]) -> Option<usize>
    ensures { MatchOption result (has_fitting_inputs program.now inputs.now ≡ true) (IsFirstUnfit program.now inputs.now) }
{
    for index in 0..inputs.len() {
        if !has_fitting_inputs(program, &inputs[..index + 1]) {
            return Some(index);
        }
    }
    None
}

/// Adds how many inputs are given and required; or why the one at a position doesn't fit its parameter.
fn put_reason(
    out: &mut Vec<u8>,
    program: &[Procedure],
    inputs: &[Input],
    at: Position,
) -> Result<(), AllocError> {
    let params = main_params(program);
    if !has_input_count(program, inputs) {
        return put_counts(out, inputs.len(), params);
    }
    let Position::Input(number) = at else {
        return Ok(());
    };
    let index = number.saturating_sub(1);
    let Some(param) = input_param(params, index) else {
        return Ok(());
    };
    let Some(input) = inputs.get(index) else {
        return Ok(());
    };
    put_numbered(out, "input ", number)?;
    put_unfit_text(out, param.ty, input)
}

/// Returns the position of the first input that doesn't fit its parameter.
fn unfit_position(program: &[Procedure], inputs: &[Input]) -> Position
    ensures { has_fitting_inputs program.now inputs.now ≡ false → IsUnfitAt program.now inputs.now result }
{
    match first_unfit(program, inputs) {
        Some(index) => Position::Input(index + 1),
        None => Position::Nowhere,
    }
}

/// Returns the position of the wrong input, if there are as many as main takes and one is wrong.
fn wrong_input(program: &[Procedure], inputs: &[Input]) -> Position
    ensures { IsWrongInput program.now inputs.now result }
{
    if !has_input_count(program, inputs) {
        Position::Nowhere
    } else if has_fitting_inputs(program, inputs) {
        Position::Nowhere
    } else {
        unfit_position(program, inputs)
    }
}

/// Adds why these inputs aren't those that main takes, if they aren't, and returns which input is wrong.
fn put_inputs_diagnostic(
    alloc: Global,
    out: &mut Vec<u8>,
    program: &[Procedure],
    inputs: &[Input],
) -> Result<Position, AllocError>
    ensures { IfOk result (λ at. (more : List ℕ) × (IsWrongInput program.now inputs.now at × HidesNothing more) × (out.new.items ≡ out.old.items ++ more)) }
{
    let at = wrong_input(program, inputs);
    let mut reason = Vec::new(alloc);
    put_reason(&mut reason, program, inputs, at)?;
    put_visible(alloc, out, &reason)?;
    Ok(at)
}

/// Adds the details of a failed opening, and returns which input is wrong. Without a text there are none.
fn put_opening_details(
    alloc: Global,
    out: &mut Vec<u8>,
    source: &Option<SourceText<'_>>,
    program: &[Procedure],
    inputs: &[Input],
) -> Result<Position, AllocError>
    ensures { IfOk result (λ at. (more : List ℕ) × AreOpeningDetails (text_of source.now) program.now inputs.now at more × (out.new.items ≡ out.old.items ++ more)) }
{
    match source {
        Some(_) => put_inputs_diagnostic(alloc, out, program, inputs),
        None => Ok(Position::Nowhere),
    }
}

/// Returns the error of a program that isn't opened.
pub fn opening_failure(number: u8, position: Position) -> Failure
    ensures { result ≡ coded 79 number position }
{
    Failure::coded(b'O', number, position)
}

/// Returns the reply to a program that isn't opened with these inputs.
pub fn inputs_refused_reply(
    alloc: Global,
    source: &Option<SourceText<'_>>,
    number: u8,
    program: &[Procedure],
    inputs: &[Input],
) -> Result<Reply, AllocError>
    ensures { IfOk result (λ r. (at : Position) × (more : List ℕ) × AreOpeningDetails (text_of source.now) program.now inputs.now at more
        × (reply r.text.items r.close ≡ failed_with (coded 79 number at) more)) }
{
    let mut text = Vec::new(alloc);
    put_failure_line(&mut text, opening_failure(number, Position::Nowhere))?;
    let position = put_opening_details(alloc, &mut text, source, program, inputs)?;
    Ok(refused_by(text, opening_failure(number, position)))
}
