//! Checks of a program's inputs.

ghost use Rattle.std.specs.Prelude.{◌≡◌, ◌&&◌, if◌then◌else◌, length, slice_get};
ghost use Rattle.tw_code.specs.machine.Inputs.{are_entries, are_inputs_of, are_members, has_fitting_inputs, has_input_count, input_params, is_given_for, is_input_of, rises, rises_from};
ghost use Rattle.std.specs.List.{list_all};
ghost use Rattle.tw_types.specs.DataType.{container_of, has_sums, is_map, same_type, scalar_type};
ghost use Rattle.tw_types.specs.Given.{Container, Entries, members_by};
ghost use Rattle.tw_types.specs.Value.{is_short};
ghost use Rattle.tw_types.specs.ValueOrder.{named};

use crate::main_shape::main_params;
use crate::procedure::Procedure;
use tw_types::{AsValue, DataType, Input, Param, Scalar, Text, ValueRef};

/// The greatest number of members of an input.
pub const MAX_MEMBERS: usize = 1000;
/// The greatest number of values of an input that is a map.
pub const MAX_ENTRIES: usize = 100_000;

/// Returns whether there are as many inputs as main takes.
pub fn has_input_count(program: &[Procedure], inputs: &[Input]) -> bool
    ensures { result ≡ has_input_count program.now inputs.now }
{
    inputs.len() == input_count(main_params(program))
}

/// Returns whether each input fits its parameter.
pub fn has_fitting_inputs(program: &[Procedure], inputs: &[Input]) -> bool
    ensures { result ≡ has_fitting_inputs program.now inputs.now }
{
    are_inputs_of(main_params(program), inputs)
}

/// Returns how many of the parameters take an input: those that aren't `write`.
pub fn input_count(params: &[Param]) -> usize
    ensures { result ≡ length (input_params params.now) }
{
    params.iter().filter(|param| !param.mode.is_write()).count()
}

/// Returns the parameter that takes the input after `index` others.
pub fn input_param(params: &[Param], index: usize) -> Option<Param>
    ensures { result ≡ slice_get (input_params params.now) index }
{
    let mut left = index;
    for param in params {
        if !param.mode.is_write() {
            if left == 0 {
                return Some(*param);
            }
            left -= 1;
        }
    }
    None
}

/// Returns whether each input fits its parameter, as far as there are both.
fn are_inputs_of(params: &[Param], inputs: &[Input]) -> bool
    ensures { result ≡ are_inputs_of (input_params params.now) inputs.now }
{
    let mut rest = inputs;
    for param in params {
        if !param.mode.is_write() {
            let Some((input, others)) = rest.split_first() else {
                return true;
            };
            if !is_input_of(param.ty, input) {
                return false;
            }
            rest = others;
        }
    }
    true
}

/// Returns whether an input is of a type, its texts are short enough, and its members are few enough and rise.
fn is_input_of(ty: DataType, input: &Input) -> bool
    ensures { result ≡ is_input_of ty input.now }
{
    match input {
        Input::Int(_) => is_scalar_of(ty, Scalar::Int),
        Input::Text(text) => is_scalar_of(ty, Scalar::Text) && is_short(text.as_value()),
        Input::Ints(members) => fits(ty, Scalar::Int, Scalar::Int, members.as_slice()),
        Input::Texts(members) => fits(ty, Scalar::Int, Scalar::Text, members.as_slice()),
        Input::IntsByText(members) => fits(ty, Scalar::Text, Scalar::Int, members.as_slice()),
        Input::TextsByText(members) => fits(ty, Scalar::Text, Scalar::Text, members.as_slice()),
    }
}

/// Returns whether members are those of a container or a map of the type.
fn fits<K: AsValue, V: AsValue>(
    ty: DataType,
    by: Scalar,
    scalar: Scalar,
    members: &[(K, V)],
) -> bool
    ensures { result ≡ is_given_for ty (if is_map ty then Entries (has_sums ty.map) by scalar (members_by K.value V.value members.now) else Container by scalar (members_by K.value V.value members.now)) }
{
    if ty.is_map() {
        ty == ty.map_like(by, scalar) && are_entries(members)
    } else {
        is_container_of(ty, by, scalar) && are_members(members)
    }
}

/// Returns whether a type is this scalar.
fn is_scalar_of(ty: DataType, scalar: Scalar) -> bool
    ensures { result ≡ same_type ty (scalar_type scalar) }
{
    ty.is_scalar() && ty.scalar() == scalar
}

/// Returns whether a type is a container of such scalars, with such subscripts.
fn is_container_of(ty: DataType, by: Scalar, scalar: Scalar) -> bool
    ensures { result ≡ same_type ty (container_of by (scalar_type scalar)) }
{
    ty.is_flat() && ty.is_container_by(by) && ty.scalar() == scalar
}

/// Returns whether there are at most `MAX_ENTRIES` values, their subscripts rise, and no text is too long.
fn are_entries<K: AsValue, V: AsValue>(members: &[(K, V)]) -> bool
    ensures { result ≡ are_entries (members_by K.value V.value members.now) }
{
    members.len() <= MAX_ENTRIES && rises(members) && are_short(members)
}

/// Returns whether there are at most `MAX_MEMBERS` members, their subscripts rise, and no text is too long.
fn are_members<K: AsValue, V: AsValue>(members: &[(K, V)]) -> bool
    ensures { result ≡ are_members (members_by K.value V.value members.now) }
{
    members.len() <= MAX_MEMBERS && rises(members) && are_short(members)
}

/// Returns whether each subscript is greater than the one before.
pub fn rises<K: AsValue, V: AsValue>(members: &[(K, V)]) -> bool
    ensures { result ≡ rises (members_by K.value V.value members.now) }
{
    match members.split_first() {
        Some((first, others)) => rises_from(&first.0, others),
        None => true,
    }
}

/// Returns whether each subscript is greater than the one before, and the first one than this one.
fn rises_from<K: AsValue, V: AsValue>(first: &K, members: &[(K, V)]) -> bool
    ensures { result ≡ rises_from (K.value first.now) (members_by K.value V.value members.now) }
{
    let mut before = first;
    for (subscript, _) in members {
        if !before.as_value().is_before(subscript.as_value()) {
            return false;
        }
        before = subscript;
    }
    true
}

/// Returns whether no subscript and no value is too long a text.
fn are_short<K: AsValue, V: AsValue>(members: &[(K, V)]) -> bool
    ensures { result ≡ list_all (λ e. is_short e.0 && is_short e.1) (members_by K.value V.value members.now) }
{
    for (subscript, value) in members {
        if !is_short(subscript.as_value()) || !is_short(value.as_value()) {
            return false;
        }
    }
    true
}

/// Returns whether its text, if it has one, is short enough for a datum.
fn is_short(value: ValueRef<'_>) -> bool
    ensures { result ≡ is_short (named value.entry) }
{
    match value {
        ValueRef::Int(_) => true,
        ValueRef::Text(text) => text.len() <= Text::MAX_LEN,
    }
}
