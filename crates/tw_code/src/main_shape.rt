//! The shape of main.

ghost use Rattle.std.specs.Prelude.{◌≡◌};
ghost use Rattle.std.specs.List.{list_all};
ghost use Rattle.tw_code.specs.accepting.MainShape.{has_main_shape, is_main_param};
ghost use Rattle.tw_code.specs.machine.Opening.{main_params};

use crate::procedure::Procedure;
use tw_types::{Kind, Param};

/// Returns whether the first procedure has the shape that main must have: a control procedure without value parameters, whose
/// types are scalars and containers of scalars.
pub fn has_main_shape(program: &[Procedure]) -> bool
    ensures { result ≡ has_main_shape program.now }
{
    match program.first() {
        Some(main) => main.kind == Kind::Control && are_main_params(main.params.as_slice()),
        None => false,
    }
}

/// Returns the parameters of main, or none for an empty list.
pub fn main_params(program: &[Procedure]) -> &[Param]
    ensures { result.now ≡ main_params program.now }
{
    match program.first() {
        Some(main) => main.params.as_slice(),
        None => &[],
    }
}

/// Returns whether main may have these parameters.
fn are_main_params(params: &[Param]) -> bool
    ensures { result ≡ list_all is_main_param params.now }
{
    params.iter().all(is_main_param)
}

/// Returns whether main may have this parameter: not of mode `val`, and of a scalar or a container of scalars.
fn is_main_param(param: &Param) -> bool
    ensures { result ≡ is_main_param param.now }
{
    !param.mode.is_val() && param.ty.is_flat()
}
