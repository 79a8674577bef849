//! Calls on the procedures of a loaded program.

ghost use Rattle.std.specs.Prelude.{◌≡◌, IfOk};
ghost use Rattle.tw_handles.specs.Codes.{done};
ghost use Rattle.tw_handles.specs.Texts.{IsTextMade};
ghost use Rattle.tw_handles.specs.Shape.{IsNameIn, IsNameRead, IsParameterIn, IsSectionIn, by_inside as by_inside_is, by_of as by_of_is, kind_letter as kind_letter_is, map_letter as map_letter_is, members_of as members_of_is, mode_letter as mode_letter_is, needs_of, parameter_at as parameter_at_is, parameter_of, section_of};
ghost use Rattle.tw_handles.specs.Numbers.{filled};

use crate::codes;
use crate::handle::Handle;
use crate::item::{leaf_letter, letter_of};
use crate::numbers::put;
use crate::texts::keep_text;
use std::alloc::{AllocError, Global};
use tw_code::Procedure;
use tw_symbols::Symbols;
use tw_types::{DataType, Kind, Mode, Param, Scalar};
use tw_verify::Verified;

/// Returns the letter of a kind.
fn kind_letter(kind: Kind) -> u8
    ensures { result ≡ kind_letter_is kind }
{
    match kind {
        Kind::Control => b'c',
        Kind::Leaf => b'l',
    }
}

/// Writes the number of parameters, and the letter of the kind.
fn put_section(procedure: &Procedure, numbers: &mut [u64])
    ensures { numbers.new ≡ filled (section_of procedure.now) numbers.old }
{
    let parameters = procedure.params.as_slice().len() as u64;
    put(&[parameters, kind_letter(procedure.kind) as u64], numbers);
}

/// Describes a procedure in numbers: how many parameters it has, and its kind, `c` control or `l` leaf. Returns `NO_INDEX` if there is no
/// such procedure.
pub fn describe_procedure(verified: &Verified, procedure: usize, numbers: &mut [u64]) -> u8
    ensures { IsSectionIn verified.now procedure numbers.old numbers.new result }
{
    match verified.program().procedures().get(procedure) {
        Some(found) => {
            put_section(found, numbers);
            codes::DONE
        }
        None => codes::NO_INDEX,
    }
}

/// Returns the letter of a mode.
fn mode_letter(mode: Mode) -> u8
    ensures { result ≡ mode_letter_is mode }
{
    match mode {
        Mode::Val => b'v',
        Mode::Closed => b'c',
        Mode::Ref => b'r',
        Mode::Write => b'w',
    }
}

/// Returns the letter of a container's subscripts, or 0 for a scalar or a map.
fn by_of(ty: DataType) -> u8
    ensures { result ≡ by_of_is ty }
{
    if !ty.is_container() {
        0
    } else if ty.is_container_by(Scalar::Text) {
        b't'
    } else {
        b'i'
    }
}

/// Returns the letter of the subscripts of the map inside all containers, or 0 if there is none.
fn map_letter(ty: DataType) -> u8
    ensures { result ≡ map_letter_is ty }
{
    match ty.map_by() {
        Some(by) => letter_of(by),
        None => 0,
    }
}

/// Returns the letter of the subscripts of the containers inside one, or 0 if there are none.
fn by_inside(ty: Option<DataType>) -> u8
    ensures { result ≡ by_inside_is ty }
{
    match ty {
        Some(ty) => by_of(ty),
        None => 0,
    }
}

/// Returns the type of a container's members.
fn members_of(ty: Option<DataType>) -> Option<DataType>
    ensures { result ≡ members_of_is ty }
{
    match ty {
        Some(ty) => ty.element(),
        None => None,
    }
}

/// Writes the letter of the mode, the number of containers around the scalar or map, the letter of the scalar or of the map's values, and those of the
/// subscripts of three containers and of the map.
fn put_parameter(param: &Param, numbers: &mut [u64])
    ensures { numbers.new ≡ filled (parameter_of param.now) numbers.old }
{
    let ty = param.ty;
    let found = [
        mode_letter(param.mode) as u64,
        ty.depth() as u64,
        leaf_letter(ty) as u64,
        by_of(ty) as u64,
        by_inside(ty.element()) as u64,
        by_inside(members_of(ty.element())) as u64,
        map_letter(ty) as u64,
    ];
    put(&found, numbers);
}

/// Returns a parameter of a procedure, if there is such a one.
fn parameter_at(verified: &Verified, procedure: usize, index: usize) -> Option<Param>
    ensures { result ≡ parameter_at_is verified.now procedure index }
{
    match verified.program().procedures().get(procedure) {
        Some(found) => found.params.as_slice().get(index).copied(),
        None => None,
    }
}

/// Describes a parameter of a procedure. Returns `NO_INDEX` if there is no such procedure or parameter.
pub fn describe_parameter(
    verified: &Verified,
    procedure: usize,
    index: usize,
    numbers: &mut [u64],
) -> u8
    ensures { IsParameterIn verified.now procedure index numbers.old numbers.new result }
{
    match parameter_at(verified, procedure, index) {
        Some(param) => {
            put_parameter(&param, numbers);
            codes::DONE
        }
        None => codes::NO_INDEX,
    }
}

/// Writes how many engines and workers a run of a program needs.
pub fn read_needs(verified: &Verified, numbers: &mut [u64]) -> u8
    ensures numbers { numbers.new ≡ filled (needs_of verified.now) numbers.old }
    ensures code { result ≡ done }
{
    let (engines, workers) = verified.needs();
    put(&[engines as u64, workers as u64], numbers);
    codes::DONE
}

/// Returns the name that a text gives a procedure.
fn name_of(alloc: Global, source: &str, procedure: usize) -> Result<Vec<u8>, AllocError>
    ensures { IfOk result (λ name. IsNameIn source.now procedure name.items) }
{
    let symbols = Symbols::of(alloc, source)?;
    symbols.procedure(procedure).to_vec(alloc)
}

/// Puts that name into the handle of a text.
fn put_name(alloc: Global, source: &str, procedure: usize, text: &mut Handle) -> u8
    ensures { IsTextMade (IsNameIn source.now procedure) text.old.held text.new.held result }
{
    match name_of(alloc, source, procedure) {
        Ok(made) => keep_text(alloc, made, text),
        Err(_) => codes::NO_MEMORY,
    }
}

/// Finds the name that an assembly text gives the procedure of this number. It is empty if the text gives none. The text's handle holds it then.
pub fn source_name(alloc: Global, source: &[u8], procedure: usize, text: &mut Handle) -> u8
    ensures { IsNameRead source.now procedure text.old.held text.new.held result }
{
    match str::from_utf8(source) {
        Ok(source) => put_name(alloc, source, procedure, text),
        Err(_) => codes::NO_UTF8,
    }
}
