//! Types whose data are texts, and the texts that an instruction adds.

ghost use Rattle.std.specs.Prelude.{◌≡◌, ◌≤◌, false, if◌then◌else◌, length, slice_get};
ghost use Rattle.std.specs.Option.{option_map_or};
ghost use Rattle.tw_bounds.specs.Bounds.{text_in, text_registers, texts_added};
ghost use Rattle.tw_bounds.specs.Contents.{is_text, is_text_scalar};

use tw_code::DataInstr;
use tw_types::{DataType, Scalar};

/// Returns whether registers of this type hold texts, which bounds count.
pub fn is_text(scalar: Scalar) -> bool
    ensures { result ≡ is_text scalar }
{
    matches!(scalar, Scalar::Text)
}

/// Returns whether data of this type are scalars of texts.
pub fn is_text_scalar(ty: DataType) -> bool
    ensures { result ≡ is_text_scalar ty }
{
    ty.is_scalar() && is_text(ty.scalar())
}

/// Returns 1 if a thing is counted in a bound, else 0.
pub fn one_if(is_one: bool) -> u64
    ensures is { result ≡ (if is_one then 1 else 0) }
    ensures few { result ≤ 1 }
{
    if is_one { 1 } else { 0 }
}

/// Returns 1 for a register of texts, else 0.
fn text_in(registers: &[Scalar], register: u8) -> u64
    ensures is { result ≡ text_in registers.now register }
    ensures few { result ≤ 1 }
{
    match registers.get(usize::from(register)) {
        Some(scalar) => one_if(is_text(*scalar)),
        None => 0,
    }
}

/// Counts the registers of texts.
pub fn text_registers(registers: &[Scalar]) -> usize
    ensures is { result ≡ text_registers registers.now }
    ensures few { result ≤ length registers.now }
{
    registers.iter().filter(|scalar| is_text(**scalar)).count()
}

/// Counts the texts that an instruction adds at most, by the types of the procedure's registers.
pub fn texts_added(registers: &[Scalar], instr: &DataInstr) -> u64
    ensures is { result ≡ texts_added registers.now instr.now }
    ensures few { result ≤ 2 }
{
    match instr {
        DataInstr::New { ty, .. } => one_if(is_text_scalar(*ty)),
        DataInstr::Insert { by, .. } => one_if(is_text(*by)),
        DataInstr::InsertValue {
            subscript,
            from,
            ..
        } => { text_in(registers, *subscript) + text_in(registers, *from) }
        DataInstr::AddValue { subscript, .. } => text_in(registers, *subscript),
        _ => 0,
    }
}
