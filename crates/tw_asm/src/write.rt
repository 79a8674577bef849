//! Writes statements as lines.

ghost use Rattle.std.specs.Prelude.{◌≡◌, ◌++◌, [], ◌∷◌, None, OnOk, codes, decimal, map, if◌then◌else◌};
ghost use Rattle.std.specs.Fmt.{signed_decimal};
ghost use Rattle.std.specs.List.{flat_map};
ghost use Rattle.tw_asm.specs.Parts.{container_word, kind_word, leaf_words, map_word, mode_word, scalar_word, sum_word, Target as target_part, TypeOf as type_part, param_parts};
ghost use Rattle.tw_asm.specs.Statement.{Code, Head, Label, Registers};
ghost use Rattle.tw_asm.specs.Disassembly.{version_line};
ghost use Rattle.tw_asm.specs.Written.{goal_word, line_of, part_words};
ghost use Rattle.tw_types.specs.DataType.{has_sums, is_container_by};
ghost use Rattle.tw_types.specs.declared.data_type.Scalar.TheVariants.{Int, Text};
ghost use Rattle.tw_code.specs.format.Table.{word_of};
ghost use Rattle.tw_asm.specs.words.Lines.{spaced_all, operand_words, row_line};
ghost use Rattle.tw_code.specs.format.Program.{IsInstr};
ghost use Rattle.tw_code.specs.format.Sink.{seen};
ghost use Rattle.tw_lexer.specs.Quoted.{quoted};

use std::alloc::{AllocError, Global};
use tw_code::{Instr, Opcode, Operand, Sink, Version, word_of};
use tw_lexer::{put, put_both, put_numbered, put_quoted};
use tw_types::{DataType, Kind, Mode, Param, Scalar};

/// Returns the word of a kind of procedures.
fn kind_word(kind: Kind) -> &'static str
    ensures { result.now ≡ kind_word kind }
{
    match kind {
        Kind::Control => "control",
        Kind::Leaf => "leaf",
    }
}

/// Returns the word of a mode.
fn mode_word(mode: Mode) -> &'static str
    ensures { result.now ≡ mode_word mode }
{
    match mode {
        Mode::Val => "val",
        Mode::Closed => "closed",
        Mode::Ref => "ref",
        Mode::Write => "write",
    }
}

/// Returns the word of a scalar type.
fn scalar_word(scalar: Scalar) -> &'static str
    ensures { result.now ≡ scalar_word scalar }
{
    match scalar {
        Scalar::Int => "int",
        Scalar::Text => "text",
    }
}

/// Returns the word of the outermost container.
fn word_of_container(ty: DataType) -> &'static str
    ensures { result.now ≡ (if is_container_by Text ty then container_word Text else container_word Int) }
{
    if ty.is_container_by(Scalar::Text) {
        "tcont"
    } else {
        "cont"
    }
}

/// Returns the word of a map, by the type of its subscripts.
fn map_word(by: Scalar) -> &'static str
    ensures { result.now ≡ map_word by }
{
    match by {
        Scalar::Int => "map",
        Scalar::Text => "tmap",
    }
}

/// Returns the word of a map's sums. There are none of texts.
fn sum_word(scalar: Scalar) -> &'static str
    ensures { result.now ≡ sum_word scalar }
{
    match scalar {
        Scalar::Int => "sum",
        Scalar::Text => "texts",
    }
}

/// Returns the last word of a map's type: that of its values, or of its sums.
fn word_of_values(ty: DataType) -> &'static str
    ensures { result.now ≡ (if has_sums ty.map then sum_word ty.scalar else scalar_word ty.scalar) }
{
    if ty.has_sums() {
        sum_word(ty.scalar())
    } else {
        scalar_word(ty.scalar())
    }
}

/// Writes a number after a space.
fn put_number(alloc: Global, out: &mut Vec<u8>, number: i64) -> Result<(), AllocError>
    ensures { OnOk result (out.new.items ≡ out.old.items ++ (codes " " ++ signed_decimal number)) }
{
    let digits = format!(in alloc; "{number}")?;
    put_both(out, " ", &digits)
}

// ---- a part, with a space before each of its words

/// Writes a word after a space.
fn put_name(out: &mut Vec<u8>, name: &str) -> Result<(), AllocError>
    ensures { OnOk result (out.new.items ≡ out.old.items ++ spaced_all (name.now ∷ [])) }
{
    put_both(out, " ", name)
}

/// Writes a type: its containers from the outermost on, then its leaf; a space before each word.
#[tactic(auto, using(crate::proofs::Lines::spaced_more))]
pub fn put_type(out: &mut Vec<u8>, ty: DataType) -> Result<(), AllocError>
    ensures { OnOk result (out.new.items ≡ out.old.items ++ spaced_all (part_words (goal_word None) (type_part ty))) }
{
    match ty.element() {
        Some(element) => {
            put_name(out, word_of_container(ty))?;
            put_type(out, element)
        }
        None => put_leaf(out, ty),
    }
}

/// Writes a type without containers: a scalar, or a map.
fn put_leaf(out: &mut Vec<u8>, ty: DataType) -> Result<(), AllocError>
    ensures { OnOk result (out.new.items ≡ out.old.items ++ spaced_all (leaf_words ty.map ty.scalar)) }
{
    match ty.map_by() {
        Some(by) => {
            put_name(out, map_word(by))?;
            put_name(out, word_of_values(ty))
        }
        None => put_scalar(out, ty.scalar()),
    }
}

/// Writes a scalar type.
fn put_scalar(out: &mut Vec<u8>, scalar: Scalar) -> Result<(), AllocError>
    ensures { OnOk result (out.new.items ≡ out.old.items ++ spaced_all (scalar_word scalar ∷ [])) }
{
    put_name(out, scalar_word(scalar))
}

/// Adds a parameter: its mode and its type; a space before each word.
#[tactic(auto, using(crate::proofs::Lines::spaced_param))]
pub fn put_param(out: &mut Vec<u8>, param: Param) -> Result<(), AllocError>
    ensures { OnOk result (out.new.items ≡ out.old.items ++ spaced_all (flat_map (part_words (goal_word None)) (param_parts param))) }
{
    put_name(out, mode_word(param.mode))?;
    put_type(out, param.ty)
}

/// Writes a target: the number of an actor, or `any`.
fn put_target(out: &mut Vec<u8>, target: Option<u8>) -> Result<(), AllocError>
    ensures { OnOk result (out.new.items ≡ out.old.items ++ spaced_all (part_words (goal_word None) (target_part target))) }
{
    match target {
        Some(number) => put_numbered(out, " ", usize::from(number)),
        None => put(out, " any"),
    }
}

/// Writes a skip: as a label if there is one, else as a number.
fn put_goal(out: &mut Vec<u8>, label: Option<usize>, skip: u16) -> Result<(), AllocError>
    ensures { OnOk result (out.new.items ≡ out.old.items ++ spaced_all (goal_word label skip ∷ [])) }
{
    match label {
        Some(label) => put_numbered(out, " L", label),
        None => put_numbered(out, " +", usize::from(skip)),
    }
}

/// Writes a text in quotation marks.
fn put_literal(out: &mut Vec<u8>, text: &str) -> Result<(), AllocError>
    ensures { OnOk result (out.new.items ≡ out.old.items ++ spaced_all (quoted text.now ∷ [])) }
{
    put(out, " ")?;
    put_quoted(out, text)
}

/// Writes the register of an argument.
fn put_argument(out: &mut Vec<u8>, register: u8) -> Result<(), AllocError>
    ensures { OnOk result (out.new.items ≡ out.old.items ++ spaced_all (decimal register ∷ [])) }
{
    put_numbered(out, " ", usize::from(register))
}

/// Writes the registers of arguments.
fn put_args(out: &mut Vec<u8>, args: &[u8]) -> Result<(), AllocError>
    ensures { OnOk result (out.new.items ≡ out.old.items ++ spaced_all (flat_map (λ arg. decimal arg ∷ []) args.now)) }
{
    for arg in args {
        put_argument(out, *arg)?;
    }
    Ok(())
}

/// Writes an operand by its form.
#[tactic(auto, using(crate::proofs::Lines::one_part))]
fn put_operand(
    alloc: Global,
    out: &mut Vec<u8>,
    label: Option<usize>,
    operand: &Operand<'_>,
) -> Result<(), AllocError>
    ensures { OnOk result (out.new.items ≡ out.old.items ++ spaced_all (operand_words (goal_word label) (seen operand.now))) }
{
    match operand {
        Operand::Value(register) => put_numbered(out, " v", usize::from(*register)),
        Operand::Right(register) => put_numbered(out, " d", usize::from(*register)),
        Operand::Number(number) => put_number(alloc, out, *number),
        Operand::Iterations(iterations) => put_numbered(out, " ", usize::from(*iterations)),
        Operand::Literal(text) => put_literal(out, text),
        Operand::TypeOf(ty) => put_type(out, *ty),
        Operand::Skip(skip) => put_goal(out, label, *skip),
        Operand::Callee(procedure) => put_numbered(out, " ", usize::from(*procedure)),
        Operand::Target(target) => put_target(out, *target),
        Operand::Args(args) => put_args(out, args),
    }
}

// ---- lines

/// The text so far, and the label that the skip of the next instruction names, if any.
#[derive(Drop)]
pub struct Lines {
    pub alloc: Global,
    pub out: Vec<u8>,
    label: Option<usize>,
}

impl Lines {
    /// Makes a writer without lines.
    pub fn new(alloc: Global) -> Lines
        ensures { result.out.items ≡ [] }
    {
        Lines {
            alloc,
            out: Vec::new(alloc),
            label: None,
        }
    }
}

/// Writes one line for each instruction: its name and its operands.
impl Sink for Lines {
    ghost use Rattle.std.specs.Prelude.{◌≡◌, ◌++◌};
    ghost use Rattle.tw_asm.specs.Written.{goal_word};
    ghost use Rattle.tw_asm.specs.words.Lines.{row_line};

    ghost puts = { λ s o operands t. t.out.items ≡ s.out.items ++ row_line (goal_word s.label) o operands };

    /// Appends the line of an instruction.
    fn put(&mut self, opcode: Opcode, operands: &[Operand<'_>]) -> Result<(), AllocError> {
        put_row(self.alloc, &mut self.out, self.label, opcode, operands)
    }
}

/// Writes the line of an instruction with this opcode and these operands.
fn put_row(
    alloc: Global,
    out: &mut Vec<u8>,
    label: Option<usize>,
    opcode: Opcode,
    operands: &[Operand<'_>],
) -> Result<(), AllocError>
    ensures { OnOk result (out.new.items ≡ out.old.items ++ row_line (goal_word label) opcode (map seen operands.now)) }
{
    put(out, word_of(opcode))?;
    for operand in operands {
        put_operand(alloc, out, label, operand)?;
    }
    put(out, "\n")
}

/// Adds the line of an instruction. Its skip, if any, is written as this label, or as a number if there is none.
pub fn put_instr(lines: &mut Lines, instr: &Instr, label: Option<usize>) -> Result<(), AllocError>
    requires { IsInstr instr.now }
    ensures { OnOk result (lines.new.out.items ≡ lines.old.out.items ++ line_of (goal_word label) (Code instr.now)) }
{
    lines.label = label;
    tw_code::put_instr(lines, instr)
}

/// Adds the line with which a procedure begins.
pub fn put_head(out: &mut Vec<u8>, kind: Kind, params: &[Param]) -> Result<(), AllocError>
    ensures { OnOk result (out.new.items ≡ out.old.items ++ line_of (goal_word None) (Head kind params.now)) }
{
    put(out, "proc")?;
    put_name(out, kind_word(kind))?;
    for param in params {
        put_param(out, *param)?;
    }
    put(out, "\n")
}

/// Adds the line of the types of value registers.
pub fn put_registers(out: &mut Vec<u8>, registers: &[Scalar]) -> Result<(), AllocError>
    ensures { OnOk result (out.new.items ≡ out.old.items ++ line_of (goal_word None) (Registers registers.now)) }
{
    put(out, "regs")?;
    for scalar in registers {
        put_scalar(out, *scalar)?;
    }
    put(out, "\n")
}

/// Adds the line of the label with this number.
pub fn put_label(out: &mut Vec<u8>, number: usize) -> Result<(), AllocError>
    ensures { OnOk result (out.new.items ≡ out.old.items ++ line_of (goal_word None) (Label (codes "L" ++ decimal number))) }
{
    put_numbered(out, "L", number)?;
    put(out, ":\n")
}

/// Adds the line of the version. The first version has none.
pub fn put_version(out: &mut Vec<u8>, version: Version) -> Result<(), AllocError>
    ensures { OnOk result (out.new.items ≡ out.old.items ++ version_line version) }
{
    match version {
        Version::One => Ok(()),
        _ => {
            put_numbered(out, "version ", usize::from(version.number()))?;
            put(out, "\n")
        }
    }
}
