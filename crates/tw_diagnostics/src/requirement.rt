//! Text for what a register holds, and for what is required of it.

use tw_types::{DataType, Mode, Param, Scalar};
use tw_verify::{Held, Requirement, RightType, Unmet};
use tw_writer::{Piece, Writer};

/// Adds words, and those of a type.
fn put_typed(out: &mut Writer, front: &str, ty: DataType) {
    out.put(front);
    let done = tw_asm::put_type(&mut out.bytes, ty);
    out.note(done)
}

/// Adds a parameter after a space: its mode and type.
pub(crate) fn put_param(out: &mut Writer, param: Param) {
    let done = tw_asm::put_param(&mut out.bytes, param);
    out.note(done)
}

/// Adds a right after a space, its mode and type, or `empty`.
pub(crate) fn put_right(out: &mut Writer, right: Option<RightType>) {
    match right {
        Some(right) => put_param(
            out,
            Param {
                mode: right.mode(),
                ty: right.ty(),
            },
        ),
        None => out.put(" empty"),
    }
}

/// Adds what a register holds.
pub(crate) fn put_held(out: &mut Writer, register: u8, held: Held) {
    let bank = if matches!(held, Held::Value(_)) {
        "v"
    } else {
        "d"
    };
    out.put_numbered(bank, usize::from(register));
    match held {
        Held::Value(None) => out.put(" isn't declared"),
        Held::Value(Some(ty)) => out.put_all(&[
            Piece::Text(" is "),
            Piece::Text(value_text(Some(ty))),
        ]),
        Held::Right(None) => out.put(" is empty"),
        Held::Right(right) => {
            out.put(" holds");
            put_right(out, right)
        }
        Held::Twice => out.put(" is named twice"),
    }
}

/// Returns the words for the type of a value.
fn value_text(ty: Option<Scalar>) -> &'static str {
    match ty {
        Some(Scalar::Int) => "int",
        Some(Scalar::Text) => "text",
        None => "int or text",
    }
}

/// Returns the word for a container with such subscripts.
fn container_text(by: Scalar) -> &'static str {
    match by {
        Scalar::Int => "cont",
        Scalar::Text => "tcont",
    }
}

/// Returns the words for the modes that a parameter accepts.
fn mode_text(waits: bool, mode: Mode) -> &'static str {
    match mode {
        Mode::Val => "val",
        Mode::Closed if !waits => "closed",
        Mode::Closed | Mode::Ref => "closed or ref",
        Mode::Write => "write",
    }
}

/// Adds the mode of a right, and a map of these types, if they are known.
fn put_map(out: &mut Writer, mode: &str, by: Option<Scalar>, ty: Option<Scalar>) {
    match (by, ty) {
        (Some(by), Some(ty)) => put_typed(out, mode, DataType::map(by, ty)),
        _ => out.put_all(&[Piece::Text(mode), Piece::Text(" map")]),
    }
}

/// Adds what is required of a register.
fn put_wanted(out: &mut Writer, wanted: Requirement) {
    match wanted {
        Requirement::Value(ty) => out.put(value_text(ty)),
        Requirement::Empty => out.put("empty"),
        Requirement::TwoRegisters => out.put("two registers"),
        Requirement::WriteScalar(ty) => {
            out.put_all(&[Piece::Text("write "), Piece::Text(value_text(ty))])
        }
        Requirement::ClosedScalar(ty) => {
            out.put_all(&[Piece::Text("closed "), Piece::Text(value_text(ty))])
        }
        Requirement::WriteContainer(by) => {
            out.put_all(&[Piece::Text("write "), Piece::Text(container_text(by))])
        }
        Requirement::ClosedContainer(by) | Requirement::ClosedSubscripts(by) => {
            out.put_all(&[Piece::Text("closed "), Piece::Text(container_text(by))])
        }
        Requirement::WriteMap(by, ty) => put_map(out, "write", by, ty),
        Requirement::WriteSums(Some(by)) => put_typed(out, "write", DataType::sums(by)),
        Requirement::WriteSums(None) => out.put("write map"),
        Requirement::ClosedMap(by, ty) => put_map(out, "closed", by, ty),
        Requirement::AnyClosedContainer => out.put("closed cont or tcont"),
        Requirement::AnyWrite | Requirement::AnyContainerWrite => out.put("write of a container"),
        Requirement::AnyRead | Requirement::ReadOf(None) => out.put("closed or ref"),
        Requirement::ReadOf(Some(ty)) => put_typed(out, "closed or ref", ty),
        Requirement::Param(waits, param) => put_typed(out, mode_text(waits, param.mode), param.ty),
    }
}

/// Returns whether a right to a closed datum of this type is as required.
fn accepts_closed(wanted: Requirement, ty: DataType) -> bool {
    match wanted {
        Requirement::ClosedScalar(_) => ty.is_scalar(),
        Requirement::ClosedContainer(by) => ty.is_container_by(by),
        Requirement::ClosedSubscripts(by) => ty.has_subscripts_by(by),
        Requirement::ClosedMap(_, _) => ty.is_map(),
        Requirement::AnyClosedContainer => !ty.is_scalar(),
        Requirement::AnyRead => true,
        Requirement::ReadOf(Some(of)) => ty == of,
        Requirement::Param(_, param) => {
            matches!(param.mode, Mode::Closed | Mode::Ref) && ty == param.ty
        }
        _ => false,
    }
}

/// Returns what else can be done with a register that isn't as required.
fn way_out(unmet: &Unmet) -> &'static str {
    match (unmet.wanted, unmet.held) {
        (Requirement::AnyContainerWrite, _) => "; STORE it, or pass it on",
        (wanted, Held::Right(Some(right)))
            if matches!(right.mode(), Mode::Closed | Mode::Ref)
                && accepts_closed(wanted, right.ty()) => {
            "; pass it to a procedure with a closed parameter, by RULE"
        }
        _ => "",
    }
}

/// Adds the end of a line: what is required of a register, and what else can be done with it.
pub(crate) fn put_required(out: &mut Writer, unmet: &Unmet) {
    out.put(", required: ");
    put_wanted(out, unmet.wanted);
    out.put_all(&[Piece::Text(way_out(unmet)), Piece::Text("\n")])
}
