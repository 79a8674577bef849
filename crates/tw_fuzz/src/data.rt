//! Random instructions on data. One that fits nowhere isn't written.

use crate::code::Code;
use crate::draw::draw;
use crate::local::{int, text};
use crate::rights::{Mode, Right, Ty, Want};

/// Returns a value register of the type's scalar, for a random instruction.
fn value(seed: &mut u64, ty: Ty) -> u8 {
    match ty {
        Ty::Text | Ty::Texts | Ty::Names => text(seed),
        Ty::Int | Ty::Ints | Ty::Rows | Ty::Words | Ty::Tables => int(seed),
    }
}

/// Returns a value register of the type of a container's subscripts, for a random instruction.
fn subscript(seed: &mut u64, container: Ty) -> u8 {
    if container.is_by_text() {
        text(seed)
    } else {
        int(seed)
    }
}

/// Appends the letter T of a random instruction on a container with texts as subscripts.
fn put_letter(code: &mut Code, container: Ty) {
    if container.is_by_text() {
        code.put("T");
    }
}

/// Writes a NEW of this type. Returns the registers of its write and its read right.
pub fn put_new(code: &mut Code, seed: &mut u64, ty: Ty) -> Option<(u8, u8)> {
    let writer = code.find(seed, Want::Empty)?;
    code.set(writer, Some(Right::new(Mode::Write, ty)));
    let Some(reader) = code.find(seed, Want::Empty) else {
        code.set(writer, None);
        return None;
    };
    code.set(reader, Some(Right::new(Mode::Ref, ty)));
    code.line("NEW d# d# ", &[writer, reader], &[]);
    code.put(ty.words());
    code.put("\n");
    Some((writer, reader))
}

/// Writes a DUPR or DUPW of a right. Returns the register of the copy.
pub fn put_double(code: &mut Code, seed: &mut u64, register: u8) -> Option<u8> {
    let right = code.at(register)?;
    let second = code.find(seed, Want::Empty)?;
    code.put(if right.is_write() { "DUPW" } else { "DUPR" });
    code.line(" d# d#\n", &[second, register], &[]);
    code.set(second, Some(right));
    Some(second)
}

/// Spends the right in a register, by DROPR, DROPW or STORE.
pub fn put_spent(code: &mut Code, seed: &mut u64, register: u8) {
    let Some(right) = code.at(register) else {
        return;
    };
    code.set(register, None);
    if !right.is_write() {
        code.line("DROPR d#\n", &[register], &[]);
    } else if right.is_container() {
        code.line("DROPW d#\n", &[register], &[]);
    } else {
        code.line("STORE d# v#\n", &[register, value(seed, right.ty)], &[]);
    }
}

/// Spends all rights that aren't kept.
pub fn put_all_spent(code: &mut Code, seed: &mut u64) {
    for register in 0..16_u8 {
        if !code.is_kept(register) {
            put_spent(code, seed, register);
        }
    }
}

/// Spends one of the rights that are sought.
fn put_one_spent(code: &mut Code, seed: &mut u64, want: Want) {
    if let Some(register) = code.find_free(seed, want) {
        put_spent(code, seed, register);
    }
}

/// Returns a random register with such a right, and the right's type.
fn found(code: &Code, seed: &mut u64, want: Want) -> Option<(u8, Ty)> {
    let register = code.find(seed, want)?;
    Some((register, code.at(register)?.ty))
}

/// Writes a GET, if a register has a `closed` right on a scalar.
fn put_get(code: &mut Code, seed: &mut u64) {
    if let Some((register, ty)) = found(code, seed, Want::ClosedScalar) {
        code.line("GET v# d#\n", &[value(seed, ty), register], &[]);
    }
}

/// Inserts this member by INS, and handles the case that INS is refused.
fn put_insert_of(code: &mut Code, seed: &mut u64, container: u8, ty: Ty, member: u8) {
    let (there, done) = (code.next_label(), code.next_label());
    code.set(member, None);
    put_letter(code, ty);
    let registers = [container, subscript(seed, ty), member, member];
    let labels = [there, done, there, done];
    code.line(
        "INS d# v# d# L@\nJMP L@\nL@:\nDROPR d#\nL@:\n",
        &registers,
        &labels,
    );
}

/// Writes an INS, if registers have a container to write and a member for it.
fn put_insert(code: &mut Code, seed: &mut u64) {
    let Some((container, ty)) = found(code, seed, Want::WriteContainer) else {
        return;
    };
    let Some(element) = ty.element() else {
        return;
    };
    if let Some(member) = code.find_free(seed, Want::Read(element)) {
        put_insert_of(code, seed, container, ty, member);
    }
}

/// Looks up a member by LOOK, and drops the right again.
fn put_look_at(code: &mut Code, seed: &mut u64, member: u8, container: u8, ty: Ty) {
    let missing = code.next_label();
    put_letter(code, ty);
    let registers = [member, container, subscript(seed, ty), member];
    code.line(
        "LOOK d# d# v# L@\nDROPR d#\nL@:\n",
        &registers,
        &[missing, missing],
    );
}

/// Looks up a member by LOOK. If there is none, makes a new datum and reads it instead. Its write right is spent at
/// once.
fn put_look_or_new(
    code: &mut Code,
    seed: &mut u64,
    member: u8,
    container: u8,
    ty: Ty,
    element: Ty,
) {
    let writer = member.wrapping_add(1) % 16;
    let (missing, done) = (code.next_label(), code.next_label());
    put_letter(code, ty);
    let registers = [member, container, subscript(seed, ty), writer, member];
    let labels = [missing, done, missing];
    code.line(
        "LOOK d# d# v# L@\nJMP L@\nL@:\nNEW d# d# ",
        &registers,
        &labels,
    );
    code.put(element.words());
    code.put("\n");
    code.set(writer, Some(Right::new(Mode::Write, element)));
    put_spent(code, seed, writer);
    code.set(member, Some(Right::new(Mode::Ref, element)));
    code.line("L@:\n", &[], &[done]);
}

/// Writes a LOOK, if a register has a closed container and another is empty.
fn put_look(code: &mut Code, seed: &mut u64) {
    let Some(container) = code.find(seed, Want::ClosedContainer) else {
        return;
    };
    let Some((member, ty, element)) = room_for_look(code, seed, container) else {
        return;
    };
    if code.at(member.wrapping_add(1) % 16).is_some() || draw(seed, 2) == 0 {
        put_look_at(code, seed, member, container, ty);
    } else {
        put_look_or_new(code, seed, member, container, ty, element);
    }
}

/// Returns an empty register for a member, with the types of the container and of the member.
fn room_for_look(code: &Code, seed: &mut u64, container: u8) -> Option<(u8, Ty, Ty)> {
    let member = code.find(seed, Want::Empty)?;
    let ty = code.at(container)?.ty;
    Some((member, ty, ty.element()?))
}

/// Writes SIZE and SUBAT, if a register has a closed container.
fn put_size(code: &mut Code, seed: &mut u64) {
    let Some((container, ty)) = found(code, seed, Want::ClosedContainer) else {
        return;
    };
    code.line("SIZE v# d#\n", &[int(seed), container], &[]);
    put_letter(code, ty);
    let registers = [subscript(seed, ty), container, int(seed)];
    code.line("SUBAT v# d# v# +0\n", &registers, &[]);
}

/// Writes a DUPR or DUPW of a right that is sought, if enough registers are empty.
fn put_doubled(code: &mut Code, seed: &mut u64, want: Want) {
    if code.room() < 6 {
        return;
    }
    if let Some(register) = code.find(seed, want) {
        let _second = put_double(code, seed, register);
    }
}

/// Writes a NEW of a random type, if enough registers are empty.
fn put_made(code: &mut Code, seed: &mut u64) {
    if code.room() >= 6 {
        let ty = Ty::next(seed);
        let _registers = put_new(code, seed, ty);
    }
}

/// Writes a random instruction on data.
pub fn put_data(code: &mut Code, seed: &mut u64) {
    match draw(seed, 14) {
        0 | 1 => put_made(code, seed),
        2 => put_one_spent(code, seed, Want::WriteScalar),
        3 => put_one_spent(code, seed, Want::WriteContainer),
        4 => put_one_spent(code, seed, Want::AnyRead),
        5 => put_get(code, seed),
        6 | 7 | 8 => put_insert(code, seed),
        9 | 10 => put_look(code, seed),
        11 => put_size(code, seed),
        12 => put_doubled(code, seed, Want::AnyRead),
        _ => put_doubled(code, seed, Want::WriteContainer),
    }
}
