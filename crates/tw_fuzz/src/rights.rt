//! Content of right registers, and searches for it.

use crate::draw::draw;

/// The types of the programs.
#[derive(Clone, Copy, PartialEq, Eq)]
pub enum Ty {
    Int,
    Text,
    Ints,
    Texts,
    Rows,
    /// With texts as subscripts, like the next two.
    Words,
    Names,
    Tables,
}

impl Ty {
    /// Returns the type of a random program's register in assembly.
    pub fn words(self) -> &'static str {
        match self {
            Ty::Int => "int",
            Ty::Text => "text",
            Ty::Ints => "cont int",
            Ty::Texts => "cont text",
            Ty::Rows => "cont cont int",
            Ty::Words => "tcont int",
            Ty::Names => "tcont text",
            Ty::Tables => "tcont cont int",
        }
    }

    /// Returns whether a random program's type is a container with texts as subscripts.
    pub fn is_by_text(self) -> bool {
        matches!(self, Ty::Words | Ty::Names | Ty::Tables)
    }

    /// Returns the type of a container's members, for a random program.
    pub fn element(self) -> Option<Ty> {
        match self {
            Ty::Int | Ty::Text => None,
            Ty::Ints | Ty::Words => Some(Ty::Int),
            Ty::Texts | Ty::Names => Some(Ty::Text),
            Ty::Rows | Ty::Tables => Some(Ty::Ints),
        }
    }

    /// Returns a random type that main may have.
    pub fn next_of_main(seed: &mut u64) -> Ty {
        match draw(seed, 9) {
            0 | 1 => Ty::Int,
            2 => Ty::Text,
            3 => Ty::Texts,
            4 => Ty::Names,
            5 | 6 => Ty::Words,
            _ => Ty::Ints,
        }
    }

    /// Returns a random type of data.
    pub fn next(seed: &mut u64) -> Ty {
        match draw(seed, 10) {
            0 => Ty::Rows,
            1 => Ty::Tables,
            _ => Ty::next_of_main(seed),
        }
    }
}

/// The modes of rights.
#[derive(Clone, Copy, PartialEq, Eq)]
pub enum Mode {
    Closed,
    Ref,
    Write,
}

impl Mode {
    /// Returns the mode of a random program's parameter in assembly, with a space after it.
    pub fn word(self) -> &'static str {
        match self {
            Mode::Closed => "closed ",
            Mode::Ref => "ref ",
            Mode::Write => "write ",
        }
    }

    /// Returns a random mode of a parameter.
    pub fn next(seed: &mut u64) -> Mode {
        match draw(seed, 5) {
            0 | 1 => Mode::Closed,
            2 => Mode::Ref,
            _ => Mode::Write,
        }
    }
}

/// The right in a right register, or that of a parameter.
#[derive(Clone, Copy, PartialEq, Eq)]
pub struct Right {
    pub mode: Mode,
    pub ty: Ty,
}

impl Right {
    /// Returns a right of a random program, of this mode on a datum of this type.
    pub fn new(mode: Mode, ty: Ty) -> Right {
        Right { mode, ty }
    }

    /// Returns whether the right of a random program is a write right.
    pub fn is_write(self) -> bool {
        self.mode == Mode::Write
    }

    /// Returns whether the datum of a random program's right is a container.
    pub fn is_container(self) -> bool {
        self.ty.element().is_some()
    }
}

/// The content that is sought among the registers.
#[derive(Clone, Copy)]
pub enum Want {
    Empty,
    /// A write right on a datum of the type.
    Write(Ty),
    /// A read right on a datum of the type.
    Read(Ty),
    /// A right on a closed datum of the type.
    Closed(Ty),
    /// Any read right.
    AnyRead,
    /// A write right on any scalar.
    WriteScalar,
    /// A write right on any container.
    WriteContainer,
    /// A right on any closed container.
    ClosedContainer,
    /// A right on any closed scalar.
    ClosedScalar,
}

/// Returns whether a right of a random program is one that is sought.
fn suits(right: Right, want: Want) -> bool {
    match want {
        Want::Empty => false,
        Want::Write(ty) => right.is_write() && right.ty == ty,
        Want::Read(ty) => !right.is_write() && right.ty == ty,
        Want::Closed(ty) => right.mode == Mode::Closed && right.ty == ty,
        Want::AnyRead => !right.is_write(),
        Want::WriteScalar => right.is_write() && !right.is_container(),
        Want::WriteContainer => right.is_write() && right.is_container(),
        Want::ClosedContainer => right.mode == Mode::Closed && right.is_container(),
        Want::ClosedScalar => right.mode == Mode::Closed && !right.is_container(),
    }
}

/// Returns whether a right register with this content is one that is sought for a random instruction.
pub fn fits(held: Option<Right>, want: Want) -> bool {
    match held {
        Some(right) => suits(right, want),
        None => matches!(want, Want::Empty),
    }
}
