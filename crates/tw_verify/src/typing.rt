//! Typings: the rights in the right registers.

ghost use Rattle.std.specs.Prelude.{◌≡◌, ◌≤◌, ◌<◌, ◌∷◌, [], ℕ, length, Some, is_none, slice_set};
ghost use Rattle.std.specs.List.{list_all, AllByRecursion};
ghost use Rattle.std.specs.Option.{option_and_then};
ghost use Rattle.tw_types.specs.DataType.{element_of, is_element_of};
ghost use Rattle.tw_types.specs.declared.data_type.Scalar.{Scalar as ByScalar};
ghost use Rattle.tw_code.specs.format.Program.{IsAction, IsDataInstr, IsInstr, IsRegister};
ghost use Rattle.tw_code.specs.declared.instr.DataInstr.TheVariants as on_data;
ghost use Rattle.tw_code.specs.machine.Arguments.{params_of};
ghost use Rattle.tw_code.specs.machine.Rights.{right_at};
ghost use Rattle.tw_code.specs.accepting.Typing.{start_typing, is_free, writes, writes_scalar, writes_container_by, reads, reads_closed_by, reads_closed_map, reads_closed_scalar, reads_closed_container, reads_closed_container_by, reads_member_of, writes_map, writes_sums, a_write, a_read, right_fits_param, after_data, without_args, after};
ghost use Rattle.tw_verify.specs.Same.{same_typing};

use std::marker::Model;
use tw_code::{Action, DataInstr, Instr, Procedure, Way};
use tw_types::{DataType, Mode, Param, Scalar};

/// A right on a datum of a type.
#[derive(Clone, Copy, PartialEq, Eq)]
pub struct RightType {
    mode: Mode,
    ty: DataType,
}

impl Model for RightType {
    ghost use Rattle.tw_code.specs.machine.Rights.{RightType as RightOn};

    ghost Value = { RightOn };

    ghost view = { λ r. record { mode = r.mode; ty = r.ty } };

    ghost inverse = { λ r. record { mode = r.mode; ty = r.ty } };
}

impl RightType {
    /// Returns the mode of a right that a typing has: `Closed`, `Ref` or `Write`.
    pub fn mode(self) -> Mode
        ensures { result ≡ self.mode }
    {
        self.mode
    }

    /// Returns the type of the datum on which a typing has a right.
    pub fn ty(self) -> DataType
        ensures { result ≡ self.ty }
    {
        self.ty
    }

    /// Returns the type of a write right on a datum of a type, for a typing.
    fn write(ty: DataType) -> RightType
        ensures { a_write ty ≡ Some result }
    {
        RightType {
            mode: Mode::Write,
            ty,
        }
    }

    /// Returns the type of a read right on a datum of a type, for a typing.
    fn read(ty: DataType) -> RightType
        ensures { a_read ty ≡ Some result }
    {
        RightType {
            mode: Mode::Ref,
            ty,
        }
    }

    /// Returns the right's type that LOOK adds: a read on a member; `None` if there are no members.
    fn member_read(self) -> Option<RightType>
        ensures { result ≡ option_and_then a_read (element_of self.ty) }
    {
        self.ty.element().map(RightType::read)
    }

    /// Returns whether the right of a typing is a write right.
    pub(crate) fn writes(self) -> bool
        ensures { result ≡ writes self }
    {
        self.mode.is_write()
    }

    /// Returns whether the right of a typing is a write right on a scalar.
    pub(crate) fn writes_scalar(self) -> bool
        ensures { result ≡ writes_scalar self }
    {
        self.mode.is_write() && self.ty.is_scalar()
    }

    /// Returns whether the right of a typing is a write right on a container with such subscripts.
    pub(crate) fn writes_container_by(self, by: Scalar) -> bool
        ensures { result ≡ writes_container_by by self }
    {
        self.mode.is_write() && self.ty.is_container_by(by)
    }

    /// Returns whether the right of a typing is a read right, `closed` or `ref`.
    pub(crate) fn reads(self) -> bool
        ensures { result ≡ reads self }
    {
        matches!(self.mode, Mode::Closed | Mode::Ref)
    }

    /// Returns whether the right of a typing is a `closed` right on a scalar.
    pub(crate) fn reads_closed_scalar(self) -> bool
        ensures { result ≡ reads_closed_scalar self }
    {
        self.mode == Mode::Closed && self.ty.is_scalar()
    }

    /// Returns whether the right of a typing is a `closed` right on what isn't a scalar.
    pub(crate) fn reads_closed_container(self) -> bool
        ensures { result ≡ reads_closed_container self }
    {
        self.mode == Mode::Closed && !self.ty.is_scalar()
    }

    /// Returns whether the right of a typing is a `closed` right on a container with such subscripts.
    pub(crate) fn reads_closed_container_by(self, by: Scalar) -> bool
        ensures { result ≡ reads_closed_container_by by self }
    {
        self.mode == Mode::Closed && self.ty.is_container_by(by)
    }

    /// Returns whether the right of a typing is a `closed` right on a container or a map with such subscripts.
    pub(crate) fn reads_closed_by(self, by: Scalar) -> bool
        ensures { result ≡ reads_closed_by by self }
    {
        self.mode == Mode::Closed && self.ty.has_subscripts_by(by)
    }

    /// Returns whether the right of a typing is a `closed` right on a map.
    pub(crate) fn reads_closed_map(self) -> bool
        ensures { result ≡ reads_closed_map self }
    {
        self.mode == Mode::Closed && self.ty.is_map()
    }

    /// Returns whether the right of a typing is a write right on a map, but none of sums.
    pub(crate) fn writes_map(self) -> bool
        ensures { result ≡ writes_map self }
    {
        self.mode.is_write() && self.ty.is_plain_map()
    }

    /// Returns whether the right of a typing is a write right on a map of sums of integers.
    pub(crate) fn writes_sums(self) -> bool
        ensures { result ≡ writes_sums self }
    {
        self.mode.is_write() && (self.ty.is_sums() && Scalar::Int == self.ty.scalar())
    }

    /// Returns whether the right of a typing suits a parameter. For a `closed` one any read does, if the task waits for its data.
    pub(crate) fn right_fits_param(self, waits: bool, param: Param) -> bool
        ensures { result ≡ right_fits_param waits param self }
    {
        let suits = match param.mode {
            Mode::Val => false,
            Mode::Closed if waits => self.reads(),
            Mode::Closed => self.mode == Mode::Closed,
            Mode::Ref => self.reads(),
            Mode::Write => self.mode.is_write(),
        };
        suits && self.ty == param.ty
    }

    /// Returns whether the datum of a typing's right has the type of a container's members.
    fn is_element_of(self, container: DataType) -> bool
        ensures { result ≡ is_element_of self.ty container }
    {
        match container.element() {
            Some(element) => self.ty == element,
            None => false,
        }
    }

    /// Returns whether the right of a typing is a read right on a datum of another's element type.
    pub(crate) fn reads_member_of(self, container: RightType) -> bool
        ensures { result ≡ reads_member_of container self }
    {
        self.reads() && self.is_element_of(container.ty)
    }
}

/// The content of the right registers at a place: each is empty or has a right.
#[derive(Clone, Copy, PartialEq, Eq)]
pub struct Typing {
    rights: [Option<RightType>; Procedure::RIGHT_REGISTERS],
}

impl Model for Typing {
    ghost use Rattle.std.specs.Prelude.{List, Option};
    ghost use Rattle.tw_code.specs.machine.Rights.{RightType as RightOn};

    ghost Value = { List (Option RightOn) };

    ghost view = { λ t. t.rights };

    ghost inverse = { λ rights. record { rights = rights } };
}

impl Typing {
    /// Returns the typing at the start of a procedure: the rights of its parameters in the first registers.
    pub fn start(params: &[Param]) -> Typing
        requires { length params.now ≤ 16 }
        ensures { result ≡ start_typing params.now }
    {
        let mut rights = [None; Procedure::RIGHT_REGISTERS];
        let mut given = 0;
        for param in params {
            if !param.mode.is_val() {
                rights[given] = Some(RightType {
                    mode: param.mode,
                    ty: param.ty,
                });
                given += 1;
            }
        }
        Typing { rights }
    }

    /// Returns the right that a typing has in a register, or `None` if it is empty.
    pub fn right_at(&self, register: u8) -> Option<RightType>
        requires { register < 16 }
        ensures { result ≡ right_at self.now register }
    {
        self.rights[register as usize]
    }

    /// Returns whether a right register is empty in a typing.
    pub(crate) fn is_free(&self, register: u8) -> bool
        requires { register < 16 }
        ensures { result ≡ is_free self.now register }
    {
        self.right_at(register).is_none()
    }

    /// Returns the number of the first register in which a typing has a right; 0 if it has none.
    pub(crate) fn first_filled(&self) -> u8
        ensures { result < 16 }
    {
        for register in 0..16u8 {
            if !self.is_free(register) {
                return register;
            }
        }
        0
    }

    /// Returns whether a typing has no right in any register.
    pub fn is_empty(&self) -> bool
        ensures { result ≡ list_all is_none self.now }
    {
        self.rights.iter().all(|right| right.is_none())
    }

    /// Returns whether two typings have the same rights in all registers.
    pub fn is_same(&self, other: &Typing) -> bool
        ensures { result ≡ same_typing self.now other.now }
    {
        self.rights == other.rights
    }

    /// Returns the typing with this right in a register, or with the register empty.
    fn with(mut self, register: u8, right: Option<RightType>) -> Typing
        requires { register < 16 }
        ensures { result ≡ slice_set self register right }
    {
        self.rights[register as usize] = right;
        self
    }

    /// Returns the typing after LOOK: a completed one adds a read right on the member.
    fn after_look(self, way: Way, member: u8, container: u8) -> Typing
        requires { (member < 16) × (container < 16) }
        ensures { (by : ByScalar) (subscript skip : ℕ) → result ≡ after_data way (on_data.Look by member container subscript skip) self }
    {
        let read = self.right_at(container).and_then(RightType::member_read);
        match way {
            Way::Completed => self.with(member, read),
            Way::Skipped => self,
        }
    }

    /// Returns the typing after an instruction on data with this outcome, with one case for each.
    fn after_data(self, way: Way, instr: DataInstr) -> Typing
        requires { IsDataInstr instr }
        ensures { result ≡ after_data way instr self }
    {
        match instr {
            DataInstr::New { write, read, ty } => self
                .with(write, Some(RightType::write(ty)))
                .with(read, Some(RightType::read(ty))),
            DataInstr::Store { datum, .. } => self.with(datum, None),
            DataInstr::Insert { member, .. } => match way {
                Way::Completed => self.with(member, None),
                Way::Skipped => self,
            },
            DataInstr::Look {
                member,
                container,
                ..
            } => self.after_look(way, member, container),
            DataInstr::CopyRead { to, from } | DataInstr::CopyWrite { to, from } => {
                self.with(to, self.right_at(from))
            }
            DataInstr::DropRead { right } | DataInstr::DropWrite { right } => self.with(
                right, None,
            ),
            DataInstr::Get { .. }
            | DataInstr::Size { .. }
            | DataInstr::SubscriptAt { .. }
            | DataInstr::InsertValue { .. }
            | DataInstr::AddValue { .. }
            | DataInstr::GetValue { .. } => self,
        }
    }

    /// Empties the register of a parameter's argument in a typing, if that is a right.
    pub fn without(self, param: Param, arg: u8) -> Typing
        requires { IsRegister arg }
        ensures { result ≡ without_args (param ∷ []) (arg ∷ []) self }
    {
        if param.mode.is_val() {
            self
        } else {
            self.with(arg, None)
        }
    }

    /// Empties in a typing the registers of all arguments that are rights.
    fn without_args(self, params: &[Param], args: &[u8]) -> Typing
        requires { AllByRecursion IsRegister args.now }
        ensures { result ≡ without_args params.now args.now self }
    {
        let mut left = self;
        for (param, arg) in params.iter().zip(args) {
            left = left.without(*param, *arg);
        }
        left
    }

    /// Returns the typing after RULE or PUT: the rights among the arguments have left their registers.
    fn after_action(self, procedures: &[Procedure], action: &Action) -> Typing
        requires { IsAction action.now }
        ensures { result ≡ without_args (params_of procedures.now action.now.procedure) action.now.args self }
    {
        match procedures.get(action.procedure as usize) {
            Some(callee) => self.without_args(callee.params.as_slice(), action.args.as_slice()),
            None => self,
        }
    }

    /// Returns the typing after an instruction of any kind with this outcome.
    pub fn after(self, procedures: &[Procedure], way: Way, instr: &Instr) -> Typing
        requires { IsInstr instr.now }
        ensures { result ≡ after procedures.now way instr.now self }
    {
        match instr {
            Instr::Local(_) | Instr::Ret => self,
            Instr::Data(instr) => self.after_data(way, *instr),
            Instr::Rule(action) | Instr::Put(action) => self.after_action(procedures, action),
        }
    }
}
