//! The checks of each instruction on data.

ghost use Rattle.std.specs.Prelude.{◌≡◌, ◌<◌, []};
ghost use Rattle.std.specs.Option.{option_map};
ghost use Rattle.tw_code.specs.format.Program.{IsDataInstr};
ghost use Rattle.tw_code.specs.accepting.Question.{rejection_in};
ghost use Rattle.tw_code.specs.accepting.Typing.{requires_data};
ghost use Rattle.tw_verify.specs.Rejection.{verify_error_code};

use crate::questions::{
    beside, both_rejection, container_write_rejection, empty_pair_rejection, entry_rejection,
    is_member_read, members_by_rejection, members_rejection, read_rejection,
    subscripts_by_rejection, value_of_rejection, value_rejection, writes_container_by,
};
use crate::rejection::{Requirement, Unmet, VerifyError, declared};
use crate::typing::{RightType, Typing};
use tw_code::DataInstr;
use tw_types::Scalar;

/// Checks STORE: a write right on a scalar, and a value of its type.
fn store_rejection(
    registers: &[Scalar],
    typing: &Typing,
    datum: u8,
    from: u8,
) -> Option<VerifyError>
    requires { datum < 16 }
    ensures { option_map verify_error_code result
        ≡ rejection_in (requires_data registers.now (DataInstr.Store datum from) typing.now) }
{
    let right = typing.right_at(datum);
    let fits = right.is_some_and(RightType::writes_scalar);
    let wanted = Requirement::WriteScalar(declared(registers, from));
    value_of_rejection(
        registers,
        from,
        &right,
        fits,
        Unmet::right(typing, datum, wanted),
    )
}

/// Checks GET: a `closed` right on a scalar, and a register of its type.
fn get_rejection(registers: &[Scalar], typing: &Typing, to: u8, datum: u8) -> Option<VerifyError>
    requires { datum < 16 }
    ensures { option_map verify_error_code result
        ≡ rejection_in (requires_data registers.now (DataInstr.Get to datum) typing.now) }
{
    let right = typing.right_at(datum);
    let fits = right.is_some_and(RightType::reads_closed_scalar);
    let wanted = Requirement::ClosedScalar(declared(registers, to));
    value_of_rejection(
        registers,
        to,
        &right,
        fits,
        Unmet::right(typing, datum, wanted),
    )
}

/// Checks INS: a write right on a container, a read right on a datum of its element type, and a subscript of its type.
fn insert_rejection(
    registers: &[Scalar],
    typing: &Typing,
    by: Scalar,
    container: u8,
    subscript: u8,
    member: u8,
) -> Option<VerifyError>
    requires container { container < 16 }
    requires member { member < 16 }
    ensures { option_map verify_error_code result
        ≡ rejection_in (requires_data registers.now (DataInstr.Insert by container subscript member 0) typing.now) }
{
    let others = value_rejection(registers, subscript, by);
    let fits = is_member_read(typing, container, member);
    let others = beside(
        fits,
        VerifyError::WrongRight(Unmet::member(typing, container, member)),
        others,
    );
    let writes = writes_container_by(typing, container, by);
    let unmet = Unmet::right(typing, container, Requirement::WriteContainer(by));
    beside(writes, VerifyError::WrongRight(unmet), others)
}

/// Checks LOOK: an empty register for the member, a `closed` right on a container, and a subscript of its type.
fn look_rejection(
    registers: &[Scalar],
    typing: &Typing,
    by: Scalar,
    member: u8,
    container: u8,
    subscript: u8,
) -> Option<VerifyError>
    requires member { member < 16 }
    requires container { container < 16 }
    ensures { option_map verify_error_code result
        ≡ rejection_in (requires_data registers.now (DataInstr.Look by member container subscript 0) typing.now) }
{
    let others = value_rejection(registers, subscript, by);
    let others = members_by_rejection(typing, container, by, others);
    let unmet = Unmet::filled(typing, member);
    beside(
        typing.is_free(member),
        VerifyError::RightNotEmpty(unmet),
        others,
    )
}

/// Checks SUBAT: a register of the subscripts' type, a `closed` right on a container with such subscripts, and an integer.
fn subscript_rejection(
    registers: &[Scalar],
    typing: &Typing,
    by: Scalar,
    to: u8,
    container: u8,
    index: u8,
) -> Option<VerifyError>
    requires { container < 16 }
    ensures { option_map verify_error_code result
        ≡ rejection_in (requires_data registers.now (DataInstr.SubscriptAt by to container index 0) typing.now) }
{
    let others = both_rejection(registers, to, by, index, Scalar::Int);
    subscripts_by_rejection(typing, container, by, others)
}

/// Checks MINS: a write right on a map, but none of sums, and registers of the types of its subscripts and values.
fn insert_value_rejection(
    registers: &[Scalar],
    typing: &Typing,
    map: u8,
    subscript: u8,
    from: u8,
) -> Option<VerifyError>
    requires { map < 16 }
    ensures { option_map verify_error_code result
        ≡ rejection_in (requires_data registers.now (DataInstr.InsertValue map subscript from 0) typing.now) }
{
    let right = typing.right_at(map);
    let fits = right.is_some_and(RightType::writes_map);
    let wanted = Requirement::WriteMap(declared(registers, subscript), declared(registers, from));
    entry_rejection(
        registers,
        subscript,
        from,
        &right,
        fits,
        Unmet::right(typing, map, wanted),
    )
}

/// Checks MADD: a write right on a map of sums, an integer, and a register of the type of its subscripts.
fn add_value_rejection(
    registers: &[Scalar],
    typing: &Typing,
    map: u8,
    subscript: u8,
    from: u8,
) -> Option<VerifyError>
    requires { map < 16 }
    ensures { option_map verify_error_code result
        ≡ rejection_in (requires_data registers.now (DataInstr.AddValue map subscript from) typing.now) }
{
    let right = typing.right_at(map);
    let fits = right.is_some_and(RightType::writes_sums);
    let wanted = Requirement::WriteSums(declared(registers, subscript));
    entry_rejection(
        registers,
        subscript,
        from,
        &right,
        fits,
        Unmet::right(typing, map, wanted),
    )
}

/// Checks MGET: a `closed` right on a map, and registers of the types of its subscripts and values.
fn get_value_rejection(
    registers: &[Scalar],
    typing: &Typing,
    to: u8,
    map: u8,
    subscript: u8,
) -> Option<VerifyError>
    requires { map < 16 }
    ensures { option_map verify_error_code result
        ≡ rejection_in (requires_data registers.now (DataInstr.GetValue to map subscript 0) typing.now) }
{
    let right = typing.right_at(map);
    let fits = right.is_some_and(RightType::reads_closed_map);
    let wanted = Requirement::ClosedMap(declared(registers, subscript), declared(registers, to));
    entry_rejection(
        registers,
        subscript,
        to,
        &right,
        fits,
        Unmet::right(typing, map, wanted),
    )
}

/// Checks SIZE: an integer register, and a `closed` right on a container or a map.
fn size_rejection(
    registers: &[Scalar],
    typing: &Typing,
    to: u8,
    container: u8,
) -> Option<VerifyError>
    requires { container < 16 }
    ensures { option_map verify_error_code result
        ≡ rejection_in (requires_data registers.now (DataInstr.Size to container) typing.now) }
{
    let others = value_rejection(registers, to, Scalar::Int);
    members_rejection(typing, container, others)
}

/// Checks DUPR: an empty register for the copy, and a read right.
fn copy_read_rejection(typing: &Typing, to: u8, from: u8) -> Option<VerifyError>
    requires to { to < 16 }
    requires from { from < 16 }
    ensures { option_map verify_error_code result
        ≡ rejection_in (requires_data [] (DataInstr.CopyRead to from) typing.now) }
{
    let others = read_rejection(typing, from);
    beside(
        typing.is_free(to),
        VerifyError::RightNotEmpty(Unmet::filled(typing, to)),
        others,
    )
}

/// Checks DUPW: an empty register for the copy, and a write right on a container.
fn copy_write_rejection(typing: &Typing, to: u8, from: u8) -> Option<VerifyError>
    requires to { to < 16 }
    requires from { from < 16 }
    ensures { option_map verify_error_code result
        ≡ rejection_in (requires_data [] (DataInstr.CopyWrite to from) typing.now) }
{
    let others = container_write_rejection(typing, from);
    beside(
        typing.is_free(to),
        VerifyError::RightNotEmpty(Unmet::filled(typing, to)),
        others,
    )
}

/// Checks an instruction on data at a typing, with one case for each.
pub(crate) fn data_rejection(
    registers: &[Scalar],
    instr: DataInstr,
    typing: &Typing,
) -> Option<VerifyError>
    requires { IsDataInstr instr }
    ensures { option_map verify_error_code result ≡ rejection_in (requires_data registers.now instr typing.now) }
{
    match instr {
        DataInstr::New { write, read, .. } => empty_pair_rejection(typing, write, read),
        DataInstr::Store { datum, from } => store_rejection(registers, typing, datum, from),
        DataInstr::Get { to, datum } => get_rejection(registers, typing, to, datum),
        DataInstr::Insert {
            by,
            container,
            subscript,
            member,
            ..
        } => insert_rejection(registers, typing, by, container, subscript, member),
        DataInstr::Look {
            by,
            member,
            container,
            subscript,
            ..
        } => look_rejection(registers, typing, by, member, container, subscript),
        DataInstr::Size { to, container } => size_rejection(registers, typing, to, container),
        DataInstr::SubscriptAt {
            by,
            to,
            container,
            index,
            ..
        } => subscript_rejection(registers, typing, by, to, container, index),
        DataInstr::InsertValue {
            map,
            subscript,
            from,
            ..
        } => insert_value_rejection(registers, typing, map, subscript, from),
        DataInstr::AddValue {
            map,
            subscript,
            from,
        } => add_value_rejection(registers, typing, map, subscript, from),
        DataInstr::GetValue {
            to,
            map,
            subscript,
            ..
        } => get_value_rejection(registers, typing, to, map, subscript),
        DataInstr::CopyRead { to, from } => copy_read_rejection(typing, to, from),
        DataInstr::CopyWrite { to, from } => copy_write_rejection(typing, to, from),
        DataInstr::DropRead { right } => read_rejection(typing, right),
        DataInstr::DropWrite { right } => container_write_rejection(typing, right),
    }
}
