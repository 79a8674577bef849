//! Checks of the store's calls. Each succeeds, or fails with the first cause.

ghost use Rattle.std.specs.Prelude.{◌≡◌};
ghost use Rattle.std.specs.Option.{option_copied};
ghost use Rattle.tw_types.specs.Result.{must};
ghost use Rattle.tw_types.specs.Value.{is_of};
ghost use Rattle.tw_types.specs.DataType.{is_element_of};
ghost use Rattle.tw_datum.specs.Kept.{datum_if};
ghost use Rattle.tw_types.specs.StoreChecks.{may_store, may_retrieve, may_insert, may_add, may_put, may_read_entry, may_read_members, may_read_members_by, may_read_subscripts_by, may_be_read, may_copy_write, may_drop_read, may_drop_write};

use crate::datum::Datum;
use crate::member::Member;
use tw_types::{Cause, DataType, Scalar, Value};

/// Fails with the trap's cause, unless the condition on a datum holds.
fn must(holds: bool, cause: Cause) -> Result<(), Cause>
    ensures { result ≡ must holds cause }
{
    if holds { Ok(()) } else { Err(cause) }
}

/// Returns whether a value may be stored in a datum of this type: a scalar's, the same as the value's.
fn is_of(value: &Value, ty: DataType) -> bool
    ensures { result ≡ is_of value.now ty }
{
    ty.is_scalar() && value.scalar() == ty.scalar()
}

/// Returns whether a datum's type is that of a container's members, for the check of an insertion.
fn is_element_of(element: DataType, ty: DataType) -> bool
    ensures { result ≡ is_element_of element ty }
{
    match ty.element() {
        Some(inner) => element == inner,
        None => false,
    }
}

/// Checks that a value can be stored in a datum. Returns the first cause against it.
pub fn may_store<M: Member>(datum: Option<&Datum<M>>, value: &Value) -> Result<(), Cause>
    ensures { result ≡ may_store value.now (datum_if (option_copied datum.entry)) }
{
    let datum = datum.ok_or(Cause::FreedDatum)?;
    must(is_of(value, datum.ty()), Cause::WrongType)?;
    must(datum.is_unset(), Cause::AlreadySet)?;
    must(datum.writes() != 0, Cause::NoWriteCount)
}

/// Checks that the value of a datum can be read.
pub fn may_retrieve<M: Member>(datum: Option<&Datum<M>>) -> Result<(), Cause>
    ensures { result ≡ may_retrieve (datum_if (option_copied datum.entry)) }
{
    let datum = datum.ok_or(Cause::FreedDatum)?;
    must(datum.ty().is_scalar(), Cause::WrongType)?;
    must(datum.value().is_some(), Cause::UnsetDatum)
}

/// Checks that a member can be inserted into a container with subscripts of this type.
pub fn may_insert<M: Member>(
    by: Scalar,
    container: Option<&Datum<M>>,
    member: Option<&Datum<M>>,
) -> Result<(), Cause>
    ensures { result ≡ may_insert by (datum_if (option_copied container.entry)) (datum_if (option_copied member.entry)) }
{
    let container = container.ok_or(Cause::FreedDatum)?;
    let member = member.ok_or(Cause::FreedDatum)?;
    must(
        container.ty().is_container_by(by) && is_element_of(member.ty(), container.ty()),
        Cause::WrongType,
    )?;
    must(!container.closed(), Cause::ClosedContainer)
}

/// Checks that the members of a datum can be read.
pub fn may_read_members<M: Member>(datum: Option<&Datum<M>>) -> Result<(), Cause>
    ensures { result ≡ may_read_members (datum_if (option_copied datum.entry)) }
{
    let datum = datum.ok_or(Cause::FreedDatum)?;
    must(!datum.ty().is_scalar(), Cause::WrongType)?;
    must(datum.closed(), Cause::OpenContainer)
}

/// Checks that the members may be read, by subscripts of this type.
pub fn may_read_members_by<M: Member>(by: Scalar, datum: Option<&Datum<M>>) -> Result<(), Cause>
    ensures { result ≡ may_read_members_by by (datum_if (option_copied datum.entry)) }
{
    let datum = datum.ok_or(Cause::FreedDatum)?;
    must(datum.ty().is_container_by(by), Cause::WrongType)?;
    must(datum.closed(), Cause::OpenContainer)
}

/// Checks that a value may be put into a map, at this subscript.
pub fn may_put<M: Member>(
    subscript: &Value,
    value: &Value,
    datum: Option<&Datum<M>>,
) -> Result<(), Cause>
    ensures { result ≡ may_put subscript.now value.now (datum_if (option_copied datum.entry)) }
{
    let datum = datum.ok_or(Cause::FreedDatum)?;
    let ty = datum.ty();
    must(
        ty.is_plain_map() && ty.is_map_of(subscript.scalar(), value.scalar()),
        Cause::WrongType,
    )?;
    must(!datum.closed(), Cause::ClosedContainer)
}

/// Checks that an integer may be added to a map of sums, at this subscript.
pub fn may_add<M: Member>(subscript: &Value, datum: Option<&Datum<M>>) -> Result<(), Cause>
    ensures { result ≡ may_add subscript.now (datum_if (option_copied datum.entry)) }
{
    let datum = datum.ok_or(Cause::FreedDatum)?;
    let ty = datum.ty();
    must(
        ty.is_sums() && ty.is_map_of(subscript.scalar(), Scalar::Int),
        Cause::WrongType,
    )?;
    must(!datum.closed(), Cause::ClosedContainer)
}

/// Checks that a value of this type may be read from a map, at this subscript.
pub fn may_read_entry<M: Member>(
    subscript: &Value,
    scalar: Scalar,
    datum: Option<&Datum<M>>,
) -> Result<(), Cause>
    ensures { result ≡ may_read_entry subscript.now scalar (datum_if (option_copied datum.entry)) }
{
    let datum = datum.ok_or(Cause::FreedDatum)?;
    must(
        datum.ty().is_map_of(subscript.scalar(), scalar),
        Cause::WrongType,
    )?;
    must(datum.closed(), Cause::OpenContainer)
}

/// Checks that the subscripts of a container or a map may be read, if they are of this type.
pub fn may_read_subscripts_by<M: Member>(by: Scalar, datum: Option<&Datum<M>>) -> Result<(), Cause>
    ensures { result ≡ may_read_subscripts_by by (datum_if (option_copied datum.entry)) }
{
    let datum = datum.ok_or(Cause::FreedDatum)?;
    must(datum.ty().has_subscripts_by(by), Cause::WrongType)?;
    must(datum.closed(), Cause::OpenContainer)
}

/// Checks that a datum is live, so that it can have one more read.
pub fn may_be_read<M: Member>(datum: Option<&Datum<M>>) -> Result<(), Cause>
    ensures { result ≡ may_be_read (datum_if (option_copied datum.entry)) }
{
    let _datum = datum.ok_or(Cause::FreedDatum)?;
    Ok(())
}

/// Checks that a datum can have one more write.
pub fn may_copy_write<M: Member>(datum: Option<&Datum<M>>) -> Result<(), Cause>
    ensures { result ≡ may_copy_write (datum_if (option_copied datum.entry)) }
{
    let datum = datum.ok_or(Cause::FreedDatum)?;
    must(!datum.ty().is_scalar(), Cause::WrongType)
}

/// Checks that a read of a datum can be dropped.
pub fn may_drop_read<M: Member>(datum: Option<&Datum<M>>) -> Result<(), Cause>
    ensures { result ≡ may_drop_read (datum_if (option_copied datum.entry)) }
{
    let datum = datum.ok_or(Cause::FreedDatum)?;
    must(datum.reads() != 0, Cause::NoReadCount)
}

/// Checks that a write of a datum can be dropped.
pub fn may_drop_write<M: Member>(datum: Option<&Datum<M>>) -> Result<(), Cause>
    ensures { result ≡ may_drop_write (datum_if (option_copied datum.entry)) }
{
    let datum = datum.ok_or(Cause::FreedDatum)?;
    must(!datum.ty().is_scalar(), Cause::WrongType)?;
    must(datum.writes() != 0, Cause::NoWriteCount)
}
