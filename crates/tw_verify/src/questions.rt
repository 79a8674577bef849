//! Checks of registers, against a typing and the declared value registers. Each returns the lowest error among its unmet
//! conditions.

ghost use Rattle.std.specs.Prelude.{◌≡◌, ◌<◌, ◌∷◌, [], ◌++◌, Bool, List};
ghost use Rattle.std.specs.Option.{option_map};
ghost use Rattle.tw_code.specs.accepting.Question.{Question, passes, rejection_in};
ghost use Rattle.tw_code.specs.machine.Rights.{RightType, right_at};
ghost use Rattle.tw_code.specs.accepting.Typing.{requires_value, requires_alike, requires_byte, requires_part, requires_search, requires_values, requires_entry_of, reads_closed_by, requires_value_of, requires_empty_pair, requires_container_write, suits_subscripts, writes_container_by, reads, reads_closed_container, reads_closed_container_by, reads_member_of};
ghost use Rattle.tw_verify.specs.Rejection.{lowest_of, rejection_with, verify_error_code};

use crate::rejection::{Requirement, Unmet, VerifyError};
use crate::typing::{RightType, Typing};
use tw_types::Scalar;

/// Returns the lower of two errors of the verifier, each of which may be missing.
pub fn lowest(first: Option<VerifyError>, second: Option<VerifyError>) -> Option<VerifyError>
    ensures { option_map verify_error_code result
        ≡ lowest_of (option_map verify_error_code first) (option_map verify_error_code second) }
{
    match (first, second) {
        (Some(a), Some(b)) => Some(if b.number() < a.number() { b } else { a }),
        (None, other) => other,
        (Some(a), None) => Some(a),
    }
}

/// Adds one check to the error of others: returns the lower of both errors if it fails.
pub(crate) fn beside(
    met: bool,
    rejection: VerifyError,
    others: Option<VerifyError>,
) -> Option<VerifyError>
    ensures { option_map verify_error_code result
        ≡ rejection_with (verify_error_code rejection, met) (option_map verify_error_code others) }
{
    if met {
        others
    } else {
        lowest(Some(rejection), others)
    }
}

/// Checks that a value register is declared, and of this type.
pub(crate) fn value_rejection(registers: &[Scalar], register: u8, ty: Scalar) -> Option<VerifyError>
    ensures { option_map verify_error_code result ≡ rejection_in (requires_value registers.now register ty) }
{
    match registers.get(register as usize) {
        None => Some(VerifyError::UndeclaredValue(Unmet::value(register, None, Some(ty)))),
        Some(declared) => (*declared != ty).then_some(VerifyError::WrongValueType(Unmet::value(
            register,
            Some(*declared),
            Some(ty),
        ))),
    }
}

/// Checks that two value registers are declared, and of these types.
pub(crate) fn both_rejection(
    registers: &[Scalar],
    first: u8,
    first_ty: Scalar,
    second: u8,
    second_ty: Scalar,
) -> Option<VerifyError>
    ensures { option_map verify_error_code result
        ≡ rejection_in (requires_value registers.now first first_ty ++ requires_value registers.now second second_ty) }
{
    lowest(
        value_rejection(registers, first, first_ty),
        value_rejection(registers, second, second_ty),
    )
}

/// Checks that three value registers are declared, and of one type.
pub(crate) fn values_rejection(
    registers: &[Scalar],
    first: u8,
    second: u8,
    third: u8,
    ty: Scalar,
) -> Option<VerifyError>
    ensures { option_map verify_error_code result
        ≡ rejection_in (requires_values registers.now first second third ty) }
{
    lowest(
        value_rejection(registers, first, ty),
        both_rejection(registers, second, ty, third, ty),
    )
}

/// Adds the checks of one value register before others: returns the lower of both errors.
pub(crate) fn first_rejection(
    registers: &[Scalar],
    register: u8,
    ty: Scalar,
    others: Option<VerifyError>,
) -> Option<VerifyError>
    ensures { (questions : List Question) → option_map verify_error_code others ≡ rejection_in questions
        → option_map verify_error_code result ≡ rejection_in (requires_value registers.now register ty ++ questions) }
{
    lowest(value_rejection(registers, register, ty), others)
}

/// Checks the registers of BYTE: an integer, a text and a place.
pub(crate) fn byte_rejection(
    registers: &[Scalar],
    to: u8,
    text: u8,
    place: u8,
) -> Option<VerifyError>
    ensures { option_map verify_error_code result ≡ rejection_in (requires_byte registers.now to text place) }
{
    let others = both_rejection(registers, text, Scalar::Text, place, Scalar::Int);
    first_rejection(registers, to, Scalar::Int, others)
}

/// Checks the registers of SLICE: two texts and two places.
pub(crate) fn part_rejection(
    registers: &[Scalar],
    to: u8,
    text: u8,
    start: u8,
    end: u8,
) -> Option<VerifyError>
    ensures { option_map verify_error_code result ≡ rejection_in (requires_part registers.now to text start end) }
{
    let places = both_rejection(registers, start, Scalar::Int, end, Scalar::Int);
    let others = first_rejection(registers, text, Scalar::Text, places);
    first_rejection(registers, to, Scalar::Text, others)
}

/// Checks the registers of FIND, SPAN and UNTIL: an integer, two texts and a place.
pub(crate) fn search_rejection(
    registers: &[Scalar],
    to: u8,
    text: u8,
    pattern: u8,
    start: u8,
) -> Option<VerifyError>
    ensures { option_map verify_error_code result ≡ rejection_in (requires_search registers.now to text pattern start) }
{
    let places = both_rejection(registers, pattern, Scalar::Text, start, Scalar::Int);
    let others = first_rejection(registers, text, Scalar::Text, places);
    first_rejection(registers, to, Scalar::Int, others)
}

/// Checks that two value registers are declared, and of the same type.
pub(crate) fn alike_rejection(registers: &[Scalar], first: u8, second: u8) -> Option<VerifyError>
    ensures { option_map verify_error_code result ≡ rejection_in (requires_alike registers.now first second) }
{
    let Some(ty) = registers.get(first as usize) else {
        return Some(VerifyError::UndeclaredValue(Unmet::value(first, None, None)));
    };
    match registers.get(second as usize) {
        None => Some(VerifyError::UndeclaredValue(Unmet::value(second, None, None))),
        Some(other) => (*other != *ty).then_some(VerifyError::WrongValueType(Unmet::value(
            first,
            Some(*ty),
            Some(*other),
        ))),
    }
}

/// Returns the type of the scalars in a right's datum.
fn scalar_of(right: &Option<RightType>) -> Option<Scalar> {
    match right {
        Some(right) => Some(right.ty().scalar()),
        None => None,
    }
}

/// Checks that a right register has a right of the required kind, and that a value register is of the type of its datum. `fits` is
/// whether the right is of that kind, and `wrong` what is unmet if it isn't.
pub(crate) fn value_of_rejection(
    registers: &[Scalar],
    register: u8,
    right: &Option<RightType>,
    fits: bool,
    wrong: Unmet,
) -> Option<VerifyError>
    ensures { (test : RightType → Bool) → fits ≡ passes test right.now
        → option_map verify_error_code result
        ≡ rejection_in (requires_value_of registers.now register test right.now) }
{
    let ty = scalar_of(right);
    let Some(declared) = registers.get(register as usize) else {
        return Some(VerifyError::UndeclaredValue(Unmet::value(register, None, ty)));
    };
    match right {
        Some(right) if fits => (*declared != right.ty().scalar()).then_some(
            VerifyError::WrongValueType(Unmet::value(register, Some(*declared), ty)),
        ),
        _ => Some(VerifyError::WrongRight(wrong)),
    }
}

/// Returns the type of the subscripts of a right's map.
fn subscripts_of(right: &Option<RightType>) -> Option<Scalar> {
    match right {
        Some(right) => right.ty().map_by(),
        None => None,
    }
}

/// Returns whether a value register of this type suits the subscripts of the right's map.
#[tactic(auto, unfolding(tw_code::specs::accepting::Typing::suits_subscripts))]
fn suits_subscripts(right: RightType, declared: Scalar) -> bool
    ensures { result ≡ suits_subscripts declared right.ty }
{
    match right.ty().map_by() {
        Some(by) => declared == by,
        None => false,
    }
}

/// Checks that a right register has a right of the required kind, and that two value registers are of the types of its map's
/// subscripts and values. `fits` is whether the right is of that kind, and `wrong` what is unmet if it isn't.
pub(crate) fn entry_rejection(
    registers: &[Scalar],
    subscript: u8,
    register: u8,
    right: &Option<RightType>,
    fits: bool,
    wrong: Unmet,
) -> Option<VerifyError>
    ensures { (test : RightType → Bool) → fits ≡ passes test right.now
        → option_map verify_error_code result
        ≡ rejection_in (requires_entry_of registers.now subscript register test right.now) }
{
    let by = subscripts_of(right);
    let Some(named) = registers.get(subscript as usize) else {
        return Some(VerifyError::UndeclaredValue(Unmet::value(subscript, None, by)));
    };
    let ty = scalar_of(right);
    let Some(declared) = registers.get(register as usize) else {
        return Some(VerifyError::UndeclaredValue(Unmet::value(register, None, ty)));
    };
    match right {
        Some(right) if fits => {
            if !suits_subscripts(*right, *named) {
                let unmet = Unmet::value(subscript, Some(*named), by);
                return Some(VerifyError::WrongValueType(unmet));
            }
            let unmet = Unmet::value(register, Some(*declared), ty);
            (*declared != right.ty().scalar()).then_some(VerifyError::WrongValueType(unmet))
        }
        _ => Some(VerifyError::WrongRight(wrong)),
    }
}

/// Checks that two right registers are empty, and different.
pub(crate) fn empty_pair_rejection(typing: &Typing, first: u8, second: u8) -> Option<VerifyError>
    requires first { first < 16 }
    requires second { second < 16 }
    ensures { option_map verify_error_code result ≡ rejection_in (requires_empty_pair typing.now first second) }
{
    let fits = typing.is_free(first) && typing.is_free(second) && first != second;
    (!fits).then_some(VerifyError::RightNotEmpty(Unmet::pair(typing, first, second)))
}

/// Checks that a right register has a read right.
pub(crate) fn read_rejection(typing: &Typing, register: u8) -> Option<VerifyError>
    requires { register < 16 }
    ensures { option_map verify_error_code result
        ≡ rejection_in ((4, passes reads (right_at typing.now register)) ∷ []) }
{
    let fits = typing.right_at(register).is_some_and(RightType::reads);
    (!fits).then_some(VerifyError::WrongRight(Unmet::right(typing, register, Requirement::AnyRead)))
}

/// Checks that a right register has a write right, and not on a scalar.
pub(crate) fn container_write_rejection(typing: &Typing, register: u8) -> Option<VerifyError>
    requires { register < 16 }
    ensures { option_map verify_error_code result
        ≡ rejection_in (requires_container_write (right_at typing.now register)) }
{
    match typing.right_at(register) {
        Some(right) if right.writes() => right.writes_scalar().then_some(VerifyError::ScalarWrite(
            Unmet::right(typing, register, Requirement::AnyContainerWrite),
        )),
        _ => Some(VerifyError::WrongRight(Unmet::right(typing, register, Requirement::AnyWrite))),
    }
}

/// Like `beside`, with the check that a right register has a `closed` right on a container.
pub(crate) fn members_rejection(
    typing: &Typing,
    register: u8,
    others: Option<VerifyError>,
) -> Option<VerifyError>
    requires { register < 16 }
    ensures { option_map verify_error_code result
        ≡ rejection_with (4, passes reads_closed_container (right_at typing.now register))
        (option_map verify_error_code others) }
{
    let fits = typing
        .right_at(register)
        .is_some_and(RightType::reads_closed_container);
    let unmet = Unmet::right(typing, register, Requirement::AnyClosedContainer);
    beside(fits, VerifyError::WrongRight(unmet), others)
}

/// Like `members_rejection`, for a container with such subscripts.
pub(crate) fn members_by_rejection(
    typing: &Typing,
    register: u8,
    by: Scalar,
    others: Option<VerifyError>,
) -> Option<VerifyError>
    requires { register < 16 }
    ensures { option_map verify_error_code result
        ≡ rejection_with (4, passes (reads_closed_container_by by) (right_at typing.now register))
        (option_map verify_error_code others) }
{
    let fits = match typing.right_at(register) {
        Some(right) => right.reads_closed_container_by(by),
        None => false,
    };
    let unmet = Unmet::right(typing, register, Requirement::ClosedContainer(by));
    beside(fits, VerifyError::WrongRight(unmet), others)
}

/// Checks that a right register has a `closed` right on a container or a map with such subscripts, beside other checks.
pub(crate) fn subscripts_by_rejection(
    typing: &Typing,
    register: u8,
    by: Scalar,
    others: Option<VerifyError>,
) -> Option<VerifyError>
    requires { register < 16 }
    ensures { option_map verify_error_code result
        ≡ rejection_with (4, passes (reads_closed_by by) (right_at typing.now register))
        (option_map verify_error_code others) }
{
    let fits = match typing.right_at(register) {
        Some(right) => right.reads_closed_by(by),
        None => false,
    };
    let unmet = Unmet::right(typing, register, Requirement::ClosedSubscripts(by));
    beside(fits, VerifyError::WrongRight(unmet), others)
}

/// Returns whether a right register has a write right on a container with such subscripts.
pub(crate) fn writes_container_by(typing: &Typing, register: u8, by: Scalar) -> bool
    requires { register < 16 }
    ensures { result ≡ passes (writes_container_by by) (right_at typing.now register) }
{
    match typing.right_at(register) {
        Some(right) => right.writes_container_by(by),
        None => false,
    }
}

/// Returns whether a right register has a read right on a datum of the element type of another one's container.
pub(crate) fn is_member_read(typing: &Typing, container: u8, member: u8) -> bool
    requires container { container < 16 }
    requires member { member < 16 }
    ensures { result ≡ passes (λ right. passes (reads_member_of right) (right_at typing.now member))
        (right_at typing.now container) }
{
    match (typing.right_at(container), typing.right_at(member)) {
        (Some(container), Some(member)) => member.reads_member_of(container),
        _ => false,
    }
}
