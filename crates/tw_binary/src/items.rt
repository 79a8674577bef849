//! Decodes items and types. Each function returns a value and the bytes after it.

ghost use Rattle.std.specs.Prelude.{◌≡◌, ◌≤◌, IfOk};
ghost use Rattle.tw_binary.specs.Reading.{Gives, byte_at, register_at, wide_at, number_at, exactly_at, kind_at, mode_at, scalar_at, version_at, container_in, leaf_at, map_from, map_in, type_at, values_at, as_is};
ghost use Rattle.tw_types.specs.DataType.{depth_of, scalar_type};

use crate::fault::{FaultNo, Stop};
use tw_code::{Procedure, Version};
use tw_types::{DataType, Kind, Mode, Scalar};

/// Decodes one byte from `low` to `high`.
#[tactic(auto, unfolding(crate::specs::Reading::byte_at))]
pub fn byte_of(low: u8, high: u8, bytes: &[u8]) -> Result<(u8, &[u8]), Stop>
    ensures { Gives (λ x. (x.0, x.1.now)) result (byte_at low high bytes.now) }
{
    match bytes {
        [] => Err(Stop::missing()),
        [b, rest @ ..] if low <= *b && *b <= high => Ok((*b, rest)),
        _ => Err(Stop::wrong(FaultNo::Limit, bytes)),
    }
}

/// Decodes a register of either bank.
pub fn register_of(bytes: &[u8]) -> Result<(u8, &[u8]), Stop>
    ensures { Gives (λ x. (x.0, x.1.now)) result (register_at bytes.now) }
{
    byte_of(0, Procedure::LAST_REGISTER, bytes)
}

/// Decodes a big-endian number of two bytes from `low` to `high`.
#[tactic(auto, unfolding(crate::specs::Reading::wide_at))]
pub fn wide_of(low: u16, high: u16, bytes: &[u8]) -> Result<(u16, &[u8]), Stop>
    ensures reads { Gives (λ x. (x.0, x.1.now)) result (wide_at low high bytes.now) }
    ensures within { IfOk result (λ x. x.0 ≤ high) }
{
    if bytes.len() < 2 {
        return Err(Stop::missing());
    }
    let (front, rest) = bytes.split_at(2);
    let number = u16::from_be_bytes([front[0], front[1]]);
    if low <= number && number <= high {
        Ok((number, rest))
    } else {
        Err(Stop::wrong(FaultNo::Limit, bytes))
    }
}

/// Decodes a signed big-endian number of eight bytes.
#[tactic(auto, unfolding(crate::specs::Reading::number_at))]
pub fn number_of(bytes: &[u8]) -> Result<(i64, &[u8]), Stop>
    ensures { Gives (λ x. (x.0, x.1.now)) result (number_at bytes.now) }
{
    if bytes.len() < 8 {
        return Err(Stop::missing());
    }
    let (front, rest) = bytes.split_at(8);
    let number = i64::from_be_bytes([
        front[0], front[1], front[2], front[3], front[4], front[5], front[6], front[7],
    ]);
    Ok((number, rest))
}

/// Takes the byte if it is this one. Any other byte is this fault.
#[tactic(auto, unfolding(crate::specs::Reading::exactly_at))]
pub fn exactly(wanted: u8, no: FaultNo, bytes: &[u8]) -> Result<(u8, &[u8]), Stop>
    ensures { Gives (λ x. (x.0, x.1.now)) result (exactly_at wanted no bytes.now) }
{
    match bytes {
        [] => Err(Stop::missing()),
        [b, rest @ ..] if *b == wanted => Ok((*b, rest)),
        _ => Err(Stop::wrong(no, bytes)),
    }
}

/// Reads the version, and returns the bytes after it.
#[tactic(auto, unfolding(crate::specs::Reading::version_at))]
pub fn version_of(bytes: &[u8]) -> Result<(Version, &[u8]), Stop>
    ensures { Gives (λ x. (x.0, x.1.now)) result (version_at bytes.now) }
{
    match bytes {
        [] => Err(Stop::missing()),
        [1, rest @ ..] => Ok((Version::One, rest)),
        [2, rest @ ..] => Ok((Version::Two, rest)),
        [4, rest @ ..] => Ok((Version::Four, rest)),
        [5, rest @ ..] => Ok((Version::Five, rest)),
        _ => Err(Stop::wrong(FaultNo::Version, bytes)),
    }
}

/// Reads a procedure's kind, and returns the bytes after it.
#[tactic(auto, unfolding(crate::specs::Reading::kind_at))]
pub fn kind_of(bytes: &[u8]) -> Result<(Kind, &[u8]), Stop>
    ensures { Gives (λ x. (x.0, x.1.now)) result (kind_at bytes.now) }
{
    match bytes {
        [] => Err(Stop::missing()),
        [0, rest @ ..] => Ok((Kind::Control, rest)),
        [1, rest @ ..] => Ok((Kind::Leaf, rest)),
        _ => Err(Stop::wrong(FaultNo::Unknown, bytes)),
    }
}

/// Reads a parameter's mode, and returns the bytes after it.
#[tactic(auto, unfolding(crate::specs::Reading::mode_at))]
pub fn mode_of(bytes: &[u8]) -> Result<(Mode, &[u8]), Stop>
    ensures { Gives (λ x. (x.0, x.1.now)) result (mode_at bytes.now) }
{
    match bytes {
        [] => Err(Stop::missing()),
        [1, rest @ ..] => Ok((Mode::Val, rest)),
        [2, rest @ ..] => Ok((Mode::Closed, rest)),
        [3, rest @ ..] => Ok((Mode::Ref, rest)),
        [4, rest @ ..] => Ok((Mode::Write, rest)),
        _ => Err(Stop::wrong(FaultNo::Unknown, bytes)),
    }
}

/// Reads a scalar type, and returns the bytes after it.
#[tactic(auto, unfolding(crate::specs::Reading::scalar_at))]
pub fn scalar_of(bytes: &[u8]) -> Result<(Scalar, &[u8]), Stop>
    ensures { Gives (λ x. (x.0, x.1.now)) result (scalar_at bytes.now) }
{
    match bytes {
        [] => Err(Stop::missing()),
        [1, rest @ ..] => Ok((Scalar::Int, rest)),
        [2, rest @ ..] => Ok((Scalar::Text, rest)),
        _ => Err(Stop::wrong(FaultNo::Unknown, bytes)),
    }
}

/// Decodes a type that is a scalar.
pub fn scalar_type_of(bytes: &[u8]) -> Result<(DataType, &[u8]), Stop>
    ensures reads { Gives (λ x. (x.0, x.1.now)) result (as_is scalar_type scalar_at bytes.now) }
    ensures flat { IfOk result (λ x. depth_of x.0 ≡ 0) }
{
    let (scalar, rest) = scalar_of(bytes)?;
    Ok((DataType::from(scalar), rest))
}

/// Returns the type of the subscripts if this byte begins a container of the version.
fn container_of(version: Version, code: u8) -> Option<Scalar>
    ensures { result ≡ container_in version code }
{
    match code {
        3 => Some(Scalar::Int),
        4 => match version {
            Version::One => None,
            _ => Some(Scalar::Text),
        },
        _ => None,
    }
}

/// Returns the type of the subscripts if this byte begins a map of the version.
fn map_of(version: Version, code: u8) -> Option<Scalar>
    ensures { result ≡ map_in version code }
{
    match version {
        Version::One | Version::Two => None,
        _ => match code {
            5 => Some(Scalar::Int),
            6 => Some(Scalar::Text),
            _ => None,
        },
    }
}

/// Decodes the type of a map's values; none is sums'.
#[tactic(auto, unfolding(crate::specs::Reading::values_at))]
fn values_of(bytes: &[u8]) -> Result<(Option<Scalar>, &[u8]), Stop>
    ensures { Gives (λ x. (x.0, x.1.now)) result (values_at bytes.now) }
{
    match bytes {
        [] => Err(Stop::missing()),
        [1, rest @ ..] => Ok((Some(Scalar::Int), rest)),
        [2, rest @ ..] => Ok((Some(Scalar::Text), rest)),
        [3, rest @ ..] => Ok((None, rest)),
        _ => Err(Stop::wrong(FaultNo::Unknown, bytes)),
    }
}

/// Returns the type of maps with such subscripts and values, or of sums.
fn map_from(by: Scalar, values: Option<Scalar>) -> DataType
    ensures is { result ≡ map_from by values }
    ensures flat { depth_of result ≡ 0 }
{
    match values {
        Some(scalar) => DataType::map(by, scalar),
        None => DataType::sums(by),
    }
}

/// Decodes a map's type from the bytes after its first.
fn map_after(by: Scalar, bytes: &[u8]) -> Result<(DataType, &[u8]), Stop>
    ensures reads { Gives (λ x. (x.0, x.1.now)) result (as_is (map_from by) values_at bytes.now) }
    ensures flat { IfOk result (λ x. depth_of x.0 ≡ 0) }
{
    let (values, rest) = values_of(bytes)?;
    Ok((map_from(by, values), rest))
}

/// Decodes a type without containers: a scalar or a map.
#[tactic(auto, using(crate::proofs::Types::no_leaf))]
fn leaf_of(version: Version, bytes: &[u8]) -> Result<(DataType, &[u8]), Stop>
    ensures reads { Gives (λ x. (x.0, x.1.now)) result (leaf_at version bytes.now) }
    ensures flat { IfOk result (λ x. depth_of x.0 ≡ 0) }
{
    let Some((code, rest)) = bytes.split_first() else {
        return Err(Stop::missing());
    };
    match map_of(version, *code) {
        Some(by) => map_after(by, rest),
        None => scalar_type_of(bytes),
    }
}

/// Decodes a type with at most `room` containers.
#[tactic(auto, using(crate::proofs::Types::none_left))]
pub fn type_of(version: Version, room: u8, bytes: &[u8]) -> Result<(DataType, &[u8]), Stop>
    requires { room ≤ 3 }
    ensures reads { Gives (λ x. (x.0, x.1.now)) result (type_at version room bytes.now) }
    ensures within { IfOk result (λ x. depth_of x.0 ≤ room) }
{
    let Some((code, rest)) = bytes.split_first() else {
        return Err(Stop::missing());
    };
    let Some(by) = container_of(version, *code) else {
        return leaf_of(version, bytes);
    };
    if room == 0 {
        return Err(Stop::wrong(FaultNo::Nesting, bytes));
    }
    match type_of(version, room - 1, rest) {
        Ok((element, rest)) => Ok((element.container(by).unwrap(), rest)),
        Err(e) => Err(e),
    }
}
