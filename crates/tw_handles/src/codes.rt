//! The codes that calls return. No letter, kind or exit status is one of them.

ghost use Rattle.std.specs.Prelude.{◌≡◌};
ghost use Rattle.tw_handles.specs.Codes.{loading_code, open_code};

use tw_pool::OpenError;

/// The call succeeded.
pub(crate) const DONE: u8 = 0;
/// O01: there are more or fewer inputs than main takes.
pub(crate) const INPUT_COUNT: u8 = 201;
/// O04: the limit is out of its range.
pub(crate) const NO_LIMIT: u8 = 204;
/// O05, and of any other call: an allocation failed.
pub(crate) const NO_MEMORY: u8 = 205;
/// O07: a bound of the program is above its cap.
pub(crate) const ABOVE_CAP: u8 = 207;
/// The handle holds no program.
pub(crate) const NO_PROGRAM: u8 = 211;
/// The handle holds something else than inputs.
pub(crate) const NO_INPUTS: u8 = 212;
/// The handle holds no container, or one of other types.
pub(crate) const NO_CONTAINER: u8 = 213;
/// The handle holds no stop flag.
pub(crate) const NO_STOP: u8 = 214;
/// The handle holds no report.
pub(crate) const NO_REPORT: u8 = 215;
/// The handle holds no text.
pub(crate) const NO_STRING: u8 = 216;
/// There are more options or caps than this library knows.
pub(crate) const NO_OPTIONS: u8 = 221;
/// There is no layout with these numbers of actors.
pub(crate) const NO_LAYOUT: u8 = 222;
/// There is no item with this index.
pub(crate) const NO_INDEX: u8 = 223;
/// The value is no text.
pub(crate) const NO_TEXT: u8 = 224;
/// The bytes aren't UTF-8.
pub const NO_UTF8: u8 = 225;
/// The buffer is shorter than the text.
pub(crate) const NO_ROOM: u8 = 226;
/// The run has no end: it was stopped, or memory ran out.
pub(crate) const NO_END: u8 = 227;
/// The program is rejected; the verdict says why.
pub(crate) const REJECTED: u8 = 229;
/// The report has no certificate, since its run wasn't asked for one.
pub(crate) const NO_ORDER: u8 = 230;

/// Lists of members that don't fit each other.
pub(crate) const NO_LIST: u8 = 231;
/// The run didn't end by itself, and its options didn't ask for partial outputs.
pub(crate) const UNFINISHED: u8 = 232;

/// Returns the code of a run that isn't opened.
pub(crate) fn of_open(why: OpenError) -> u8
    ensures { result ≡ open_code why }
{
    match why {
        OpenError::InputCount => INPUT_COUNT,
        OpenError::InputType => 202,
        OpenError::MissingTarget => 203,
        OpenError::LimitRange => NO_LIMIT,
        OpenError::NoMemory => NO_MEMORY,
    }
}

/// Returns the code of a verdict with this letter.
pub fn of_letter(letter: u8) -> u8
    ensures { result ≡ loading_code letter }
{
    if letter == 0 {
        DONE
    } else if letter == b'M' {
        NO_MEMORY
    } else {
        REJECTED
    }
}
