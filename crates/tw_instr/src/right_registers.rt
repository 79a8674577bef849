//! Checks of right registers.

ghost use Rattle.std.specs.Prelude.{◌≡◌};
ghost use Rattle.tw_code.specs.machine.Rights.{held, must_be_empty};

use crate::failure::must;
use crate::frame::Frame;
use tw_types::{Cause, DatumId};

/// Returns the id in a right register of the frame. Fails with `EmptyRegister` if it is empty.
pub fn held(frame: &Frame, register: u8) -> Result<DatumId, Cause>
    ensures { result ≡ held frame.now.rights register }
{
    frame.right(register).ok_or(Cause::EmptyRegister)
}

/// Fails with `WrongRegister` unless the right register is empty.
pub fn must_be_empty(frame: &Frame, register: u8) -> Result<(), Cause>
    ensures { result ≡ must_be_empty frame.now.rights register }
{
    must(frame.right(register).is_none(), Cause::WrongRegister)
}
