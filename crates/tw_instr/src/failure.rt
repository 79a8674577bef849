//! Errors of instructions.

ghost use Rattle.std.specs.Prelude.{◌≡◌};
ghost use Rattle.tw_types.specs.Result.{must};

use std::alloc::AllocError;
use tw_types::Cause;

/// The error of an instruction, or of a part of one.
#[derive(Clone, Copy)]
pub enum Failure {
    Trap(Cause),
    NoMemory,
}

impl From<Cause> for Failure {
    ghost use Rattle.std.specs.Prelude.{◌≡◌};
    ghost use Rattle.tw_instr.specs.declared.failure.Failure.TheVariants.{Trap};

    ghost from_gives = { λ cause failure. failure ≡ Trap cause };

    /// Returns the error of an instruction that traps with this cause.
    fn from(cause: Cause) -> Failure {
        Failure::Trap(cause)
    }
}

impl From<AllocError> for Failure {
    ghost use Rattle.std.specs.Prelude.{◌≡◌};
    ghost use Rattle.tw_instr.specs.declared.failure.Failure.TheVariants.{NoMemory};

    ghost from_gives = { λ _ failure. failure ≡ NoMemory };

    /// Returns the error of an instruction for which an allocation failed.
    fn from(_: AllocError) -> Failure {
        Failure::NoMemory
    }
}

/// Fails with the trap's cause unless the condition of an instruction holds.
pub fn must(holds: bool, cause: Cause) -> Result<(), Cause>
    ensures { result ≡ must holds cause }
{
    if holds { Ok(()) } else { Err(cause) }
}
