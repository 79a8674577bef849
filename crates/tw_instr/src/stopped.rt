//! Errors of events.

use crate::failure::Failure;
use std::alloc::{AllocError, AllocFailed};
use tw_types::Cause;

/// The error of an event, or of a part of one.
#[derive(Clone, Copy)]
pub enum Stopped {
    /// It isn't enabled in this state.
    NotEnabled,
    /// The task traps.
    Trap(Cause),
    /// An allocation failed.
    NoMemory,
}

/// The error of an event that doesn't allocate.
#[derive(Clone, Copy)]
pub enum Barred {
    /// It isn't enabled in this state.
    NotEnabled,
    /// The task traps.
    Trap(Cause),
}

impl From<Cause> for Barred {
    ghost use Rattle.std.specs.Prelude.{◌≡◌};
    ghost use Rattle.tw_instr.specs.declared.stopped.Barred.TheVariants.{Trap};

    ghost from_gives = { λ cause barred. barred ≡ Trap cause };

    /// Returns the error of an event that doesn't allocate and traps with this cause.
    fn from(cause: Cause) -> Barred {
        Barred::Trap(cause)
    }
}

impl From<Barred> for Stopped {
    ghost use Rattle.std.specs.Prelude.{◌≡◌};
    ghost use Rattle.tw_instr.specs.Attempts.{barred_by};

    ghost from_gives = { λ barred stopped. stopped ≡ barred_by barred };

    /// Returns the error of an event from that of a part which doesn't allocate.
    fn from(barred: Barred) -> Stopped {
        match barred {
            Barred::NotEnabled => Stopped::NotEnabled,
            Barred::Trap(cause) => Stopped::Trap(cause),
        }
    }
}

impl From<Cause> for Stopped {
    ghost use Rattle.std.specs.Prelude.{◌≡◌};
    ghost use Rattle.tw_instr.specs.declared.stopped.Stopped.TheVariants.{Trap};

    ghost from_gives = { λ cause stopped. stopped ≡ Trap cause };

    /// Returns the error of an event that traps with this cause.
    fn from(cause: Cause) -> Stopped {
        Stopped::Trap(cause)
    }
}

impl From<Failure> for Stopped {
    ghost use Rattle.std.specs.Prelude.{◌≡◌};
    ghost use Rattle.tw_instr.specs.Attempts.{stopped_by};

    ghost from_gives = { λ failure stopped. stopped ≡ stopped_by failure };

    /// Returns the error of an event from that of its instruction.
    fn from(failure: Failure) -> Stopped {
        match failure {
            Failure::Trap(cause) => Stopped::Trap(cause),
            Failure::NoMemory => Stopped::NoMemory,
        }
    }
}

impl From<AllocError> for Stopped {
    ghost use Rattle.std.specs.Prelude.{◌≡◌};
    ghost use Rattle.tw_instr.specs.declared.stopped.Stopped.TheVariants.{NoMemory};

    ghost from_gives = { λ _ stopped. stopped ≡ NoMemory };

    /// Returns the error of an event for which an allocation failed.
    fn from(_: AllocError) -> Stopped {
        Stopped::NoMemory
    }
}

impl<T: Drop> From<AllocFailed<T>> for Stopped {
    ghost use Rattle.std.specs.Prelude.{◌≡◌};
    ghost use Rattle.tw_instr.specs.declared.stopped.Stopped.TheVariants.{NoMemory};

    ghost from_gives = { λ _ stopped. stopped ≡ NoMemory };

    /// Drops what wasn't stored, and returns the error of an event for which an allocation failed.
    fn from(_: AllocFailed<T>) -> Stopped {
        Stopped::NoMemory
    }
}
