//! Errors of reading a statement.

ghost use Rattle.std.specs.Prelude.{◌≡◌};
ghost use Rattle.tw_asm.specs.declared.rejection.Rejection.TheVariants.{NoMemory, Flawed};

use crate::flaw::Flaw;
use std::alloc::{AllocError, AllocFailed};

/// The reason why no statement is read: the words have an error, or an allocation failed.
#[derive(Drop)]
pub enum Rejection {
    Flawed(Flaw),
    NoMemory,
}

impl From<AllocError> for Rejection {
    ghost from_gives = { λ _ rejection. rejection ≡ NoMemory };

    /// Returns the rejection of a line of assembly for which an allocation failed.
    fn from(_refused: AllocError) -> Rejection {
        Rejection::NoMemory
    }
}

impl<T: Drop> From<AllocFailed<T>> for Rejection {
    ghost from_gives = { λ _ rejection. rejection ≡ NoMemory };

    /// Drops what wasn't added, and returns the rejection of a line of assembly.
    fn from(_refused: AllocFailed<T>) -> Rejection {
        Rejection::NoMemory
    }
}

impl From<Flaw> for Rejection {
    ghost from_gives = { λ flaw rejection. rejection ≡ Flawed flaw };

    /// Returns the rejection of a line with a wrong word.
    fn from(flaw: Flaw) -> Rejection {
        Rejection::Flawed(flaw)
    }
}
