//! Faults: the errors of `decode`.

ghost use Rattle.std.specs.Prelude.{◌≡◌, length};
ghost use Rattle.tw_binary.specs.Fault.{fault_number};
ghost use Rattle.tw_binary.specs.declared.fault.FaultNo.TheVariants.{Missing};
ghost use Rattle.tw_binary.specs.declared.fault.Stop.TheVariants.{At};
ghost use Rattle.tw_binary.specs.declared.fault.Stop.TheVariants as stop;

use std::alloc::{AllocError, AllocFailed};
use thiserror::Error;

/// The kind of a fault, F01 to F09 in this order.
#[derive(Clone, Copy, Debug)]
pub enum FaultNo {
    /// A magic byte differs.
    Magic,
    /// There is no such version.
    Version,
    /// The input ends too early.
    Missing,
    /// A count, a register, a target, a number of iterations or a text's length is out of its limits.
    Limit,
    /// A kind, mode, type or opcode isn't known in the version, or the type isn't allowed there.
    Unknown,
    /// More than three containers are nested.
    Nesting,
    /// A text isn't UTF-8.
    Utf8,
    /// Bytes follow the end of the program.
    Trailing,
    /// An allocation failed, so nothing is known of the bytes.
    NoMemory,
}

impl FaultNo {
    /// Returns its code without the letter F, from 1.
    pub fn number(self) -> u8
        ensures { result ≡ fault_number self }
    {
        self as u8 + 1
    }
}

/// The first fault from the left, with the offset where its item begins.
///
/// If bytes are missing the offset is the input's length. If an allocation failed it is 0.
#[derive(Clone, Copy, Debug, Error)]
#[error("F{:02} at byte {offset}", .no.number())]
pub struct Fault {
    pub no: FaultNo,
    pub offset: usize,
}

/// A fault, with the number of bytes of the input that are left where its item begins.
#[derive(Clone, Copy)]
pub struct Broken {
    pub no: FaultNo,
    pub left: usize,
}

/// The reason why decoding stopped.
#[derive(Drop)]
pub enum Stop {
    NoMemory,
    At(Broken),
}

impl Stop {
    /// Returns the fault of an input that ends before the item is complete.
    pub fn missing() -> Stop
        ensures { result ≡ At (record { no = Missing; left = 0 }) }
    {
        Stop::At(Broken {
            no: FaultNo::Missing,
            left: 0,
        })
    }

    /// Returns the fault of a wrong item at the start of these bytes.
    pub fn wrong(no: FaultNo, bytes: &[u8]) -> Stop
        ensures { result ≡ At (record { no = no; left = length bytes.now }) }
    {
        Stop::At(Broken {
            no,
            left: bytes.len(),
        })
    }
}

impl From<AllocError> for Stop {
    ghost from_gives = { λ _ e. e ≡ stop.NoMemory };

    /// Returns the end of decoding for a failed allocation.
    fn from(_e: AllocError) -> Stop {
        Stop::NoMemory
    }
}

impl<T: Drop> From<AllocFailed<T>> for Stop {
    ghost from_gives = { λ _ e. e ≡ stop.NoMemory };

    /// Drops what wasn't added, and returns the end of decoding for a failed allocation.
    fn from(_e: AllocFailed<T>) -> Stop {
        Stop::NoMemory
    }
}
