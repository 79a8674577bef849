//! Errors of a pass over one procedure, and of a program.

ghost use Rattle.std.specs.Prelude.{◌≡◌};
ghost use Rattle.tw_verify.specs.Passes.{no_memory, rejection_of};

use crate::rejection::VerifyError;
use std::alloc::AllocError;

/// The error that stops a pass over one procedure, and its place; if an allocation failed, the place is 0.
#[derive(Clone, Copy)]
pub(crate) struct Fault {
    pub(crate) no: VerifyError,
    pub(crate) place: usize,
}

impl Fault {
    /// Returns the verifier's error of a failed allocation, at place 0 of a procedure.
    pub(crate) fn no_memory() -> Fault
        ensures { result ≡ no_memory }
    {
        Fault {
            no: VerifyError::NoMemory,
            place: 0,
        }
    }
}

impl From<AllocError> for Fault {
    ghost from_gives = { λ _ fault. fault ≡ no_memory };

    /// Returns the verifier's error in a procedure for a failed allocation.
    fn from(_error: AllocError) -> Fault {
        Fault::no_memory()
    }
}

/// The error of a program that isn't accepted: its code, procedure and place.
#[derive(Clone, Copy)]
pub(crate) struct Rejection {
    pub(crate) no: VerifyError,
    pub(crate) procedure: usize,
    pub(crate) place: usize,
}

impl From<AllocError> for Rejection {
    ghost from_gives = { λ _ rejection. rejection ≡ rejection_of 0 no_memory };

    /// Returns the rejection of a program for which an allocation of the verifier failed.
    fn from(_error: AllocError) -> Rejection {
        Rejection::new(0, Fault::no_memory())
    }
}

impl Rejection {
    /// Makes the rejection of a program from an error in a procedure. If an allocation failed, procedure and place are 0.
    pub(crate) fn new(procedure: usize, fault: Fault) -> Rejection
        ensures { result ≡ rejection_of procedure fault }
    {
        if fault.no.is_memory() {
            Rejection {
                no: fault.no,
                procedure: 0,
                place: 0,
            }
        } else {
            Rejection {
                no: fault.no,
                procedure,
                place: fault.place,
            }
        }
    }
}
