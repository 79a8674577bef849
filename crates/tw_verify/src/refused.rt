//! Programs that aren't accepted.

ghost use Rattle.std.specs.Prelude.{◌<◌, length, IfOk};
ghost use Rattle.tw_verify.specs.Known.{AreFound};
ghost use Rattle.tw_verify.specs.Rejection.{verify_error_code};

use crate::pass::known_typings;
use crate::rejection::VerifyError;
use crate::typing::Typing;
use std::alloc::{AllocError, Global};
use std::fmt;
use thiserror::Error;
use tw_code::Program;
use tw_types::Items;

/// A program that isn't accepted, with its first error.
#[derive(Drop, Error)]
#[error("refused V{:02} in procedure {procedure} at place {place}", .no.number())]
pub struct Refused {
    pub program: Program,
    pub no: VerifyError,
    pub procedure: usize,
    pub place: usize,
}

impl Refused {
    /// Returns the typings of the procedure's places that `verify` reached. The place of the error is the last one, or the place
    /// before it if nothing leads to the error's place.
    pub fn typings(&self, alloc: Global, procedure: usize) -> Result<Items<Typing>, AllocError>
        requires { procedure < length self.now.program.procedures }
        ensures { IfOk result (AreFound self.now.program.procedures (verify_error_code self.now.no) self.now.procedure procedure) }
    {
        if self.no.is_main_shape() || self.procedure < procedure {
            return Ok(Items::from(Vec::new(alloc)));
        }
        let procedures = self.program.procedures();
        known_typings(alloc, procedures, &procedures[procedure])
    }
}

/// Displays the error, without the program.
impl fmt::Debug for Refused {
    /// Writes the verifier's rejection for `Debug`: its code, procedure and place, without the program.
    fn fmt<W: fmt::Write>(&self, f: &mut fmt::Formatter<W>) -> fmt::Result {
        write!(f, "{self}")
    }
}
