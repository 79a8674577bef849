//! Programs.

ghost use Rattle.std.specs.Prelude.{◌≡◌};
ghost use Rattle.tw_code.specs.format.Program.{IsProgram, IsProgramOf};

use crate::procedure::Procedure;
use crate::version::Version;
use std::marker::Model;

/// A program: procedures within the limits, with only the features of the version. Procedure 0 is main.
#[derive(Drop)]
pub struct Program {
    version: Version,
    procedures: Vec<Procedure>,
}

impl Model for Program {
    ghost use Rattle.tw_code.specs.format.Program.{IsProgramOf, Versioned};

    ghost Value = { Versioned };

    ghost view = { λ p. record { version = p.version; procedures = p.procedures.items } };

    ghost invariant = { λ p. IsProgramOf p.version p.procedures.items };
}

impl Program {
    /// The greatest number of procedures; the least is 1.
    pub const MAX_PROCEDURES: u8 = 64;

    /// Makes a program of these procedures, in this order.
    pub fn new(version: Version, procedures: Vec<Procedure>) -> Program
        requires { IsProgramOf version procedures.items }
        ensures { result ≡ record { version = version; procedures = procedures.items } }
    {
        Program {
            version,
            procedures,
        }
    }

    /// Returns the version of the format.
    pub fn version(&self) -> Version
        ensures { result ≡ self.now.version }
    {
        self.version
    }

    /// Returns the procedures, the first of which is main.
    #[tactic(auto, using(crate::proofs::Widening::widened))]
    pub fn procedures(&self) -> &[Procedure]
        ensures is { result.now ≡ self.now.procedures }
        ensures version { IsProgramOf self.now.version self.now.procedures }
        ensures within { IsProgram self.now.procedures }
    {
        &self.procedures
    }
}
