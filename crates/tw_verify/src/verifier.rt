//! Verifies programs.

ghost use Rattle.std.specs.Prelude.{◌≡◌, ◌≢◌, IfOk, IfErr, OnOk};
ghost use Rattle.tw_code.specs.format.Program.{IsProgram};
ghost use Rattle.tw_code.specs.accepting.WellTyped.{IsAccepted, IsFirstRejection};
ghost use Rattle.tw_verify.specs.Rejection.{verify_error_code};
ghost use Rattle.tw_verify.specs.declared.rejection.VerifyError.TheVariants.{NoMemory};
ghost use Rattle.tw_verify.specs.Passes.{IsRejection};
ghost use Rattle.tw_verify.specs.Verified.{IsTyped};

use crate::fault::Rejection;
use crate::findings::Findings;
use crate::pass::procedure_findings;
use crate::refused::Refused;
use crate::rejection::VerifyError;
use crate::verified::Verified;
use std::alloc::Global;
use tw_code::{Procedure, Program, has_main_shape};
use tw_types::{Items, keep};

/// Checks main's shape, verifies all procedures of a program in order, and returns the findings of each.
fn all_findings(alloc: Global, procedures: &[Procedure]) -> Result<Items<Findings>, Rejection>
    requires { IsProgram procedures.now }
    ensures accepted { IfOk result (IsTyped procedures.now) }
    ensures refused { IfErr result (λ r. IsRejection procedures.now r.no r.procedure r.place) }
{
    if !has_main_shape(procedures) {
        return Err(Rejection {
            no: VerifyError::MainShape,
            procedure: 0,
            place: 0,
        });
    }
    let mut all = Vec::new(alloc);
    for (number, procedure) in procedures.iter().enumerate() {
        let findings = match procedure_findings(alloc, procedures, procedure) {
            Ok(findings) => findings,
            Err(fault) => return Err(Rejection::new(number, fault)),
        };
        keep(&mut all, findings)?;
    }
    Ok(Items::from(all))
}

/// Accepts a program, or returns it with its first error. Checks main's shape first, then in each procedure in order its
/// structure, its typings and its budget.
pub fn verify(alloc: Global, program: Program) -> Result<Verified, Refused>
    // An accepted program's result is `Ok`, unless an allocation fails.
    ensures complete { IsAccepted program.procedures → IfErr result (λ refused. refused.no ≡ NoMemory) }
    // No other program's is.
    ensures sound { OnOk result (IsAccepted program.procedures) }
    // The result has the program that was passed.
    ensures kept { IfOk result (λ verified. verified.program ≡ program.procedures) }
    ensures version { IfOk result (λ verified. verified.version ≡ program.version) }

    // The error is the program's first one, unless an allocation failed.
    ensures first { IfErr result (λ refused. refused.no ≢ NoMemory
        → IsFirstRejection program.procedures (verify_error_code refused.no) refused.procedure refused.place) }
    // If an allocation failed, procedure and place are 0.
    ensures memory { IfErr result (λ refused. refused.no ≡ NoMemory
        → (refused.procedure ≡ 0) × (refused.place ≡ 0)) }
    // The program is returned unchanged.
    ensures back { IfErr result (λ refused. refused.program ≡ program) }
{
    match all_findings(alloc, program.procedures()) {
        Ok(findings) => Ok(Verified::new(program, findings)),
        Err(rejection) => Err(Refused {
            program,
            no: rejection.no,
            procedure: rejection.procedure,
            place: rejection.place,
        }),
    }
}
