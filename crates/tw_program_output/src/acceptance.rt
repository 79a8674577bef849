//! Which programs may be run: those that the verifier accepts, and that have no bound above its cap.

ghost use Rattle.std.specs.Prelude.{ℕ, IfOk, List, Option};
ghost use Rattle.tw_order.specs.declared.form.Places.{Places as ShownPlaces};
ghost use Rattle.tw_code.specs.accepting.WellTyped.{IsAccepted};
ghost use Rattle.tw_program_output.specs.Admission.{IsAdmittedOr};
ghost use Rattle.tw_source.specs.Source.{MayBeSource, text_of};

use crate::admission::{excess_reply, excess_text};
use crate::check::rejection_reply;
use std::alloc::{AllocError, Global};
use tw_code::Program;
use tw_order::{Caps, EventLimit, Places};
use tw_source::{Reply, SourceText};
use tw_verify::{Verified, VerifyError, verify};

/// An admitted program, or the reply that rejects it.
#[derive(Drop)]
pub enum Admitted {
    Run(Verified),
    Rejected(Reply),
}

/// Returns an accepted program, unless a bound is above its cap.
fn within_caps(
    alloc: Global,
    limit: Option<EventLimit>,
    caps: Caps,
    verified: Verified,
) -> Result<Admitted, AllocError>
    requires { IsAccepted verified.program }
    ensures { (places : ShownPlaces) (text : Option (List ℕ)) → IfOk result (IsAdmittedOr places text verified.program limit caps) }
{
    let lines = excess_text(alloc, &verified, limit, caps)?;
    if lines.is_empty() {
        return Ok(Admitted::Run(verified));
    }
    let reply = excess_reply(alloc, &lines)?;
    Ok(Admitted::Rejected(reply))
}

/// Verifies a program, and compares its bounds with their caps. The reply to a rejected one begins with a listing if `places` are shown.
pub fn admit(
    alloc: Global,
    source: &Option<SourceText<'_>>,
    places: Places,
    limit: Option<EventLimit>,
    caps: Caps,
    program: Program,
) -> Result<Admitted, AllocError>
    requires { MayBeSource source.now program.procedures }
    ensures { IfOk result (IsAdmittedOr places (text_of source.now) program.procedures limit caps) }
{
    match verify(alloc, program) {
        Ok(verified) => within_caps(alloc, limit, caps, verified),
        Err(refused) => match refused.no {
            VerifyError::NoMemory => Err(AllocError),
            _ => {
                let reply = rejection_reply(alloc, source, places, &refused)?;
                Ok(Admitted::Rejected(reply))
            }
        },
    }
}
