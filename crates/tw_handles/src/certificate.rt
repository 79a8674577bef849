//! Certificates of runs: whether another order of events may show in a run's outputs.

ghost use Rattle.std.specs.Prelude.{◌≡◌, IfOk};
ghost use Rattle.tw_handles.specs.Certificates.{IsCertificate, IsCertificateIf, IsOfRun, asks as asks_is, calm as calm_is, certificate_of as certificate_of_is, own_end};

use std::alloc::{AllocError, Global};
use tw_certificate::first_contest;
use tw_copies::CopyInsertion;
use tw_in_turn::EndedRun;
use tw_pool::Closing;
use tw_run_output::events_of;
use tw_types::{Input, Layout};
use tw_verify::Verified;

/// Whether another order of events may show in the outputs of a run.
#[derive(Clone, Copy)]
pub enum Certificate {
    /// All runs with the same inputs that end by themselves, in any layout and order of events, end alike with the same outputs.
    Same,
    /// They may differ: this insertion is the first that the run contests.
    Contested(CopyInsertion),
    /// The run was cut off, and contested no insertion before. One after its last event may show.
    Cut,
}

/// Returns whether the number of an option asks for it.
pub(crate) fn asks(number: u64) -> bool
    ensures { result ≡ asks_is number }
{
    number != 0
}

/// Returns the certificate of a run that contests no insertion.
fn calm(closing: Option<Closing>) -> Certificate
    ensures { result ≡ calm_is (own_end closing) }
{
    match closing {
        Some(Closing::Quiet | Closing::Stuck(_)) => Certificate::Same,
        Some(Closing::Stopped | Closing::Limit) | None => Certificate::Cut,
    }
}

/// Returns the certificate of a run, from its first contested insertion and how it ended.
fn certificate_of(found: Option<CopyInsertion>, closing: Option<Closing>) -> Certificate
    ensures { result ≡ certificate_of_is found closing }
{
    match found {
        Some(insertion) => Certificate::Contested(insertion),
        None => calm(closing),
    }
}

/// Makes the certificate of a run. Executes its events on the reference machine.
fn certify(
    alloc: Global,
    verified: &Verified,
    inputs: &[Input],
    layout: Layout,
    left: &EndedRun,
) -> Result<Certificate, AllocError>
    requires { IsOfRun verified.now.program inputs.now layout left.now }
    ensures { IfOk result (IsCertificate verified.now.program inputs.now layout left.now) }
{
    let events = events_of(alloc, &left.history)?;
    let found = first_contest(alloc, verified, inputs, layout, &events)?;
    Ok(certificate_of(found, left.outcome.closing()))
}

/// Makes the certificate of a run that is asked for one.
pub(crate) fn certify_if(
    alloc: Global,
    asked: bool,
    verified: &Verified,
    inputs: &[Input],
    layout: Layout,
    left: &EndedRun,
) -> Result<Option<Certificate>, AllocError>
    requires { IsOfRun verified.now.program inputs.now layout left.now }
    ensures { IfOk result (IsCertificateIf asked verified.now.program inputs.now layout left.now) }
{
    if asked {
        Ok(Some(certify(alloc, verified, inputs, layout, left)?))
    } else {
        Ok(None)
    }
}
