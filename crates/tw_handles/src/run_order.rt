//! Whether another order of events may show in the outputs of a run that was made.

ghost use Rattle.std.specs.Prelude.{◌≡◌};
ghost use Rattle.tw_handles.specs.Certificates.{IsNumbered, certificate_numbers};
ghost use Rattle.tw_handles.specs.Numbers.{filled};

use crate::certificate::Certificate;
use crate::codes;
use crate::numbers::put;

/// Writes 0 for the same in every order, 1 with the first contested insertion's procedure and place, or 2 for a run that was cut off.
fn put_certificate(certificate: Certificate, numbers: &mut [u64])
    ensures { numbers.new ≡ filled (certificate_numbers certificate) numbers.old }
{
    match certificate {
        Certificate::Same => put(&[0, 0, 0], numbers),
        Certificate::Contested(insertion) => put(
            &[1, insertion.procedure as u64, insertion.place as u64],
            numbers,
        ),
        Certificate::Cut => put(&[2, 0, 0], numbers),
    }
}

/// Writes the certificate of a run whose options asked for it. If it is 0, all runs with the same inputs that end by themselves, in any layout and
/// order of events, end like this one, with its outputs. Returns `NO_ORDER` if the report has no certificate.
pub fn report_order(made: Option<Certificate>, numbers: &mut [u64]) -> u8
    ensures { IsNumbered made numbers.old numbers.new result }
{
    match made {
        Some(certificate) => {
            put_certificate(certificate, numbers);
            codes::DONE
        }
        None => codes::NO_ORDER,
    }
}
