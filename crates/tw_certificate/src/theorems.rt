//! A theorem on printed outputs. Nothing is computed here.

ghost use Rattle.tw_certificate.specs.Printed.{PrintsEqualsAlike};

use tw_verify::{Verified, no_trap};

/// Proves that equal outputs of two runs of a program have the same lines in reports, and the same values in JSON.
pub fn equal_outputs_print_alike(verified: &Verified)
    ensures { PrintsEqualsAlike verified.now.program }
{
    no_trap(verified);
}
