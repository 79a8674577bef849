//! Verdicts.

ghost use Rattle.std.specs.Prelude.{◌≡◌};
ghost use Rattle.tw_verdict.specs.Verdict.{accepted as accepted_is, no_memory as no_memory_is};

use tw_verify::Verified;

/// The verdict on a program's bytes.
#[repr(C)]
#[derive(Clone, Copy)]
pub struct Verdict {
    /// 0: accepted; 70, 'F': the bytes are no program; 86, 'V': refused; 77, 'M': memory ran out. Of a text also 65, 'A': assembly; 78, 'N':
    /// names; 72, 'H': no hex text, or no UTF-8.
    pub letter: u8,
    /// The code after the letter.
    pub number: u8,
    /// The numbers of engines and of workers that the program requires, if it is accepted.
    pub engines: u8,
    pub workers: u8,
    /// The procedure of an error of the verifier.
    pub procedure: usize,
    /// The place of the error in the procedure; or the byte of a fault.
    pub place: usize,
}

/// Makes a verdict of a letter, a code, and a position in the program.
pub fn refused_at(letter: u8, number: u8, procedure: usize, place: usize) -> Verdict
    ensures { result ≡ record { letter = letter; number = number; engines = 0; workers = 0; procedure = procedure; place = place } }
{
    Verdict {
        letter,
        number,
        engines: 0,
        workers: 0,
        procedure,
        place,
    }
}

impl Verdict {
    /// Returns the verdict if an allocation failed.
    pub fn no_memory() -> Verdict
        ensures { result ≡ no_memory_is }
    {
        refused_at(b'M', 0, 0, 0)
    }
}

/// Returns the verdict on an accepted program.
pub(crate) fn accepted(verified: &Verified) -> Verdict
    ensures { result ≡ accepted_is verified.now.program }
{
    let (engines, workers) = verified.needs();
    Verdict {
        letter: 0,
        number: 0,
        engines,
        workers,
        procedure: 0,
        place: 0,
    }
}
