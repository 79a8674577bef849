//! Looks up procedures and instructions.

ghost use Rattle.std.specs.Prelude.{◌≡◌, ◌<◌, ◌^◌, MatchResult, OnOk, Ok, Err};
ghost use Rattle.tw_code.specs.machine.Arguments.{procedure_of};
ghost use Rattle.tw_code.specs.machine.Machine.{instr_at};

use tw_code::{Instr, Procedure};
use tw_types::Cause;

/// Returns the procedure of the number for the reference machine. Fails with `WrongCall` if there is none.
pub fn procedure_of(program: &[Procedure], number: u8) -> Result<&Procedure, Cause>
    ensures { MatchResult result (λ procedure. procedure_of program.now number ≡ Ok procedure.now) (λ cause. procedure_of program.now number ≡ Err cause) }
{
    program.get(usize::from(number)).ok_or(Cause::WrongCall)
}

/// Returns the instruction at a place for the reference machine. Fails with `OutsideCode` if there is none.
pub fn instr_at(code: &[Instr], place: usize) -> Result<&Instr, Cause>
    ensures gives { MatchResult result (λ instr. instr_at code.now place ≡ Ok instr.now) (λ cause. instr_at code.now place ≡ Err cause) }
    ensures inside { OnOk result (place < 2 ^ 63) }
{
    code.get(place).ok_or(Cause::OutsideCode)
}
