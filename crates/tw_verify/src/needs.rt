//! The actors that the targets of a program name.

ghost use Rattle.std.specs.Prelude.{◌≡◌};
ghost use Rattle.std.specs.List.{AllByRecursion};
ghost use Rattle.std.specs.Option.{option_copied};
ghost use Rattle.tw_code.specs.accepting.Needs.{needed, needed_by_code, needed_by_instr, needed_for};
ghost use Rattle.tw_code.specs.format.Program.{IsInstr, IsProgram, IsTarget};

use tw_code::{Instr, Procedure};
use tw_types::Kind;

/// Returns the number of actors up to a target, if the named procedure is known and of the kind; else 0.
fn needed_for(kind: Kind, callee: Option<&Procedure>, target: Option<u8>) -> u8
    requires { IsTarget target }
    ensures { result ≡ needed_for kind (option_copied callee.entry) target }
{
    match (callee, target) {
        (Some(callee), Some(number)) if callee.kind == kind => number + 1,
        _ => 0,
    }
}

/// Returns how many actors of the kind the target of an instruction needs.
fn needed_by_instr(kind: Kind, procedures: &[Procedure], instr: &Instr) -> u8
    requires { IsInstr instr.now }
    ensures { result ≡ needed_by_instr kind procedures.now instr.now }
{
    match instr {
        Instr::Rule(action) | Instr::Put(action) => {
            needed_for(
                kind,
                procedures.get(action.procedure as usize),
                action.target,
            )
        }
        Instr::Local(_) | Instr::Data(_) | Instr::Ret => 0,
    }
}

/// Returns the greatest need of the instructions of a code.
fn needed_by_code(kind: Kind, procedures: &[Procedure], code: &[Instr]) -> u8
    requires { AllByRecursion IsInstr code.now }
    ensures { result ≡ needed_by_code kind procedures.now code.now }
{
    let mut most = 0;
    for instr in code {
        most = most.max(needed_by_instr(kind, procedures, instr));
    }
    most
}

/// Returns how many actors of a kind the targets of a program need.
pub(crate) fn needed(kind: Kind, procedures: &[Procedure]) -> u8
    requires { IsProgram procedures.now }
    ensures { result ≡ needed kind procedures.now }
{
    let mut most = 0;
    for procedure in procedures {
        most = most.max(needed_by_code(kind, procedures, procedure.code.as_slice()));
    }
    most
}
