//! Calls on a loaded program.

ghost use Rattle.std.specs.Prelude.{◌≡◌, length};
ghost use Rattle.std.specs.Arc.{arc_value};
ghost use Rattle.tw_handles.specs.Asking.{IsBudgetIn, IsShare};
ghost use Rattle.tw_handles.specs.Codes.{done};

use crate::codes;
use crate::handle::Handle;
use crate::held::Held;
use std::alloc::Global;
use std::sync::Arc;
use tw_verify::Verified;

/// Makes `other` another handle of a program, for use in another thread. The program isn't copied.
pub fn share(alloc: Global, verified: &Arc<Verified>, other: &mut Handle) -> u8
    ensures { IsShare (arc_value verified.now) other.old.held other.new.held result }
{
    let Ok(copy) = Arc::try_clone(verified) else {
        return codes::NO_MEMORY;
    };
    match Handle::of_held(alloc, Held::Program(copy)) {
        Ok(handle) => {
            *other = handle;
            codes::DONE
        }
        Err(_) => codes::NO_MEMORY,
    }
}

/// Writes the budget of a procedure: the maximal number of instructions that one task of it executes. Returns `NO_INDEX` if there is no such
/// procedure.
pub fn budget(verified: &Verified, procedure: usize, budget: &mut u64) -> u8
    ensures { IsBudgetIn verified.now procedure budget.old budget.new result }
{
    if procedure < verified.program().procedures().len() {
        *budget = verified.budget(procedure);
        codes::DONE
    } else {
        codes::NO_INDEX
    }
}

/// Writes the number of procedures of a program.
pub fn procedures(verified: &Verified, count: &mut usize) -> u8
    ensures count { count.new ≡ length verified.now.program }
    ensures code { result ≡ done }
{
    *count = verified.program().procedures().len();
    codes::DONE
}
