//! Marks the right registers that may hold copies of write rights.

ghost use Rattle.std.specs.Prelude.{◌≡◌, ◌+◌, ◌<◌, ◌≤◌, ◌^◌, ◌∷◌, IfOk, MatchOption, [], if◌then◌else◌, length};
ghost use Rattle.tw_types.specs.Mode.{is_val};
ghost use Rattle.tw_code.specs.format.Program.{IsProgram};
ghost use Rattle.tw_code.specs.machine.Arguments.{params_of};
ghost use Rattle.tw_copies.specs.Marks.{AllMet, ArgsRequire, CodeMet, CodeUnmet, CopyRequires, IsMarked, IsMet, IsUnmet, OnlyCopies, Requires, SomeUnmet, is_marked, slot};

use std::alloc::{AllocError, Global};
use tw_code::{Action, DataInstr, Instr, Procedure};
use tw_types::Param;

/// Returns the place of a procedure's right register in the list of marks for copied rights.
fn slot(number: usize, register: u8) -> usize
    requires { number < 2 ^ 16 }
    ensures { result ≡ slot number register }
{
    number * Procedure::RIGHT_REGISTERS + usize::from(register)
}

/// Returns whether a procedure's right register is marked as one that may hold a copied right.
pub(crate) fn is_marked(marks: &[bool], number: usize, register: u8) -> bool
    requires { number < 2 ^ 16 }
    ensures { result ≡ is_marked marks.now number register }
{
    match marks.get(slot(number, register)) {
        Some(mark) => *mark,
        None => false,
    }
}

/// Returns the slot of a right register that isn't marked as one that may hold a copy.
fn unmarked(marks: &[bool], number: usize, register: u8) -> Option<usize>
    requires { number < 2 ^ 16 }
    ensures { MatchOption result (IsMarked marks.now number register) (λ k. (k ≡ slot number register) × (IsMarked marks.now number register → ⊥)) }
{
    let is_unmarked = !is_marked(marks, number, register);
    is_unmarked.then_some(slot(number, register))
}

/// Returns the slot of a register that an instruction copies to or from, if one isn't marked.
fn unmet_copy(marks: &[bool], number: usize, instr: DataInstr) -> Option<usize>
    requires { number < 2 ^ 16 }
    ensures { MatchOption result (IsMet marks.now (CopyRequires number instr)) (IsUnmet marks.now (CopyRequires number instr)) }
{
    match instr {
        DataInstr::CopyWrite { to, from } => {
            unmarked(marks, number, to).or(unmarked(marks, number, from))
        }
        _ => None,
    }
}

/// Returns the slot of a parameter's register, if the argument is marked and this isn't.
fn unmet_arg(
    marks: &[bool],
    number: usize,
    callee: usize,
    next: u8,
    param: Param,
    arg: u8,
) -> Option<usize>
    requires number { number < 2 ^ 16 }
    requires callee { callee < 2 ^ 16 }
    ensures { MatchOption result
        (IsMet marks.now (ArgsRequire marks.now number callee next (param ∷ []) (arg ∷ [])))
        (IsUnmet marks.now (ArgsRequire marks.now number callee next (param ∷ []) (arg ∷ []))) }
{
    if param.mode.is_val() || !is_marked(marks, number, arg) {
        return None;
    }
    unmarked(marks, callee, next)
}

/// Returns the right register of the next parameter.
fn next_register(next: u8, param: Param) -> u8
    requires { next < 8 }
    ensures { result ≡ (if is_val param.mode then next else next + 1) }
{
    if param.mode.is_val() { next } else { next + 1 }
}

/// Returns the slot of a parameter that isn't marked, though its argument is.
fn unmet_args(
    marks: &[bool],
    number: usize,
    callee: usize,
    params: &[Param],
    args: &[u8],
) -> Option<usize>
    requires number { number < 2 ^ 16 }
    requires callee { callee < 2 ^ 16 }
    requires few { length params.now ≤ 8 }
    ensures { MatchOption result
        (IsMet marks.now (ArgsRequire marks.now number callee 0 params.now args.now))
        (IsUnmet marks.now (ArgsRequire marks.now number callee 0 params.now args.now)) }
{
    let mut next = 0;
    for (param, arg) in params.iter().zip(args) {
        if let Some(slot) = unmet_arg(marks, number, callee, next, *param, *arg) {
            return Some(slot);
        }
        next = next_register(next, *param);
    }
    None
}

/// Returns the slot of a callee's parameter that isn't marked, though an argument of this RULE or PUT is.
fn unmet_action(
    program: &[Procedure],
    marks: &[bool],
    number: usize,
    action: &Action,
) -> Option<usize>
    requires limits { IsProgram program.now }
    requires number { number < 2 ^ 16 }
    ensures { MatchOption result
        (IsMet marks.now (ArgsRequire marks.now number action.now.procedure 0 (params_of program.now action.now.procedure) action.now.args))
        (IsUnmet marks.now (ArgsRequire marks.now number action.now.procedure 0 (params_of program.now action.now.procedure) action.now.args)) }
{
    let callee = usize::from(action.procedure);
    let Some(procedure) = program.get(callee) else {
        return None;
    };
    unmet_args(
        marks,
        number,
        callee,
        procedure.params.as_slice(),
        action.args.as_slice(),
    )
}

/// Returns the slot of a register that isn't marked, though this instruction requires it.
fn unmet_instr(program: &[Procedure], marks: &[bool], number: usize, instr: &Instr) -> Option<usize>
    requires limits { IsProgram program.now }
    requires number { number < 2 ^ 16 }
    ensures { MatchOption result (IsMet marks.now (Requires program.now marks.now number instr.now))
        (IsUnmet marks.now (Requires program.now marks.now number instr.now)) }
{
    match instr {
        Instr::Data(i) => unmet_copy(marks, number, *i),
        Instr::Rule(action) | Instr::Put(action) => unmet_action(program, marks, number, action),
        Instr::Local(_) | Instr::Ret => None,
    }
}

/// Returns the slot of a register that isn't marked, though an instruction of this code requires it.
fn unmet_code(program: &[Procedure], marks: &[bool], number: usize, code: &[Instr]) -> Option<usize>
    requires limits { IsProgram program.now }
    requires number { number < 2 ^ 16 }
    ensures { MatchOption result (CodeMet program.now marks.now number code.now) (CodeUnmet program.now marks.now number code.now) }
{
    for instr in code {
        if let Some(slot) = unmet_instr(program, marks, number, instr) {
            return Some(slot);
        }
    }
    None
}

/// Returns the slot of a register that isn't marked, though an instruction of any procedure requires it.
fn unmet(program: &[Procedure], marks: &[bool]) -> Option<usize>
    requires { IsProgram program.now }
    ensures { MatchOption result (AllMet program.now marks.now) (SomeUnmet program.now marks.now) }
{
    for (number, procedure) in program.iter().enumerate() {
        let code = procedure.code.as_slice();
        if let Some(slot) = unmet_code(program, marks, number, code) {
            return Some(slot);
        }
    }
    None
}

/// Marks exactly the registers that may hold copies.
pub(crate) fn marked(alloc: Global, program: &[Procedure]) -> Result<Vec<bool>, AllocError>
    requires { IsProgram program.now }
    ensures met { IfOk result (λ marks. AllMet program.now marks.items) }
    ensures only { IfOk result (λ marks. OnlyCopies program.now marks.items) }
{
    let mut marks = vec![in alloc; false; program.len() * Procedure::RIGHT_REGISTERS]?;
    while let Some(slot) = unmet(program, &marks) {
        marks[slot] = true;
    }
    Ok(marks)
}
