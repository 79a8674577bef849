//! The checks of RULE and PUT: of the procedure that they name, and of its arguments.

ghost use Rattle.std.specs.Prelude.{◌≡◌, ◌∷◌, [], slice_get};
ghost use Rattle.std.specs.List.{AllByRecursion};
ghost use Rattle.std.specs.Option.{option_map};
ghost use Rattle.tw_types.specs.Actor.{is_control};
ghost use Rattle.tw_code.specs.format.Program.{IsAction, IsRegister};
ghost use Rattle.tw_code.specs.accepting.Question.{rejection_in};
ghost use Rattle.tw_code.specs.accepting.Typing.{requires_args, requires_callee, requires_action, requires_priority};
ghost use Rattle.tw_verify.specs.Rejection.{verify_error_code};

use crate::questions::{beside, lowest, value_rejection};
use crate::rejection::{Unmet, VerifyError};
use crate::typing::Typing;
use tw_code::{Action, Priority, Procedure};
use tw_types::{Kind, Param, Scalar};

/// Checks one argument: a value of the parameter's type, or a right that suits the parameter. Those before it have left the rights `left` of the
/// typing.
fn argument_rejection(
    waits: bool,
    registers: &[Scalar],
    param: Param,
    arg: u8,
    typing: &Typing,
    left: &Typing,
) -> Option<VerifyError>
    requires { IsRegister arg }
    ensures { option_map verify_error_code result
        ≡ rejection_in (requires_args waits registers.now (param ∷ []) (arg ∷ []) left.now) }
{
    if param.mode.is_val() {
        return value_rejection(registers, arg, param.ty.scalar());
    }
    let fits = left
        .right_at(arg)
        .is_some_and(|right| right.right_fits_param(waits, param));
    let unmet = Unmet::argument(waits, param, arg, typing, left);
    (!fits).then_some(VerifyError::WrongRight(unmet))
}

/// Checks the arguments in order. A right leaves its register, so the register is empty if it is named again.
fn arguments_rejection(
    waits: bool,
    registers: &[Scalar],
    params: &[Param],
    args: &[u8],
    typing: &Typing,
) -> Option<VerifyError>
    requires { AllByRecursion IsRegister args.now }
    ensures { option_map verify_error_code result
        ≡ rejection_in (requires_args waits registers.now params.now args.now typing.now) }
{
    let mut rejection = None;
    let mut left = *typing;
    for (param, arg) in params.iter().zip(args) {
        let own = argument_rejection(waits, registers, *param, *arg, typing, &left);
        rejection = lowest(rejection, own);
        left = left.without(*param, *arg);
    }
    rejection
}

/// Checks the named procedure: it is known, and has as many parameters as there are arguments. Only then checks the arguments.
fn callee_rejection(
    waits: bool,
    procedures: &[Procedure],
    procedure: &Procedure,
    action: &Action,
    typing: &Typing,
) -> Option<VerifyError>
    requires { IsAction action.now }
    ensures { option_map verify_error_code result
        ≡ rejection_in (requires_callee waits procedure.now.registers
        (slice_get procedures.now action.now.procedure) action.now.args typing.now) }
{
    let Some(callee) = procedures.get(action.procedure as usize) else {
        return Some(VerifyError::UnknownProcedure);
    };
    let params = callee.params.as_slice();
    let args = action.args.as_slice();
    if args.len() != params.len() {
        return Some(VerifyError::ArgumentCount);
    }
    arguments_rejection(waits, procedure.registers.as_slice(), params, args, typing)
}

/// Checks that the register of an action's computed priority is declared, of type int.
fn priority_rejection(registers: &[Scalar], priority: Priority) -> Option<VerifyError>
    ensures { option_map verify_error_code result ≡ rejection_in (requires_priority registers.now priority) }
{
    match priority {
        Priority::Constant(_) => None,
        Priority::Computed(register) => value_rejection(registers, register, Scalar::Int),
    }
}

/// Returns whether the procedure that has a RULE or PUT is a control procedure.
fn is_control(procedure: &Procedure) -> bool
    ensures { result ≡ is_control procedure.now.kind }
{
    matches!(procedure.kind, Kind::Control)
}

/// Checks a RULE (`waits`), whose task waits for its data, or a PUT, whose task doesn't.
pub(crate) fn action_rejection(
    waits: bool,
    procedures: &[Procedure],
    procedure: &Procedure,
    action: &Action,
    typing: &Typing,
) -> Option<VerifyError>
    requires { IsAction action.now }
    ensures { option_map verify_error_code result
        ≡ rejection_in (requires_action waits procedures.now procedure.now action.now typing.now) }
{
    let priority = priority_rejection(procedure.registers.as_slice(), action.priority);
    let callee = callee_rejection(waits, procedures, procedure, action, typing);
    let others = lowest(priority, callee);
    beside(is_control(procedure), VerifyError::ActionInLeaf, others)
}
