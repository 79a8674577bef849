//! The common part of RULE and PUT.

ghost use Rattle.std.specs.Prelude.{◌≡◌, ℤ, IfOk, Ok, Some, true, length, map as each, slice_get};
ghost use Rattle.tw_code.specs.declared.procedure.Procedure.{Procedure as Callee};
ghost use Rattle.tw_code.specs.machine.Arguments.{priority_at, values_suit};
ghost use Rattle.tw_pool_state.specs.Copies.{named_values};

use crate::data::results::number_at;
use crate::release::procedure_at;
use std::alloc::{AllocError, Global};
use tw_code::{Action, Priority, Procedure};
use tw_frame::Done;
use tw_types::{Param, Value};

/// The operands of an action after a job: the procedure that it names, its priority, and copies of the values.
#[derive(Drop)]
pub(crate) struct ActionOperands<'a> {
    pub(crate) callee: &'a Procedure,
    pub(crate) priority: i64,
    pub(crate) vals: Vec<Value>,
}

/// Returns the priority of a RULE or PUT in the pool: the constant, or the integer in its register after the job.
pub(crate) fn priority_of(done: &Done<'_>, priority: Priority) -> i64
    requires { (n : ℤ) × (priority_at done.now.after priority ≡ Ok n) }
    ensures { priority_at done.now.after priority ≡ Ok result }
{
    match priority {
        Priority::Constant(number) => number,
        Priority::Computed(register) => number_at(done, register),
    }
}

/// Copies the values of an action's arguments: those in the registers named for value parameters, as they are after the job.
#[inline(always)]
pub(crate) fn values_of(
    alloc: Global,
    done: &Done<'_>,
    params: &[Param],
    args: &[u8],
) -> Result<Vec<Value>, AllocError>
    requires long { length args.now ≡ length params.now }
    requires suit { values_suit done.now.after.values params.now args.now ≡ true }
    ensures { IfOk result (λ vals. each Some vals.items ≡ named_values done.now.after.values params.now args.now) }
{
    let mut vals = Vec::new(alloc);
    for index in 0..params.len() {
        if !params[index].mode.is_val() {
            continue;
        }
        vals.push(done.value(alloc, args[index])?)?;
    }
    Ok(vals)
}

/// Returns the operands of the RULE or PUT at which a task is after the job.
#[inline(always)]
pub(crate) fn action_operands<'a>(
    alloc: Global,
    done: &Done<'a>,
    action: &Action,
) -> Result<ActionOperands<'a>, AllocError>
    requires suits { (p : Callee) × (slice_get done.now.before.program.program action.now.procedure ≡ Some p) × (length action.now.args ≡ length p.params)
        × (values_suit done.now.after.values p.params action.now.args ≡ true) }
    requires priority { (n : ℤ) × (priority_at done.now.after action.now.priority ≡ Ok n) }
    ensures callee { IfOk result (λ asked. slice_get done.now.before.program.program action.now.procedure ≡ Some asked.callee.now) }
    ensures priority { IfOk result (λ asked. priority_at done.now.after action.now.priority ≡ Ok asked.priority) }
    ensures values { IfOk result (λ asked. each Some asked.vals.items ≡ named_values done.now.after.values asked.callee.now.params action.now.args) }
{
    let program = done.before().program().program();
    let callee = procedure_at(program.procedures(), action.procedure);
    let params = callee.params.as_slice();
    let priority = priority_of(done, action.priority);
    let vals = values_of(alloc, done, params, action.args.as_slice())?;
    Ok(ActionOperands {
        callee,
        priority,
        vals,
    })
}
