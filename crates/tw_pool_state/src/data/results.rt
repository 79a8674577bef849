//! Values that an instruction reads from a job's result, or puts into a task and the draft of its next job.

ghost use Rattle.std.specs.Prelude.{◌≡◌, ◌<◌, ◌^◌, ◌+◌, ℤ, IfOk, OnErr, Some, slice_get};
ghost use Rattle.tw_types.specs.Value.{scalar_of};
ghost use Rattle.tw_types.specs.declared.data_type.Scalar.TheVariants as scalar;
ghost use Rattle.tw_types.specs.declared.value.Value.TheVariants as value;
ghost use Rattle.tw_code.specs.machine.Position.{at_next_place, with_value};
ghost use Rattle.tw_frame.specs.Drafts.{MaySet};
ghost use Rattle.tw_frame.specs.Jobs.{draft_of};

use std::alloc::{AllocError, Global};
use tw_frame::{Done, Draft, Frame};
use tw_types::{Value, ValueRef};

/// Returns the integer in a register after the job, as an operand of an instruction on data.
pub(crate) fn number_at(done: &Done<'_>, register: u8) -> i64
    requires { (n : ℤ) × (slice_get done.now.after.values register ≡ Some (value.Int n)) }
    ensures { slice_get done.now.after.values register ≡ Some (value.Int result) }
{
    match done.look(register) {
        ValueRef::Int(number) => number,
        ValueRef::Text(_text) => unreachable!(),
    }
}

/// Copies a result of an instruction on data twice. Allocates only for a text.
pub(crate) fn copied_twice(alloc: Global, value: &Value) -> Result<(Value, Value), AllocError>
    ensures first { IfOk result (λ copies. copies.0 ≡ value.now) }
    ensures second { IfOk result (λ copies. copies.1 ≡ copies.0) }
    ensures text { OnErr result (scalar_of value.now ≡ scalar.Text) }
{
    let first = value.try_clone(alloc)?;
    let second = value.try_clone(alloc)?;
    Ok((first, second))
}

/// Sets a register of the frame to the result of an instruction on data, and that of its draft to a copy, and moves to the next
/// place.
pub(crate) fn set_result<'a>(
    frame: &mut Frame<'a>,
    draft: &mut Draft<'a>,
    register: u8,
    value: Value,
    copy: Value,
)
    requires fits { MaySet frame.old.position.values register value }
    requires same { copy ≡ value }
    requires like { draft.old ≡ draft_of frame.old }
    requires place { frame.old.position.place < 2 ^ 63 }
    requires spent { frame.old.spent < 2 ^ 63 }
    ensures given { frame.new ≡ record frame.old { position = at_next_place (with_value frame.old.position register value); spent = frame.old.spent + 1 } }
    ensures drafted { draft.new ≡ draft_of frame.new }
{
    frame.set(register, value);
    draft.set(register, copy);
    frame.to_next_place();
}
