//! The values with which tasks start.

ghost use Rattle.std.specs.Prelude.{◌≡◌, IfOk, OnOk, OnErr, List, Ok, slice_get, map as each};
ghost use Rattle.std.specs.Option.{option_copied};
ghost use Rattle.tw_types.specs.Value.{blank_of};
ghost use Rattle.tw_types.specs.declared.value.Value.{Value as Content};
ghost use Rattle.tw_code.specs.declared.procedure.Procedure.{Procedure};
ghost use Rattle.tw_frame.specs.Banks.{HasText};
ghost use Rattle.tw_frame.specs.Drafts.{HasTexts, MayStart, started, value_in};

use crate::context::Context;
use crate::frame_buffers::{EmptyFile, FrameBuffers, ScratchContexts};
use crate::job_buffer::FreeJobBuffer;
use crate::registers::Registers;
use crate::run::procedure_of;
use std::alloc::{AllocError, Global};
use std::marker::Model;
use tw_rights::{Arg, Bundle, Task};
use tw_types::Value;
use tw_verify::Verified;

/// The values with which a task starts: once for its frame, and once for its first job. It is made when an allocation may fail.
pub struct Start<'a> {
    pub(crate) verified: &'a Verified,
    pub(crate) own: Box<Context<'a>>,
    pub(crate) lent: Box<Context<'a>>,
    pub(crate) scratch: ScratchContexts<'a>,
    pub(crate) job_buffer: FreeJobBuffer<'a>,
    pub(crate) rights: EmptyFile,
    pub(crate) procedure: u8,
}

impl<'a> Model for Start<'a> {
    ghost use Rattle.tw_frame.specs.Jobs.{AreOfBoth, DraftView};

    ghost Value = { DraftView };

    ghost view = { λ s. record { program = s.verified.now; procedure = s.procedure; values = s.own.value.registers.values } };

    ghost invariant = { λ s. AreOfBoth s.verified.now.program s.procedure s.own.value.registers s.lent.value.registers };
}

/// Returns the argument at an index of a task that starts, if it is a value.
fn value_at(args: &Bundle, index: usize) -> Option<&Value>
    ensures { option_copied result ≡ value_in (slice_get args.now index) }
{
    match args.get(index) {
        Some(Arg::Val(value)) => Some(value),
        Some(Arg::Read(_right)) => None,
        Some(Arg::Write(_right)) => None,
        None => None,
    }
}

/// Sets the first registers of a task that starts to the values among its arguments. The registers must be blank.
fn fill(alloc: Global, registers: &mut Registers<'_>, args: &Bundle) -> Result<(), AllocError>
    requires fit { (values : List Content) × (started args.now registers.old.types ≡ Ok values) }
    requires blank { registers.old.values ≡ each blank_of registers.old.types }
    ensures types { registers.new.types ≡ registers.old.types }
    ensures filled { OnOk result (started args.now registers.old.types ≡ Ok registers.new.values) }
    ensures texts { OnErr result (HasText registers.old.types) }
{
    let mut register = 0;
    for index in 0..args.len() {
        let Some(value) = value_at(args, index) else {
            continue;
        };
        registers.set_copy(alloc, register, value)?;
        register += 1;
    }
    Ok(())
}

/// Makes the values with which the task starts, in registers of its procedure's types.
fn begin<'a>(
    alloc: Global,
    registers: &mut Registers<'a>,
    task: &Task,
    verified: &'a Verified,
) -> Result<(), AllocError>
    requires { MayStart verified.now.program task.now.procedure task.now.args }
    ensures types { OnOk result ((p : Procedure) → slice_get verified.now.program task.now.procedure ≡ Some p → registers.new.types ≡ p.registers) }
    ensures started { OnOk result ((p : Procedure) → slice_get verified.now.program task.now.procedure ≡ Some p
        → started task.now.args p.registers ≡ Ok registers.new.values) }
    ensures texts { OnErr result (HasTexts verified.now.program task.now.procedure) }
{
    let p = procedure_of(verified, task.procedure);
    registers.begin(alloc, p.registers.as_slice())?;
    fill(alloc, registers, &task.args)
}

/// Makes these values twice: in the frame's registers, and in its job's.
fn begin_both<'a>(
    alloc: Global,
    own: &mut Context<'a>,
    lent: &mut Context<'a>,
    task: &Task,
    verified: &'a Verified,
) -> Result<(), AllocError>
    requires { MayStart verified.now.program task.now.procedure task.now.args }
    ensures same { OnOk result (lent.new.registers ≡ own.new.registers) }
    ensures types { OnOk result ((p : Procedure) → slice_get verified.now.program task.now.procedure ≡ Some p → own.new.registers.types ≡ p.registers) }
    ensures started { OnOk result ((p : Procedure) → slice_get verified.now.program task.now.procedure ≡ Some p
        → started task.now.args p.registers ≡ Ok own.new.registers.values) }
    ensures texts { OnErr result (HasTexts verified.now.program task.now.procedure) }
{
    begin(alloc, &mut own.registers, task, verified)?;
    lent.registers.copy_from(alloc, &own.registers)
}

impl<'a> FrameBuffers<'a> {
    /// Makes the values with which the task starts: those among its arguments in the first registers, the others blank. Allocates
    /// nothing if no register is a text. Returns the memory if an allocation fails.
    pub fn start(
        self,
        alloc: Global,
        task: &Task,
        verified: &'a Verified,
    ) -> Result<Start<'a>, FrameBuffers<'a>>
        requires { MayStart verified.now.program task.now.procedure task.now.args }
        ensures program { IfOk result (λ start. start.program ≡ verified.now) }
        ensures procedure { IfOk result (λ start. start.procedure ≡ task.now.procedure) }
        ensures started { IfOk result (λ start. (p : Procedure) → slice_get verified.now.program task.now.procedure ≡ Some p
            → started task.now.args p.registers ≡ Ok start.values) }
        ensures texts { OnErr result (HasTexts verified.now.program task.now.procedure) }
    {
        let FrameBuffers {
            mut own,
            mut lent,
            scratch,
            job_buffer,
            rights,
        } = self;
        match begin_both(alloc, &mut own, &mut lent, task, verified) {
            Ok(()) => Ok(Start {
                verified,
                procedure: task.procedure,
                own,
                lent,
                scratch,
                job_buffer,
                rights,
            }),
            Err(_) => Err(FrameBuffers {
                own,
                lent,
                scratch,
                job_buffer,
                rights,
            }),
        }
    }
}
