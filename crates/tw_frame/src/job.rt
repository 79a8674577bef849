//! Jobs, and their results.

ghost use Rattle.std.specs.Prelude.{◌≡◌, ◌<◌, ℕ, List, IfErr, IfOk, OnErr, Some, length, slice_get};
ghost use Rattle.std.specs.Result.{result_map_both};
ghost use Rattle.tw_types.specs.Value.{IsProper};
ghost use Rattle.tw_types.specs.ValueOrder.{named};
ghost use Rattle.tw_types.specs.declared.value.Value.TheVariants as value;
ghost use Rattle.tw_code.specs.machine.Position.{with_value};
ghost use Rattle.tw_frame.specs.Drafts.{MaySet};
ghost use Rattle.tw_frame.specs.JobBuffers.{IsRun, IsRunOf, done_of};
ghost use Rattle.tw_frame.specs.Jobs.{AreOf, IsCut, IsDone, IsJob, MayBeAt, position_of};
ghost use Rattle.tw_frame.specs.Pace.{IsSeenIn, steps_of};

use crate::context::Context;
use crate::job_buffer::JobBuffer;
use crate::loops::Loops;
use crate::run::{procedure_of, run_watched};
use std::alloc::{AllocError, Global};
use std::marker::Model;
use tw_stop::{Never, StopSignal};
use tw_types::{Actor, TaskNo, Value, ValueRef};
use tw_verify::Verified;

/// The issued part of a task: its place, values and loops. Its actor runs it up to its next instruction that isn't local.
#[derive(Drop)]
pub struct JobState<'a> {
    pub(crate) verified: &'a Verified,
    pub(crate) task: TaskNo,
    pub(crate) event_no: u64,
    pub(crate) at: Box<Context<'a>>,
    pub(crate) procedure: u8,
    pub(crate) actor: Actor,
}

impl<'a> Model for JobState<'a> {
    ghost use Rattle.tw_frame.specs.Jobs.{AreOf, JobView, position_of};

    ghost Value = { JobView };

    ghost view = { λ j. record { program = j.verified.now; task = j.task; procedure = j.procedure; actor = j.actor; event_no = j.event_no; position = position_of j.at.value } };

    ghost invariant = { λ j. AreOf j.verified.now.program j.procedure j.at.value.registers.types };
}

/// An issued task, with memory for its result. It is executed by `run`.
#[derive(Drop)]
pub struct Job<'a> {
    pub(crate) job_buffer: Box<Option<JobBuffer<'a>>>,
}

impl<'a> Model for Job<'a> {
    ghost use Rattle.tw_frame.specs.Jobs.{JobView};
    ghost use Rattle.tw_frame.specs.JobBuffers.{MayRun, issued_in};

    ghost Value = { JobView };

    ghost view = { λ j. issued_in j.job_buffer.value };

    ghost invariant = { λ j. MayRun j.job_buffer.value };
}

/// The result of a job, to be handed to the pool. Only `run` makes one.
#[derive(Drop)]
pub struct Done<'a> {
    pub(crate) job_buffer: Box<Option<JobBuffer<'a>>>,
}

impl<'a> Model for Done<'a> {
    ghost use Rattle.tw_frame.specs.Jobs.{DoneView};
    ghost use Rattle.tw_frame.specs.JobBuffers.{WasRun, done_in};

    ghost Value = { DoneView };

    ghost view = { λ d. done_in d.job_buffer.value };

    ghost invariant = { λ d. WasRun d.job_buffer.value };
}

impl<'a> JobState<'a> {
    /// Returns the verified program to which a job's task belongs.
    pub fn program(&self) -> &'a Verified
        ensures { result.now ≡ self.now.program }
    {
        self.verified
    }

    /// Returns the number of a job's task.
    pub fn task(&self) -> TaskNo
        ensures { result ≡ self.now.task }
    {
        self.task
    }

    /// Returns the number of the procedure of a job's task.
    pub fn procedure(&self) -> u8
        ensures { result ≡ self.now.procedure }
    {
        self.procedure
    }

    /// Returns the place from which a job continues its task.
    pub fn place(&self) -> usize
        ensures { result ≡ self.now.position.place }
    {
        self.at.place
    }

    /// Returns the actor to which a job was issued.
    pub fn actor(&self) -> Actor
        ensures { result ≡ self.now.actor }
    {
        self.actor
    }

    /// Returns how many events its actor had when a job was issued.
    pub fn event_no(&self) -> u64
        ensures { result ≡ self.now.event_no }
    {
        self.event_no
    }

    /// Runs the job's task in a copy of its context, and copies the resulting context once more. Returns how far it was run if the stop
    /// signal is raised.
    pub(crate) fn run<S: StopSignal>(
        &self,
        alloc: Global,
        after: &mut Context<'a>,
        again: &mut Context<'a>,
        stop: &mut S,
    ) -> Result<RunOutcome, Cut>
        requires { MayBeAt self.now.program.program self.now.procedure self.now.position }
        ensures run { IfOk result (IsRun self.now.program.program self.now.procedure self.now.position after.new again.new) }
        ensures cut { IfErr result (λ cut. IsCut self.now.program.program self.now.procedure self.now.position cut.steps) }
        ensures seen { IsSeenIn self.now.program.program self.now.procedure S.says stop.old stop.new (result_map_both steps_of (λ cut. cut.steps) result) }
    {
        run_in(
            alloc,
            self.verified,
            self.procedure,
            &self.at,
            after,
            again,
            stop,
        )
    }

    /// Makes the job of a task's context the next job, with the same values at this place.
    pub(crate) fn reissue(
        &mut self,
        task: TaskNo,
        actor: Actor,
        event_no: u64,
        place: usize,
        loops: Loops,
    )
        ensures { self.new ≡ record self.old { task = task; actor = actor; event_no = event_no; position = record self.old.position { place = place; loops = loops } } }
    {
        // First, so that the loops are copied to their place at once.
        self.at.set_position(place, loops);
        self.task = task;
        self.actor = actor;
        self.event_no = event_no;
    }

    /// Swaps the job's context with another, whose registers have the same types.
    pub(crate) fn exchange(&mut self, other: &mut Box<Context<'a>>)
        requires { AreOf self.old.program.program self.old.procedure other.old.value.registers.types }
        ensures { self.new ≡ record self.old { position = position_of other.old.value } }
    {
        std::mem::swap(&mut self.at, other);
    }

    /// Replaces one value in the job's context by another of its type.
    pub(crate) fn set(&mut self, register: u8, value: Value)
        requires { MaySet self.old.position.values register value }
        ensures { self.new ≡ record self.old { position = with_value self.old.position register value } }
    {
        self.at.registers.replace(register, value);
    }
}

/// How far a job was run that a raised stop signal cut off.
#[derive(Clone, Copy)]
pub struct Cut {
    /// The local steps that its task made up to the last look.
    pub steps: u64,
}

/// The result of a run: after how many steps it stopped, and whether an allocation for the next one failed.
#[derive(Clone, Copy)]
pub(crate) enum RunOutcome {
    Unmoved { short: bool },
    Moved { steps: u64, short: bool },
}

/// Runs a task of a procedure from its position, in a copy of its context, and copies the resulting context once more. Returns how far
/// it was run if the stop signal is raised.
fn run_in<'a, S: StopSignal>(
    alloc: Global,
    verified: &'a Verified,
    procedure: u8,
    at: &Context<'a>,
    after: &mut Context<'a>,
    again: &mut Context<'a>,
    stop: &mut S,
) -> Result<RunOutcome, Cut>
    requires { IsJob verified.now.program procedure at.now.registers.types (position_of at.now) }
    ensures run { IfOk result (IsRun verified.now.program procedure (position_of at.now) after.new again.new) }
    ensures cut { IfErr result (λ cut. IsCut verified.now.program procedure (position_of at.now) cut.steps) }
    ensures seen { IsSeenIn verified.now.program procedure S.says stop.old stop.new (result_map_both steps_of (λ cut. cut.steps) result) }
{
    let p = procedure_of(verified, procedure);
    let procedure = usize::from(procedure);
    if !p.code.as_slice()[at.place].is_local() {
        return Ok(RunOutcome::Unmoved { short: false });
    }
    let Ok(()) = after.copy_from(alloc, at) else {
        return Ok(RunOutcome::Unmoved { short: true });
    };
    let watched = run_watched(
        alloc,
        p,
        verified.quick(procedure),
        verified.budget(procedure),
        verified.has_slow(procedure),
        &mut after.registers,
        &mut after.loops,
        at.place,
        stop,
    );
    let loop_exit = match watched {
        Ok(loop_exit) => loop_exit,
        Err(cut) => return Err(cut),
    };
    after.place = loop_exit.place;
    let Ok(()) = again.copy_from(alloc, after) else {
        return Ok(RunOutcome::Unmoved { short: true });
    };
    Ok(RunOutcome::Moved {
        steps: loop_exit.steps,
        short: loop_exit.short,
    })
}

impl<'a> Job<'a> {
    /// Returns what was issued with a job: task, place, values and loops.
    pub fn lent(&self) -> &JobState<'a>
        ensures { result.now ≡ self.now }
    {
        match self.job_buffer.as_ref() {
            Some(job_buffer) => &job_buffer.lent,
            None => unreachable!(),
        }
    }

    /// Runs the job up to its task's next instruction that isn't local, or up to a local one for which an allocation fails
    /// (`short`). Copies the values twice, before and after, so that the next job needs no allocation. The copies share texts: the
    /// bytes of one are copied once after it was set. Makes no copy if the first instruction isn't local, and no step if the
    /// values can't be copied.
    #[inline(always)]
    pub fn run(self, alloc: Global) -> Done<'a>
        ensures { result.before ≡ self.entry }
    {
        match self.run_until(alloc, &mut Never) {
            Ok(done) => done,
            Err(_) => unreachable!(),
        }
    }

    /// Like `run`, but looks at a stop signal after 65,536 steps at the latest, and again; in a procedure with searches or READIs after
    /// 5,120, of which at most 1,023 are such. If it is raised, the job is dropped, and the error says how far it was run.
    #[inline(always)]
    pub fn run_until<S: StopSignal>(self, alloc: Global, stop: &mut S) -> Result<Done<'a>, Cut>
        ensures before { IfOk result (λ done. done.before ≡ self.entry) }
        ensures cut { IfErr result (λ cut. IsCut self.entry.program.program self.entry.procedure self.entry.position cut.steps) }
        ensures seen { IsSeenIn self.entry.program.program self.entry.procedure S.says stop.old stop.new (result_map_both (λ done. done.steps) (λ cut. cut.steps) result) }
    {
        let Job { mut job_buffer } = self;
        let went = match job_buffer.as_mut() {
            Some(job_buffer) => job_buffer.run(alloc, stop),
            None => unreachable!(),
        };
        match went {
            Ok(()) => Ok(Done { job_buffer }),
            Err(cut) => Err(cut),
        }
    }
}

impl<'a> Done<'a> {
    /// Returns the memory in which a `Done` has its job and the result.
    fn job_buffer(&self) -> &JobBuffer<'a>
        ensures is { done_of result.now ≡ self.now }
        ensures run { IsRunOf result.now }
    {
        match self.job_buffer.as_ref() {
            Some(job_buffer) => job_buffer,
            None => unreachable!(),
        }
    }

    /// Returns the job as it was before the run that made the `Done`.
    pub fn before(&self) -> &JobState<'a>
        ensures { result.now ≡ self.now.before }
    {
        &self.job_buffer().lent
    }

    /// Returns the place that the task reached when the job was run.
    pub fn after_place(&self) -> usize
        ensures { result ≡ self.now.after.place }
    {
        self.context_after().place
    }

    /// Returns the value of a register after the run of a job.
    pub fn look(&self, register: u8) -> ValueRef<'_>
        requires { register < length self.now.after.values }
        ensures is { slice_get self.now.after.values register ≡ Some (named result) }
        ensures proper { IsProper (named result) }
    {
        let context = self.context_after();
        let _count = context.registers.count();
        context.registers.at(register)
    }

    /// Copies the value of a register after the run of a job.
    pub fn value(&self, alloc: Global, register: u8) -> Result<Value, AllocError>
        requires { register < length self.now.after.values }
        ensures copy { IfOk result (λ value. slice_get self.now.after.values register ≡ Some value) }
        ensures text { OnErr result ((bytes : List ℕ) × (slice_get self.now.after.values register ≡ Some (value.Text bytes))) }
    {
        let context = self.context_after();
        let _count = context.registers.count();
        context.registers.copy_of(alloc, register)
    }

    /// Returns the number of value registers of a `Done`.
    pub fn count(&self) -> usize
        ensures { result ≡ length self.now.after.values }
    {
        self.context_after().registers.count()
    }

    /// Returns the context after the run of a job: the issued one if the task didn't move.
    fn context_after(&self) -> &Context<'a>
        ensures { position_of result.now ≡ self.now.after }
    {
        let job_buffer = self.job_buffer();
        if job_buffer.outcome.moved {
            &job_buffer.after
        } else {
            &job_buffer.lent.at
        }
    }

    /// Returns how many steps the run of a job made. Its clause `done` is the theorem on every `Done`.
    pub fn steps(&self) -> u64
        ensures is { result ≡ self.now.steps }
        ensures done { IsDone self.now.before.program.program self.now.before.procedure self.now.before.position self.now.after self.now.steps self.now.short }
    {
        self.job_buffer().outcome.steps
    }

    /// Returns whether a job's run stopped before a local instruction for which an allocation failed.
    pub fn short(&self) -> bool
        ensures { result ≡ self.now.short }
    {
        self.job_buffer().outcome.short
    }
}
