//! The memory of a job, which moves out with it and comes back with its result.

ghost use Rattle.std.specs.Prelude.{◌≡◌, IfErr, IfOk, false, true};
ghost use Rattle.std.specs.Result.{result_map_both};
ghost use Rattle.tw_frame.specs.JobBuffers.{IsRunOf, outcome_of};
ghost use Rattle.tw_frame.specs.Jobs.{IsCut, IsDone, MayBeAt, position_of};
ghost use Rattle.tw_frame.specs.Pace.{IsSeenIn};

use crate::context::Context;
use crate::job::{Cut, JobState, RunOutcome};
use crate::run::procedure_of;
use std::alloc::{AllocError, Global};
use std::marker::Model;
use tw_stop::StopSignal;

/// The work done in a job: how many steps, whether it moved at all, and whether an allocation for the next step failed.
#[derive(Clone, Copy)]
pub(crate) struct JobOutcome {
    pub(crate) steps: u64,
    pub(crate) moved: bool,
    pub(crate) short: bool,
}

impl JobOutcome {
    /// Makes what a job's run did, from how the run ended: steps, moved and short.
    pub(crate) fn of(went: RunOutcome) -> JobOutcome
        ensures { result ≡ outcome_of went }
    {
        match went {
            RunOutcome::Unmoved { short } => JobOutcome {
                steps: 0,
                moved: false,
                short,
            },
            RunOutcome::Moved { steps, short } => JobOutcome {
                steps,
                moved: true,
                short,
            },
        }
    }

    /// Returns what was done of a job before its run: nothing.
    pub(crate) fn nothing() -> JobOutcome {
        JobOutcome {
            steps: 0,
            moved: false,
            short: false,
        }
    }
}

/// A job, what was done of it, and two copies of the resulting context: one for its frame, one for its next job. It is in one
/// allocation for as long as the job is out, so a scheduling step moves one pointer.
#[derive(Drop)]
pub(crate) struct JobBuffer<'a> {
    pub(crate) lent: JobState<'a>,
    pub(crate) after: Box<Context<'a>>,
    pub(crate) again: Box<Context<'a>>,
    pub(crate) outcome: JobOutcome,
}

/// Returns whether the next instruction of a job's task isn't local, so that a run makes no step.
fn is_at_stop(lent: &JobState<'_>) -> bool
    requires { MayBeAt lent.now.program.program lent.now.procedure lent.now.position }
    ensures { result ≡ true → IsDone lent.now.program.program lent.now.procedure lent.now.position lent.now.position 0 false }
{
    let p = procedure_of(lent.verified, lent.procedure);
    !p.code.as_slice()[lent.at.place].is_local()
}

impl<'a> JobBuffer<'a> {
    /// Runs the task of a job buffer in a copy of its context, and copies the resulting context once more. Returns how far it was run
    /// if the stop signal was raised meanwhile.
    #[inline(always)]
    pub(crate) fn run<S: StopSignal>(&mut self, alloc: Global, stop: &mut S) -> Result<(), Cut>
        requires { MayBeAt self.old.lent.program.program self.old.lent.procedure self.old.lent.position }
        ensures lent { self.new.lent ≡ self.old.lent }
        ensures run { IfOk result (λ _. IsRunOf self.new) }
        ensures cut { IfErr result (λ cut. IsCut self.old.lent.program.program self.old.lent.procedure self.old.lent.position cut.steps) }
        ensures seen { IsSeenIn self.old.lent.program.program self.old.lent.procedure S.says stop.old stop.new (result_map_both (λ _. self.new.outcome.steps) (λ cut. cut.steps) result) }
    {
        let JobBuffer {
            lent,
            after,
            again,
            outcome,
        } = self;
        if is_at_stop(lent) {
            *outcome = JobOutcome::of(RunOutcome::Unmoved { short: false });
            return Ok(());
        }
        match lent.run(alloc, after, again, stop) {
            Ok(went) => {
                *outcome = JobOutcome::of(went);
                Ok(())
            }
            Err(cut) => Err(cut),
        }
    }

    /// Swaps the resulting context with the frame's, if the task moved. The job keeps the copy.
    pub(crate) fn commit(&mut self, own: &mut Box<Context<'a>>)
        requires { IsRunOf self.old }
        ensures moved { self.old.outcome.moved ≡ true → (own.new.value ≡ self.old.after.value) × (self.new.lent ≡ record self.old.lent { position = position_of self.old.again.value }) }
        ensures nowhere { self.old.outcome.moved ≡ false → (own.new.value ≡ own.old.value) × (self.new.lent ≡ self.old.lent) }
    {
        if self.outcome.moved {
            std::mem::swap(own, &mut self.after);
            self.lent.exchange(&mut self.again);
        }
    }
}

/// Memory for a job, without one in it.
#[derive(Drop)]
pub(crate) struct FreeJobBuffer<'a> {
    job_buffer: Box<Option<JobBuffer<'a>>>,
}

impl<'a> Model for FreeJobBuffer<'a> {
    ghost Value = { Unit {0} };

    ghost view = { λ empty. tt };
}

impl<'a> FreeJobBuffer<'a> {
    /// Allocates memory for a job, without one in it.
    pub(crate) fn new(alloc: Global) -> Result<FreeJobBuffer<'a>, AllocError> {
        let job_buffer = Box::new(alloc, None)?;
        Ok(FreeJobBuffer { job_buffer })
    }

    /// Puts a job into free memory for one.
    pub(crate) fn hold(self, job_buffer: JobBuffer<'a>) -> Box<Option<JobBuffer<'a>>>
        ensures { result.value ≡ Some job_buffer.entry }
    {
        let FreeJobBuffer {
            job_buffer: mut place,
        } = self;
        *place = Some(job_buffer);
        place
    }

    /// Takes the job out of its memory, which is free then.
    pub(crate) fn of(
        mut place: Box<Option<JobBuffer<'a>>>,
    ) -> (Option<JobBuffer<'a>>, FreeJobBuffer<'a>)
        ensures { result.0 ≡ place.entry.value }
    {
        let job_buffer = place.take();
        (job_buffer, FreeJobBuffer { job_buffer: place })
    }
}
