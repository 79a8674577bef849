//! Values for a task's next job, made in advance.

ghost use Rattle.std.specs.Prelude.{◌≡◌, slice_set};
ghost use Rattle.tw_frame.specs.Drafts.{MaySet};

use crate::frame_buffers::ScratchContexts;
use crate::job::JobState;
use crate::job_buffer::{FreeJobBuffer, JobBuffer, JobOutcome};
use std::marker::Model;
use tw_types::Value;

/// The values of all of a task's registers. It is made when an allocation may fail, for a call that allocates nothing.
#[derive(Drop)]
pub struct Draft<'a> {
    pub(crate) job_buffer: Box<Option<JobBuffer<'a>>>,
}

impl<'a> Model for Draft<'a> {
    ghost use Rattle.tw_frame.specs.Jobs.{DraftView};
    ghost use Rattle.tw_frame.specs.JobBuffers.{IsThere, draft_in};

    ghost Value = { DraftView };

    ghost view = { λ d. draft_in d.job_buffer.value };

    ghost invariant = { λ d. IsThere d.job_buffer.value };
}

impl<'a> Draft<'a> {
    /// Makes the draft for a task's first job, with the memory that a job needs.
    pub(crate) fn first(
        lent: JobState<'a>,
        scratch: ScratchContexts<'a>,
        place: FreeJobBuffer<'a>,
    ) -> Draft<'a>
        ensures { result ≡ record { program = lent.entry.program; procedure = lent.entry.procedure; values = lent.entry.position.values } }
    {
        let ScratchContexts { after, again } = scratch;
        let job_buffer = JobBuffer {
            lent,
            after,
            again,
            outcome: JobOutcome::nothing(),
        };
        Draft {
            job_buffer: place.hold(job_buffer),
        }
    }

    /// Replaces one value of the draft for a task's next job by another of its type. Call it when an instruction sets the
    /// register.
    pub fn set(&mut self, register: u8, value: Value)
        requires { MaySet self.old.values register value }
        ensures { self.new ≡ record self.old { values = slice_set self.old.values register value } }
    {
        match self.job_buffer.as_mut() {
            Some(job_buffer) => job_buffer.lent.set(register, value),
            None => unreachable!(),
        }
    }
}
