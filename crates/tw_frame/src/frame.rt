//! Frames: running tasks, as the pool stores them.

ghost use Rattle.std.specs.Prelude.{◌≡◌, ◌<◌, ◌+◌, ◌^◌, IsTrue, ◌↔◌, IfErr, IfOk, OnErr, OnOk, Some, Ok, []};
ghost use Rattle.tw_code.specs.machine.Position.{at_goal, at_next_place, with_value};
ghost use Rattle.tw_rights.specs.Filed.{filed, rights_in};
ghost use Rattle.tw_frame.specs.Drafts.{MaySet, StartsAsMachine};
ghost use Rattle.tw_frame.specs.Jobs.{AreOf, MayBeAt, bare_frame, draft_of, job_of, position_of};

use crate::context::Context;
use crate::draft::Draft;
use crate::frame_buffers::{EmptyFile, FrameBuffers, ScratchContexts};
use crate::job::{Done, Job, JobState};
use crate::job_buffer::{FreeJobBuffer, JobBuffer};
use crate::loops::Loops;
use crate::start::Start;
use std::alloc::Global;
use std::marker::Model;
use tw_rights::{RightFile, Task};
use tw_types::{Actor, TaskNo, Value};
use tw_verify::Verified;

/// A running task: its position, its rights, and how many instructions it has executed. While it runs its job is issued.
pub struct Frame<'a> {
    verified: &'a Verified,
    task: TaskNo,
    event_no: u64,
    spent: u64,
    own: Box<Context<'a>>,
    /// Its right registers.
    pub(crate) rights: Box<RightFile>,
    procedure: u8,
    actor: Actor,
}

impl<'a> Model for Frame<'a> {
    ghost use Rattle.tw_frame.specs.Jobs.{AreOf, FrameView, position_of};

    ghost Value = { FrameView };

    ghost view = { λ f. record { program = f.verified.now; task = f.task; procedure = f.procedure; actor = f.actor; event_no = f.event_no; position = position_of f.own.value; held = f.rights.value; spent = f.spent } };

    ghost invariant = { λ f. AreOf f.verified.now.program f.procedure f.own.value.registers.types };
}

impl<'a> Frame<'a> {
    /// Starts a running task's frame with these values and the rights among its arguments. With the values of
    /// `FrameBuffers::start` the frame is the machine's. The draft is for its first job.
    pub fn start(
        task: Task,
        actor: Actor,
        verified: &'a Verified,
        start: Start<'a>,
    ) -> (Frame<'a>, Draft<'a>)
        requires program { start.program ≡ verified.now }
        requires procedure { start.procedure ≡ task.procedure }
        ensures machine { StartsAsMachine verified.entry.now.program task.no task.procedure task.args start.entry.values (bare_frame result.0) }
        ensures is { result.0 ≡ record {
          program = verified.entry.now;
          task = task.no;
          procedure = task.procedure;
          actor = actor;
          event_no = 0;
          position = record { place = 0; values = start.entry.values; loops = [] };
          held = filed (rights_in task.args);
          spent = 0;
        } }
        ensures draft { result.1 ≡ start.entry }
    {
        let Task {
            no,
            procedure,
            args,
        } = task;
        let Start {
            verified: _,
            procedure: _,
            mut own,
            lent,
            scratch,
            job_buffer,
            rights,
        } = start;
        own.set_position(0, Loops::new());
        let lent = JobState {
            verified,
            task: no,
            procedure,
            actor,
            event_no: 0,
            at: lent,
        };
        let frame = Frame::of(&lent, own, rights.fill(args));
        (frame, Draft::first(lent, scratch, job_buffer))
    }

    /// Makes the frame of a task whose job is issued, with its own context and its rights.
    fn of(lent: &JobState<'a>, own: Box<Context<'a>>, rights: Box<RightFile>) -> Frame<'a>
        requires { AreOf lent.now.program.program lent.now.procedure own.value.registers.types }
        ensures { result ≡ record {
          program = lent.now.program;
          task = lent.now.task;
          procedure = lent.now.procedure;
          actor = lent.now.actor;
          event_no = lent.now.event_no;
          position = position_of own.entry.value;
          held = rights.value;
          spent = 0;
        } }
    {
        Frame {
            verified: lent.verified,
            task: lent.task,
            procedure: lent.procedure,
            actor: lent.actor,
            event_no: lent.event_no,
            spent: 0,
            own,
            rights,
        }
    }

    /// Returns whether this is the job that was issued last. Compares numbers and place first, then loops, then values.
    pub fn is_current(&self, job: &JobState<'_>) -> bool
        requires { job.now.program ≡ self.now.program }
        ensures { IsTrue result ↔ (job.now ≡ job_of self.now) }
    {
        if self.event_no != job.event_no {
            return false;
        }
        if self.task != job.task {
            return false;
        }
        if self.procedure != job.procedure {
            return false;
        }
        if self.actor != job.actor {
            return false;
        }
        if self.own.place != job.at.place {
            return false;
        }
        if !self.own.loops.same(&job.at.loops) {
            return false;
        }
        self.own.registers.same(&job.at.registers)
    }

    /// Issues a job of a frame: the task's work up to its next instruction that isn't local. `event_no` is the number of its
    /// actor's events. The draft must have the frame's values.
    pub fn lend(&mut self, event_no: u64, draft: Draft<'a>) -> Job<'a>
        requires program { draft.program ≡ self.old.program }
        requires procedure { draft.procedure ≡ self.old.procedure }
        requires values { draft.values ≡ self.old.position.values }
        requires fits_place { MayBeAt self.old.program.program self.old.procedure self.old.position }
        ensures lent { result ≡ job_of self.new }
        ensures kept { self.new ≡ record self.old { event_no = event_no } }
    {
        self.event_no = event_no;
        let Draft { mut job_buffer } = draft;
        let own: &Context<'a> = &self.own;
        let (place, loops) = (own.place, own.loops.copy());
        match job_buffer.as_mut() {
            Some(job_buffer) => job_buffer
                .lent
                .reissue(self.task, self.actor, event_no, place, loops),
            None => unreachable!(),
        }
        Job { job_buffer }
    }

    /// Completes the job that was issued last, which `done` must be of. Returns a draft of the values with which the frame continues.
    pub fn complete_job(&mut self, done: Done<'a>) -> Draft<'a>
        requires own { done.before ≡ job_of self.old }
        requires spent { self.old.spent < 2 ^ 63 }
        ensures taken { self.new ≡ record self.old { position = done.entry.after; spent = self.old.spent + done.entry.steps } }
        ensures draft { result ≡ draft_of self.new }
    {
        let steps = done.steps();
        let Done { mut job_buffer } = done;
        match job_buffer.as_mut() {
            Some(job_buffer) => job_buffer.commit(&mut self.own),
            None => unreachable!(),
        }
        self.spent += steps;
        Draft { job_buffer }
    }

    /// Completes the frame's job that was issued last, and returns a draft of the values with which the frame continues. Returns
    /// any other `Done` as the error.
    pub fn exchange(&mut self, done: Done<'a>) -> Result<Draft<'a>, Done<'a>>
        requires program { done.before.program ≡ self.old.program }
        requires spent { self.old.spent < 2 ^ 63 }
        ensures fits { OnOk result (done.entry.before ≡ job_of self.old) }
        ensures taken { OnOk result (self.new ≡ record self.old { position = done.entry.after; spent = self.old.spent + done.entry.steps }) }
        ensures draft { IfOk result (λ draft. draft ≡ draft_of self.new) }
        ensures kept { OnErr result (self.new ≡ self.old) }
        ensures back { IfErr result (λ back. back ≡ done.entry) }
        ensures foreign { OnErr result (done.entry.before ≡ job_of self.old → ⊥) }
    {
        if !self.is_current(done.before()) {
            return Err(done);
        }
        Ok(self.complete_job(done))
    }

    /// Completes the frame's job that was issued last. Returns any other `Done` as the error.
    pub fn accept(&mut self, done: Done<'a>) -> Result<(), Done<'a>>
        requires program { done.before.program ≡ self.old.program }
        requires spent { self.old.spent < 2 ^ 63 }
        ensures fits { OnOk result (done.entry.before ≡ job_of self.old) }
        ensures taken { OnOk result (self.new ≡ record self.old { position = done.entry.after; spent = self.old.spent + done.entry.steps }) }
        ensures kept { OnErr result (self.new ≡ self.old) }
        ensures back { IfErr result (λ back. back ≡ done.entry) }
        ensures foreign { OnErr result (done.entry.before ≡ job_of self.old → ⊥) }
    {
        match self.exchange(done) {
            Ok(_draft) => Ok(()),
            Err(done) => Err(done),
        }
    }

    /// Sets a register of a running task's frame to a value of its type.
    pub fn set(&mut self, register: u8, value: Value)
        requires { MaySet self.old.position.values register value }
        ensures { self.new ≡ record self.old { position = with_value self.old.position register value } }
    {
        self.own.registers.replace(register, value);
    }

    /// Moves the frame of a running task to a place, and counts one instruction.
    pub fn go(&mut self, place: usize)
        requires { self.old.spent < 2 ^ 63 }
        ensures { self.new ≡ record self.old { position = record self.old.position { place = place }; spent = self.old.spent + 1 } }
    {
        self.own.place = place;
        self.spent += 1;
    }

    /// Moves the frame of a running task to the next place, and counts one instruction.
    pub fn to_next_place(&mut self)
        requires place { self.old.position.place < 2 ^ 63 }
        requires spent { self.old.spent < 2 ^ 63 }
        ensures { self.new ≡ record self.old { position = at_next_place self.old.position; spent = self.old.spent + 1 } }
    {
        let place = self.own.place;
        self.go(place + 1);
    }

    /// Skips in the frame of a running task, as a refused instruction does, and counts one instruction.
    pub fn skip(&mut self, skip: u16)
        requires place { self.old.position.place < 2 ^ 62 }
        requires spent { self.old.spent < 2 ^ 63 }
        ensures { self.new ≡ record self.old { position = at_goal self.old.position skip; spent = self.old.spent + 1 } }
    {
        let place = self.own.place;
        self.go(place + 1 + usize::from(skip));
    }

    /// Spends every right of a running task's frame.
    pub fn shut(self) {
        let (_own, rights) = self.spend();
        rights.shut();
    }

    /// Spends every right of a frame whose task ends. Returns its memory and that of a `Done` for the seat's next task.
    pub fn end(self, alloc: Global, done: Done<'a>) -> FrameBuffers<'a> {
        let Done { job_buffer } = done;
        let (there, job_buffer) = FreeJobBuffer::of(job_buffer);
        let Some(there) = there else {
            unreachable!();
        };
        let JobBuffer {
            lent,
            after,
            again,
            outcome: _,
        } = there;
        let (own, rights) = self.spend();
        let mut rooms = FrameBuffers {
            own,
            lent: lent.at,
            scratch: ScratchContexts { after, again },
            job_buffer,
            rights,
        };
        rooms.empty(alloc);
        rooms
    }

    /// Spends every right of a frame. Returns its context and the empty right registers.
    fn spend(self) -> (Box<Context<'a>>, EmptyFile) {
        let Frame {
            verified: _,
            task: _,
            procedure: _,
            actor: _,
            event_no: _,
            spent: _,
            own,
            rights,
        } = self;
        (own, EmptyFile::of(rights))
    }
}
