//! The running tasks, by their actors.

ghost use Rattle.std.specs.Prelude.{◌≡◌, ◌<◌, ◌≤◌, ◌+◌, ◌^◌, ℕ, IfOk, List, OnErr, Option, IsSome, None, Some, length, true};
ghost use Rattle.std.specs.FinMap as map;
ghost use Rattle.std.specs.FinMap.{get, remove, len};
ghost use Rattle.std.specs.Option.{option_copied};
ghost use Rattle.tw_rights.specs.declared.held.Held.{Held};
ghost use Rattle.tw_rights.specs.Bundled.{bundled};
ghost use Rattle.tw_rights.specs.Roomy.{IsRoom};
ghost use Rattle.tw_types.specs.Actor.{is_in};
ghost use Rattle.tw_types.specs.Task.{TaskOf, best};
ghost use Rattle.tw_rights.specs.declared.arg.Arg.{Arg};
ghost use Rattle.tw_frame.specs.Drafts.{MayStart};
ghost use Rattle.tw_code.specs.machine.Position.{at_next_place};
ghost use Rattle.tw_frame.specs.Jobs.{FrameView, MayBeAt, job_of};
ghost use Rattle.tw_pool_state.specs.RunningTasks.{HasSlot, with_running};
ghost use Rattle.tw_pool_state.specs.Coming.{IsBegun, MayBegin, frame_after, frame_at_next, issued_as};
ghost use Rattle.tw_pool_state.specs.Data.{IsIssuedAnswer, MayDo};
ghost use Rattle.tw_pool_state.specs.Memory.{TakesTexts};

use crate::data::run_data;
use crate::operands::ActionOperands;
use crate::task_slots::{
    all_frame_buffers, drop_frame_buffers, empty_slots, put_buffers, put_task, shut_tasks,
    take_buffers, take_task,
};
use std::alloc::{AllocError, Global};
use std::marker::Model;
use tw_code::DataInstr;
use tw_frame::{Done, Frame, FrameBuffers, Job};
use tw_queue::TaskQueues;
use tw_rights::{Arg, Bundle};
use tw_store::Store;
use tw_types::{Actor, Layout};
use tw_verify::Verified;

/// A slot for each actor of the greatest layout: engines, servers, workers.
pub struct RunningTasks<'a> {
    layout: Layout,
    /// The task in each slot, if there is one.
    frames: Vec<Option<Frame<'a>>>,
    /// Memory for a task, for each empty slot of an engine or a worker of the layout.
    frame_buffers: Vec<Option<FrameBuffers<'a>>>,
    taken: usize,
}

impl<'a> Model for RunningTasks<'a> {
    ghost use Rattle.std.specs.Coded.{codes};
    ghost use Rattle.std.specs.FinMap.{code};
    ghost use Rattle.tw_types.specs.Actor.{actor_cmp};
    ghost use Rattle.tw_frame.specs.Jobs.{FrameView};
    ghost use Rattle.tw_pool_state.specs.RunningTasks.{RunningView};

    ghost Value = { RunningView };

    ghost coded = { Prim.hlevel (codes, code {X = FrameView} {R = actor_cmp} (Prim.hlevel codes) (Prim.hlevel codes)) };

    ghost use Rattle.tw_pool_state.specs.RunningTasks.{by_actor, AreKept, AreTaskSlots};

    ghost view = { λ s. record { layout = s.layout; tasks = by_actor s.frames.items } };

    ghost invariant = { λ s. AreTaskSlots s.frames.items s.taken × AreKept s.layout s.frames.items s.frame_buffers.items };
}

impl<'a> RunningTasks<'a> {
    /// Makes empty slots for running tasks, with memory for a task in each that is of an engine or a worker of the layout.
    pub fn new(alloc: Global, layout: Layout) -> Result<RunningTasks<'a>, AllocError>
        ensures { IfOk result (λ running_tasks. running_tasks ≡ record { layout = layout; tasks = map.empty }) }
    {
        let frame_buffers = all_frame_buffers(alloc, layout)?;
        let Ok(frames) = empty_slots(alloc) else {
            drop_frame_buffers(frame_buffers);
            return Err(AllocError);
        };
        Ok(RunningTasks {
            layout,
            frames,
            frame_buffers,
            taken: 0,
        })
    }

    /// Spends every right of every running task.
    pub fn shut(self) {
        let RunningTasks {
            layout: _,
            frames,
            frame_buffers,
            taken: _,
        } = self;
        shut_tasks(frames);
        drop_frame_buffers(frame_buffers);
    }

    /// Returns the number of tasks that run in the pool.
    pub fn running(&self) -> usize
        ensures { result ≡ len self.now.tasks }
    {
        self.taken
    }

    /// Returns the frame of the task that an actor runs, if it has one.
    pub fn get(&self, actor: Actor) -> Option<&Frame<'a>>
        requires { HasSlot actor }
        ensures { option_copied result ≡ get self.now.tasks actor }
    {
        self.frames[actor.place()].as_ref()
    }

    /// Starts the best queued task of an actor without one, if there is one, and issues its job.
    pub(crate) fn start(
        &mut self,
        alloc: Global,
        actor: Actor,
        verified: &'a Verified,
        event_no: u64,
        tasks: &mut TaskQueues,
    ) -> Result<Option<Job<'a>>, AllocError>
        requires task_slot { HasSlot actor }
        requires in_layout { is_in self.old.layout actor ≡ true }
        requires empty { get self.old.tasks actor ≡ None }
        requires may { (e : ℕ × TaskOf Arg) → best actor tasks.old.tasks ≡ Some e → MayStart verified.now.program e.1.procedure e.1.args }
        requires fits_place { MayBegin verified.now actor tasks.old.tasks }
        ensures begun { IsBegun verified.now actor event_no self.old.tasks tasks.old.tasks self.new.tasks tasks.new.tasks result }
        ensures layout { self.new.layout ≡ self.old.layout }
        ensures memory { OnErr result (TakesTexts verified.now.program (best actor tasks.old.tasks)) }
    {
        let Some(best) = tasks.best(actor) else {
            return Ok(None);
        };
        let number = actor.place();
        let start = match take_buffers(&mut self.frame_buffers, number).start(
            alloc, best, verified,
        ) {
            Ok(start) => start,
            Err(frame_buffers) => {
                put_buffers(&mut self.frame_buffers, number, frame_buffers);
                return Err(AllocError);
            }
        };
        let Some(task) = tasks.take(actor) else {
            unreachable!();
        };
        let (mut frame, draft) = Frame::start(task, actor, verified, start);
        let job = frame.lend(event_no, draft);
        put_task(&mut self.frames, number, frame);
        self.taken += 1;
        Ok(Some(job))
    }

    /// Ends the task that an actor runs. Its memory, and that of its last `Done`, is for the next one.
    pub(crate) fn end(&mut self, alloc: Global, actor: Actor, done: Done<'a>)
        requires task_slot { HasSlot actor }
        requires is_running { IsSome (get self.old.tasks actor) }
        ensures { self.new ≡ record self.old { tasks = remove self.old.tasks actor } }
    {
        let number = actor.place();
        let Some(frame) = take_task(&mut self.frames, number) else {
            unreachable!();
        };
        self.taken -= 1;
        put_buffers(&mut self.frame_buffers, number, frame.end(alloc, done));
    }

    /// Completes the job of the task that an actor runs, which `done` must be of, and issues the next one.
    pub(crate) fn advance(&mut self, actor: Actor, event_no: u64, done: Done<'a>) -> Job<'a>
        requires task_slot { HasSlot actor }
        requires is_running { (f : FrameView) × (get self.old.tasks actor ≡ Some f) × (done.before ≡ job_of f) × (f.spent < 2 ^ 63) }
        ensures { (f : FrameView) → get self.old.tasks actor ≡ Some f
            → (self.new ≡ with_running self.old actor (issued_as event_no (frame_after f done.entry))) × (result ≡ job_of (issued_as event_no (frame_after f done.entry))) }
    {
        let _steps = done.steps();
        let number = actor.place();
        let place = &mut self.frames[number];
        match place {
            Some(frame) => {
                let draft = frame.complete_job(done);
                frame.lend(event_no, draft)
            }
            None => unreachable!(),
        }
    }

    /// Completes the actor's job for RULE or PUT, moves arguments out of its registers, moves to the next place, and issues the
    /// next job.
    #[inline(always)]
    pub(crate) fn take_args(
        &mut self,
        actor: Actor,
        event_no: u64,
        done: Done<'a>,
        args: &[u8],
        asked: ActionOperands<'_>,
        room: Vec<Arg>,
    ) -> (Bundle, Job<'a>)
        requires task_slot { HasSlot actor }
        requires few { length asked.callee.now.params ≤ 8 }
        requires room { IsRoom (length asked.callee.now.params) room }
        requires is_running { (f : FrameView) × (get self.old.tasks actor ≡ Some f) × (done.before ≡ job_of f) × (f.spent + done.steps < 2 ^ 63)
            × (done.after.place < 2 ^ 63) × IsSome (bundled f.held asked.callee.now.params args.now asked.vals.items)
            × MayBeAt f.program.program f.procedure (at_next_place done.after) }
        ensures { (f : FrameView) → get self.old.tasks actor ≡ Some f → (file : List (Option Held))
            × (bundled f.held asked.entry.callee.now.params args.now asked.entry.vals.items ≡ Some (record { args = result.0; file = file }))
            × (self.new ≡ with_running self.old actor (issued_as event_no (frame_at_next (frame_after f done.entry) file))) × (result.1 ≡ job_of (issued_as event_no (frame_at_next (frame_after f done.entry) file))) }
    {
        let ActionOperands {
            callee,
            priority: _,
            vals,
        } = asked;
        let params = callee.params.as_slice();
        let number = actor.place();
        let place = &mut self.frames[number];
        match place {
            Some(frame) => {
                let draft = frame.complete_job(done);
                let bundle = frame.take_args(params, args, vals, room);
                (bundle, frame.lend(event_no, draft))
            }
            None => unreachable!(),
        }
    }

    /// Completes the actor's job, executes an instruction on data, and issues the next job. Returns the `Done` if an allocation fails.
    pub(crate) fn exec_data(
        &mut self,
        actor: Actor,
        store: &mut Store,
        alloc: Global,
        event_no: u64,
        done: Done<'a>,
        instr: &DataInstr,
    ) -> Result<Job<'a>, Done<'a>>
        requires task_slot { HasSlot actor }
        requires is_running { (f : FrameView) × (get self.old.tasks actor ≡ Some f) × (done.before ≡ job_of f) × MayDo instr.now store.old (frame_after f done) }
        ensures { (f : FrameView) → get self.old.tasks actor ≡ Some f → (g : FrameView) × (self.new ≡ with_running self.old actor g)
            × IsIssuedAnswer instr.now store.old store.new f g event_no done.entry result }
    {
        let number = actor.place();
        let place = &mut self.frames[number];
        match place {
            Some(frame) => match run_data(store, frame, alloc, done, instr) {
                Ok(draft) => Ok(frame.lend(event_no, draft)),
                Err(done) => Err(done),
            },
            None => unreachable!(),
        }
    }
}
