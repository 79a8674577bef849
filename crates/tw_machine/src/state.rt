//! The state of the machine.

ghost use Rattle.std.specs.Prelude.{◌≡◌, ◌<◌, ◌≤◌, ◌^◌, length, option_map, true, Err, IfOk};
ghost use Rattle.std.specs.Option.{option_copied};
ghost use Rattle.std.specs.FinMap.{get};
ghost use Rattle.std.specs.FinSet.{from_list};
ghost use Rattle.tw_code.specs.format.Program.{IsProgram};
ghost use Rattle.tw_code.specs.machine.Bounds.{AreBelow, size_of};
ghost use Rattle.tw_code.specs.machine.Ending.{ending, is_quiet};
ghost use Rattle.tw_code.specs.machine.Machine.{step};
ghost use Rattle.tw_code.specs.machine.Inputs.{are_inputs_of, input_params};
ghost use Rattle.tw_code.specs.machine.Opening.{nothing_opened, opened, opening_of};
ghost use Rattle.tw_instr.specs.Attempts.{Changes};
ghost use Rattle.tw_machine.specs.Parts.{rules_of, tasks_of, frames_of};
ghost use Rattle.tw_machine.specs.Memory.{TakesMemory};

use crate::events::{calls, rules, tasks};
use crate::opened::Opened;
use crate::rule::Rule;
use crate::rules::Rules;
use crate::tables::Tables;
use crate::tasks::Tasks;
use std::alloc::{AllocError, Global};
use std::collections::{BTreeMap, BTreeSet};
use std::marker::Model;
use tw_code::Procedure;
use tw_instr::{Datum, Frame, NoticeKey, Notices, Stopped, Task};
use tw_types::{Actor, DatumId, Ending, Event, Input, Layout, Notice, Param, RuleNo, TaskNo};

/// The data, the rules, the waiting tasks, the notices, the running tasks, and the outputs.
#[derive(Drop)]
pub struct State {
    tables: Tables,
    frames: BTreeMap<Actor, Frame>,
    outputs: Vec<DatumId>,
}

impl Model for State {
    ghost use Rattle.tw_types.specs.Actor.{actor_cmp};
    ghost use Rattle.tw_types.specs.Store.{Datum as DatumMeaning};
    ghost use Rattle.tw_types.specs.Rule.{Rule as RuleMeaning};
    ghost use Rattle.tw_types.specs.Task.{Task as TaskMeaning};
    ghost use Rattle.tw_code.specs.machine.State.{State as Meaning, Frame as FrameMeaning};
    ghost use Rattle.tw_types.specs.Notices.{notice_cmp};
    ghost use Rattle.std.specs.FinMap.{code};
    ghost use Rattle.std.specs.FinSet.{code as set_code};
    ghost use Rattle.std.specs.Ordering.{nat_cmp};
    ghost use Rattle.tw_types.specs.declared.value.Value.{Value as ValueMeaning};
    ghost use Rattle.tw_types.specs.ValueOrder.{value_cmp};
    ghost use Rattle.std.specs.Coded.{codes, coded_ℕ};

    ghost Value = { Meaning };

    ghost coded = { Prim.hlevel (
      codes,
      code {X = DatumMeaning} {R = nat_cmp} coded_ℕ (Prim.hlevel (codes, code {R = value_cmp} (Prim.hlevel codes) coded_ℕ, code {X = ValueMeaning} {R = value_cmp} (Prim.hlevel codes) (Prim.hlevel codes))),
      code {X = RuleMeaning} {R = nat_cmp} coded_ℕ (Prim.hlevel codes),
      code {X = TaskMeaning} {R = nat_cmp} coded_ℕ (Prim.hlevel codes),
      code {X = FrameMeaning} {R = actor_cmp} (Prim.hlevel codes) (Prim.hlevel codes),
      set_code {R = notice_cmp} (Prim.hlevel codes),
    ) };

    ghost use Rattle.tw_machine.specs.Parts.{frames_of};

    ghost view = { λ s. record {
      store = s.tables.store;
      rules = s.tables.rules.pending;
      next_rule = s.tables.rules.next;
      tasks = s.tables.tasks.waiting;
      next_task = s.tables.tasks.next;
      frames = frames_of s.frames.entries;
      notices = s.tables.notices;
      outputs = s.outputs.items;
    } };
}

impl State {
    /// Makes the reference machine's state in which main waits, with the data of its parameters.
    pub(crate) fn open(
        alloc: Global,
        params: &[Param],
        inputs: &[Input],
    ) -> Result<State, AllocError>
        requires fit { are_inputs_of (input_params params.now) inputs.now ≡ true }
        requires few { length params.now ≤ 8 }
        ensures { IfOk result (λ state. state ≡ opening_of (opened nothing_opened params.now inputs.now)) }
    {
        let Opened {
            store,
            rights,
            outputs,
        } = Opened::of(alloc, params, inputs)?;
        let mut tasks = Tasks::new(alloc);
        tasks.put(alloc, Task::main(alloc, &rights)?)?;
        let tables = Tables {
            store,
            rules: Rules::new(alloc),
            tasks,
            notices: Notices::new(alloc),
        };
        Ok(State {
            tables,
            frames: BTreeMap::new(alloc),
            outputs,
        })
    }

    /// Returns the ids of the outputs of the reference machine, in the order of main's `write` parameters.
    pub fn outputs(&self) -> &[DatumId]
        ensures { result.now ≡ self.now.outputs }
    {
        &self.outputs
    }

    /// Returns the datum of an id in the reference machine's state, if it is live.
    pub fn datum(&self, id: DatumId) -> Option<&Datum>
        ensures { option_map (λ d. d.datum) (option_copied result) ≡ get self.now.store.live id }
    {
        self.tables.store.datum(id)
    }

    /// Returns the frame of the task that an actor of the reference machine runs, if it runs one.
    pub fn frame(&self, actor: Actor) -> Option<&Frame>
        ensures { option_copied result ≡ get self.now.frames actor }
    {
        self.frames.get(&actor)
    }

    /// Returns the frames of the running tasks, by their actors.
    pub fn frames(&self) -> &BTreeMap<Actor, Frame>
        ensures { frames_of result.now.entries ≡ self.now.frames }
    {
        &self.frames
    }

    /// Returns the pending rules of the reference machine's state, by their numbers.
    pub fn rules(&self) -> &BTreeMap<u64, Rule>
        ensures { rules_of result.now.entries ≡ self.now.rules }
    {
        self.tables.rules.pending()
    }

    /// Returns the waiting tasks of the reference machine's state, by their numbers.
    pub fn tasks(&self) -> &BTreeMap<u64, Task>
        ensures { tasks_of result.now.entries ≡ self.now.tasks }
    {
        self.tables.tasks.waiting()
    }

    /// Returns the notices that wait in the reference machine's state, in their order.
    pub fn notices(&self) -> &BTreeSet<NoticeKey>
        ensures { from_list result.now.keys ≡ self.now.notices }
    {
        self.tables.notices.keys()
    }

    /// Returns whether in this state no task runs or waits, no notice has to be delivered, and the rules are idle.
    fn is_quiet(&self) -> bool
        ensures { result ≡ is_quiet self.now }
    {
        let no_frame = self.frames.is_empty();
        let no_task = self.tables.tasks.is_empty();
        let no_notice = self.tables.notices.is_empty();
        let are_idle = self.tables.rules.are_idle();
        no_frame & no_task & no_notice & are_idle
    }

    /// Returns how the run has ended in the reference machine's state, if it has.
    pub fn ending(&self) -> Option<Ending>
        ensures { result ≡ ending self.now }
    {
        if !self.is_quiet() {
            return None;
        }
        let pending = self.tables.rules.len();
        if pending == 0 {
            Some(Ending::Quiet)
        } else {
            Some(Ending::Stuck(pending))
        }
    }

    /// Makes one event in the reference machine's state. Changes nothing if it isn't enabled, it traps, or an allocation fails.
    #[rattlefmt::skip]
    pub(crate) fn step(
        &mut self,
        alloc: Global,
        program: &[Procedure],
        layout: Layout,
        event: Event,
    ) -> Result<(), Stopped>
        requires program { IsProgram program.now }
        requires small { AreBelow (2 ^ 63) self.old }
        requires size { size_of event < 2 ^ 63 }
        ensures steps { Changes (step program.now layout event self.old) self.old result self.new }
        ensures memory { result ≡ Err Stopped.NoMemory → TakesMemory program.now layout event self.old }
    {
        match event {
            Event::Take(actor) => tasks::take(alloc, program, layout, &mut self.tables.tasks, &mut self.frames, actor),
            Event::Local(actor, steps) => tasks::local(alloc, program, &mut self.frames, actor, steps),
            Event::Call(actor) => calls::call(alloc, program, &mut self.tables, &mut self.frames, actor),
            Event::End(actor) => Ok(tasks::end(program, &mut self.frames, actor)?),
            Event::Ask(engine, rule, parameter) => rules::ask(&mut self.tables, &self.frames, engine, rule, parameter),
            Event::Deliver(server, datum, rule, parameter) => {
                let notice = Notice { datum, rule, parameter };
                Ok(rules::deliver(layout, &mut self.tables, server, &notice)?)
            }
            Event::Release(engine, rule) => rules::release(alloc, program, &mut self.tables, &self.frames, engine, rule),
        }
    }
}
