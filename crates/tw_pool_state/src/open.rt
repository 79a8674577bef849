//! Opens a program.

ghost use Rattle.std.specs.Prelude.{◌≡◌, ◌<◌, ℕ, true, false, IfOk, None, OnOk, Some, []};
ghost use Rattle.std.specs.FinMap as map;
ghost use Rattle.tw_types.specs.declared.actor.Kind.TheVariants.{Control};
ghost use Rattle.tw_types.specs.Mode.{is_val, is_write};
ghost use Rattle.tw_code.specs.accepting.Needs.{HasTargets};
ghost use Rattle.tw_code.specs.machine.Inputs.{AreInputsOf, is_input_of};
ghost use Rattle.tw_code.specs.machine.Opening.{nothing_opened, opened, with_given, with_output};
ghost use Rattle.tw_queue.specs.Queues.{room_for};
ghost use Rattle.tw_pool_state.specs.OpenedParts.{Adds, AreForAll, IsMade, MainWaits, MayAdd};
ghost use Rattle.tw_pool_state.specs.Opening.{IsOpening};

use crate::input_data::add_input;
use crate::outputs::Outputs;
use crate::parts::Parts;
use crate::running_tasks::RunningTasks;
use std::alloc::{AllocError, Global};
use std::marker::Model;
use tw_code::main_params;
use tw_queue::{Task, TaskQueues};
use tw_rights::{Arg, Bundle, ReadRight};
use tw_rules::RuleTable;
use tw_store::Store;
use tw_types::{DatumId, Input, Kind, Layout, Param, TaskNo};
use tw_verify::Verified;

/// The data of main's parameters so far: the store, main's arguments, and the host's rights on the outputs, with their ids.
struct Opened {
    store: Store,
    args: Vec<Arg>,
    rights: Vec<ReadRight>,
    ids: Vec<DatumId>,
}

impl Model for Opened {
    ghost use Rattle.std.specs.Coded.{codes, coded_ℕ};
    ghost use Rattle.std.specs.FinMap.{code};
    ghost use Rattle.std.specs.Ordering.{nat_cmp};
    ghost use Rattle.tw_types.specs.declared.value.Value.{Value as ValueMeaning};
    ghost use Rattle.tw_types.specs.ValueOrder.{value_cmp};
    ghost use Rattle.tw_types.specs.Store.{Datum as DatumMeaning};
    ghost use Rattle.tw_pool_state.specs.OpenedParts.{OpenedParts};

    ghost Value = { OpenedParts };

    ghost coded = { Prim.hlevel (
      codes,
      code {X = DatumMeaning} {R = nat_cmp} coded_ℕ (Prim.hlevel (codes, code {R = value_cmp} (Prim.hlevel codes) coded_ℕ, code {X = ValueMeaning} {R = value_cmp} (Prim.hlevel codes) (Prim.hlevel codes))),
      code {R = nat_cmp} coded_ℕ coded_ℕ,
    ) };

    ghost use Rattle.std.specs.Prelude.{◌≡◌, ◌≤◌, length, map as each, vec_capacity};
    ghost use Rattle.tw_rights.specs.Rights.{Right};

    ghost view = { λ o. record { store = o.store; args = o.args.items; outputs = o.rights.items } };

    ghost invariant = { λ o. (o.ids.items ≡ each (λ (r : Right). r.id) o.rights.items) × (length o.args.items ≤ 8) × (8 ≤ vec_capacity o.args) × (8 ≤ vec_capacity o.rights) × (8 ≤ vec_capacity o.ids) };
}

impl Opened {
    /// Makes the pool's data before main's first parameter, with memory for all parameters.
    fn new(alloc: Global, servers: u8) -> Result<Opened, AllocError>
        requires { 0 < servers }
        ensures { IfOk result (λ o. IsMade servers [] o nothing_opened) }
    {
        let store = Store::new(alloc, servers)?;
        let ids = Vec::with_capacity(alloc, Bundle::MAX_LEN)?;
        let rights = Vec::with_capacity(alloc, Bundle::MAX_LEN)?;
        let Ok(args) = Vec::with_capacity(alloc, Bundle::MAX_LEN) else {
            rights.destroy_empty();
            return Err(AllocError);
        };
        Ok(Opened {
            store,
            args,
            rights,
            ids,
        })
    }

    /// Makes the pool's data of main's parameters, with the inputs for those that take one.
    fn of(
        alloc: Global,
        servers: u8,
        params: &[Param],
        inputs: &[Input],
    ) -> Result<Opened, AllocError>
        requires servers { 0 < servers }
        requires all { AreForAll params.now inputs.now }
        ensures { IfOk result (λ o. IsMade servers params.now o (opened nothing_opened params.now inputs.now)) }
    {
        let mut opened = Opened::new(alloc, servers)?;
        match opened.add_all(alloc, params, inputs) {
            Ok(()) => Ok(opened),
            Err(_) => {
                opened.shut();
                Err(AllocError)
            }
        }
    }

    /// Adds to the pool the data of each of main's parameters. There must be none yet.
    fn add_all(
        &mut self,
        alloc: Global,
        params: &[Param],
        inputs: &[Input],
    ) -> Result<(), AllocError>
        requires all { AreForAll params.now inputs.now }
        requires first { (servers : ℕ) × IsMade servers [] self.old nothing_opened }
        ensures { OnOk result ((servers : ℕ) → IsMade servers [] self.old nothing_opened → IsMade servers params.now self.new (opened nothing_opened params.now inputs.now)) }
    {
        let mut rest = inputs;
        for param in params {
            if param.mode.is_write() {
                self.add_output(alloc, *param)?;
            } else if let Some((input, others)) = rest.split_first() {
                self.add_given(alloc, *param, input)?;
                rest = others;
            } else {
                unreachable!();
            }
        }
        Ok(())
    }

    /// Makes the datum of an output in the pool: main gets the write right, and the host the read right.
    fn add_output(&mut self, alloc: Global, param: Param) -> Result<(), AllocError>
        requires mode { is_write param.mode ≡ true }
        requires room { MayAdd self.old }
        ensures { OnOk result (Adds param (λ o. with_output o param.ty) self.old self.new) }
    {
        let Ok(rights) = self.store.create(alloc, param.ty) else {
            return Err(AllocError);
        };
        let (write, read) = rights;
        let id = read.id();
        self.rights.push_reserved(read);
        self.ids.push_reserved(id);
        self.args.push_reserved(Arg::Write(write));
        Ok(())
    }

    /// Makes the data of an input in the pool: main gets the read right.
    fn add_given(&mut self, alloc: Global, param: Param, input: &Input) -> Result<(), AllocError>
        requires read { is_write param.mode ≡ false }
        requires right { is_val param.mode ≡ false }
        requires fits { is_input_of param.ty input.now ≡ true }
        requires room { MayAdd self.old }
        ensures { OnOk result (Adds param (λ o. with_given o param.ty (Some input.now)) self.old self.new) }
    {
        let Ok(right) = add_input(alloc, &mut self.store, param.ty, input) else {
            return Err(AllocError);
        };
        self.args.push_reserved(Arg::Read(right));
        Ok(())
    }

    /// Spends every right of the data that were made for main's parameters.
    fn shut(self) {
        let Opened {
            store: _store,
            args,
            rights,
            ids,
        } = self;
        Bundle::of(args).shut();
        let _ids = Outputs::new(rights, ids).shut();
    }
}

/// Makes queues without a task, with memory for main.
fn queues_for_main(alloc: Global) -> Result<TaskQueues, AllocError>
    ensures empty { IfOk result (λ queues. queues.tasks ≡ map.empty) }
    ensures room { IfOk result (λ queues. room_for Control None queues ≡ true) }
{
    let mut queues = TaskQueues::new(alloc)?;
    match queues.reserve(Kind::Control, None) {
        Ok(()) => Ok(queues),
        Err(_) => {
            queues.shut();
            Err(AllocError)
        }
    }
}

impl<'a> Parts<'a> {
    /// Opens the parts of a pool for a program with these inputs: makes their data, and main's task, which waits.
    pub fn open(
        alloc: Global,
        verified: &Verified,
        inputs: &[Input],
        layout: Layout,
    ) -> Result<Parts<'a>, AllocError>
        requires given { AreInputsOf verified.now.program inputs.now }
        requires targets { HasTargets verified.now.program layout }
        ensures { IfOk result (λ p. IsOpening verified.now inputs.now layout p) }
    {
        let params = main_params(verified.program().procedures());
        let running_tasks = RunningTasks::new(alloc, layout)?;
        let Ok(queues) = queues_for_main(alloc) else {
            running_tasks.shut();
            return Err(AllocError);
        };
        let Ok(opened) = Opened::of(alloc, layout.servers(), params, inputs) else {
            running_tasks.shut();
            queues.shut();
            return Err(AllocError);
        };
        Ok(Parts::begun(alloc, running_tasks, queues, opened))
    }

    /// Makes the parts of a pool in which main waits with its data, and no task runs.
    fn begun(
        alloc: Global,
        running_tasks: RunningTasks<'a>,
        mut queues: TaskQueues,
        opened: Opened,
    ) -> Parts<'a>
        requires tasks { queues.tasks ≡ map.empty }
        requires room { room_for Control None queues ≡ true }
        ensures { MainWaits running_tasks.entry opened result }
    {
        let Opened {
            store,
            args,
            rights,
            ids,
        } = opened;
        let main = Task {
            no: TaskNo::new(1),
            procedure: 0,
            args: Bundle::of(args),
        };
        match queues.put(Kind::Control, 0, None, main) {
            Ok(()) => {}
            Err(_task) => unreachable!(),
        }
        Parts {
            store,
            rules: RuleTable::new(alloc),
            tasks: queues,
            next_task: 2,
            running_tasks,
            outputs: Outputs::new(rights, ids),
        }
    }
}
