//! A pending rule of the reference machine.

ghost use Rattle.std.specs.Prelude.{◌≡◌, ◌≤◌, length, map, slice_set, IfOk};
ghost use Rattle.tw_types.specs.Rule.{at_stage, first_stage, has_unasked, is_releasable, task_from};
ghost use Rattle.tw_code.specs.machine.State.{new_rule};
ghost use Rattle.tw_instr.specs.Arguments.{arg_of};
ghost use Rattle.tw_machine.specs.Waiting.{id_in, unasked_id};

use std::alloc::{AllocError, Global};
use std::marker::Model;
use tw_instr::{Arg, Task};
use tw_types::{DatumId, Kind, Param, Stage};

/// A rule: the engine that holds it, the task that it becomes (its kind isn't used), and the stage of each parameter.
#[derive(Drop)]
pub struct Rule {
    engine: u8,
    task: Task,
    stages: Vec<Stage>,
}

impl Model for Rule {
    ghost use Rattle.std.specs.Prelude.{◌≤◌, length};
    ghost use Rattle.tw_types.specs.Rule.{Rule as Meaning};

    ghost Value = { Meaning };

    ghost view = { λ r. record { engine = r.engine; procedure = r.task.procedure; priority = r.task.priority; target = r.task.target; args = r.task.args; stages = r.stages.items } };

    ghost invariant = { λ r. length r.stages.items ≤ 8 };
}

impl Rule {
    /// Makes a pending rule of the engine in the reference machine, with every `closed` parameter unasked.
    pub fn new(alloc: Global, engine: u8, params: &[Param], task: Task) -> Result<Rule, AllocError>
        requires { length params.now ≤ 8 }
        ensures { IfOk result (λ rule. rule ≡ new_rule engine params.now task) }
    {
        let stages = first_stages(alloc, params)?;
        Ok(Rule {
            engine,
            task,
            stages,
        })
    }

    /// Returns the number of the engine that holds the reference machine's rule.
    pub fn engine(&self) -> u8
        ensures { result ≡ self.now.engine }
    {
        self.engine
    }

    /// Returns the number of the procedure of a pending rule's task in the program.
    pub fn procedure(&self) -> u8
        ensures { result ≡ self.now.procedure }
    {
        self.task.procedure()
    }

    /// Returns the priority of a pending rule's task.
    pub fn priority(&self) -> i64
        ensures { result ≡ self.now.priority }
    {
        self.task.priority()
    }

    /// Returns the number of the one actor that may take a pending rule's task, or `None` for any.
    pub fn target(&self) -> Option<u8>
        ensures { result ≡ self.now.target }
    {
        self.task.target()
    }

    /// Returns the arguments of a pending rule's task.
    pub fn args(&self) -> &[Arg]
        ensures { map arg_of result.now ≡ self.now.args }
    {
        self.task.args()
    }

    /// Returns the stage of each parameter of the reference machine's rule.
    pub fn stages(&self) -> &[Stage]
        ensures { result.now ≡ self.now.stages }
    {
        &self.stages
    }

    /// Returns whether the reference machine's rule can be released: all its parameters are settled.
    pub fn is_releasable(&self) -> bool
        ensures { result ≡ is_releasable self.now }
    {
        Stage::all_settled(&self.stages)
    }

    /// Returns whether the reference machine's rule has an unasked parameter.
    pub(crate) fn has_unasked(&self) -> bool
        ensures { result ≡ has_unasked self.now }
    {
        Stage::any_unasked(&self.stages)
    }

    /// Returns the id of the datum of an unasked parameter of the reference machine's rule.
    pub fn unasked_id(&self, parameter: u8) -> Option<DatumId>
        ensures { result ≡ unasked_id self.now parameter }
    {
        let parameter = usize::from(parameter);
        let stage = self.stages.get(parameter)?;
        if stage.is_unasked() {
            id_in(self.task.args().get(parameter)?)
        } else {
            None
        }
    }

    /// Changes the stage of a parameter of the reference machine's rule.
    pub(crate) fn set_stage(&mut self, parameter: u8, stage: Stage)
        ensures { self.new ≡ at_stage self.old parameter stage }
    {
        set_in(&mut self.stages, parameter, stage);
    }

    /// Returns the task that a released rule of the reference machine becomes, if its procedure is of this kind.
    pub fn task(&self, alloc: Global, kind: Kind) -> Result<Task, AllocError>
        ensures { IfOk result (λ task. task ≡ task_from kind self.now) }
    {
        self.task.try_clone(alloc, kind)
    }
}

/// Returns the id of the datum on which an argument of a rule's task is a right.
fn id_in(arg: &Arg) -> Option<DatumId>
    ensures { result ≡ id_in (arg_of arg.now) }
{
    match arg {
        Arg::Value(_) => None,
        Arg::Right(id) => Some(*id),
    }
}

/// Returns the stage of each parameter in a new rule of the reference machine.
fn first_stages(alloc: Global, params: &[Param]) -> Result<Vec<Stage>, AllocError>
    ensures { IfOk result (λ stages. stages.items ≡ map (λ p. first_stage p.mode) params.now) }
{
    params
        .iter()
        .map(|param| Stage::first(param.mode))
        .collect(alloc)
}

/// Sets the stage of a parameter among those of the reference machine's rule, if there is one of this number.
fn set_in(stages: &mut Vec<Stage>, parameter: u8, stage: Stage)
    ensures { stages.new.items ≡ slice_set stages.old.items parameter stage }
{
    let parameter = usize::from(parameter);
    if parameter < stages.len() {
        stages[parameter] = stage;
    }
}
