//! The reference machine with its program.

ghost use Rattle.std.specs.Prelude.{◌≡◌, ℕ, ◌<◌, ◌+◌, ◌^◌, Err, IfErr, IfOk, MatchResult, None};
ghost use Rattle.tw_code.specs.machine.Bounds.{AreBelow, opening_bound, size_of};
ghost use Rattle.tw_code.specs.machine.Ending.{ending};
ghost use Rattle.tw_code.specs.machine.Opening.{opening};
ghost use Rattle.tw_code.specs.machine.Machine.{step};
ghost use Rattle.tw_instr.specs.Attempts.{Changes};
ghost use Rattle.tw_machine.specs.Memory.{TakesMemory};
ghost use Rattle.tw_machine.specs.Opening.{IsFirstError, rejection_of};

use crate::opening::rejection_of;
use crate::rejection::{OpenError, OpenRefused};
use crate::state::State;
use std::alloc::Global;
use std::marker::Model;
use tw_code::{Program, main_params};
use tw_instr::Stopped;
use tw_types::{Ending, Event, Input, Layout};

/// A program running on the actors of a layout, one event at a time.
#[derive(Drop)]
pub struct Plain {
    program: Program,
    layout: Layout,
    state: State,
}

impl Model for Plain {
    ghost use Rattle.tw_types.specs.Actor.{actor_cmp};
    ghost use Rattle.tw_types.specs.Store.{Datum as DatumMeaning};
    ghost use Rattle.tw_types.specs.Rule.{Rule as RuleMeaning};
    ghost use Rattle.tw_types.specs.Task.{Task as TaskMeaning};
    ghost use Rattle.tw_code.specs.machine.State.{Frame as FrameMeaning};
    ghost use Rattle.tw_types.specs.Notices.{notice_cmp};
    ghost use Rattle.std.specs.FinMap.{code};
    ghost use Rattle.std.specs.FinSet.{code as set_code};
    ghost use Rattle.std.specs.Ordering.{nat_cmp};
    ghost use Rattle.tw_types.specs.declared.value.Value.{Value as ValueMeaning};
    ghost use Rattle.tw_types.specs.ValueOrder.{value_cmp};
    ghost use Rattle.std.specs.Coded.{codes, coded_ℕ, coded_ℤ};
    ghost use Rattle.tw_machine.specs.PlainView.{PlainView};

    ghost Value = { PlainView };

    ghost coded = { Prim.hlevel (
      codes,
      code {X = DatumMeaning} {R = nat_cmp} coded_ℕ (Prim.hlevel (codes, code {R = value_cmp} (Prim.hlevel codes) coded_ℕ, code {X = ValueMeaning} {R = value_cmp} (Prim.hlevel codes) (Prim.hlevel codes))),
      code {X = RuleMeaning} {R = nat_cmp} coded_ℕ (Prim.hlevel codes),
      code {X = TaskMeaning} {R = nat_cmp} coded_ℕ (Prim.hlevel codes),
      code {X = FrameMeaning} {R = actor_cmp} (Prim.hlevel codes) (Prim.hlevel codes),
      set_code {R = notice_cmp} (Prim.hlevel codes),
    ) };

    ghost view = { λ p. record { version = p.program.version; program = p.program.procedures; layout = p.layout; state = p.state } };
}

impl Plain {
    /// Makes the reference machine, in which main waits, with the data of the inputs. Checks main's shape first, then the number
    /// of the inputs, then their types. An error returns the program.
    pub fn open(
        alloc: Global,
        program: Program,
        inputs: &[Input],
        layout: Layout,
    ) -> Result<Plain, OpenRefused>
        ensures opened { IfOk result (λ plain. plain ≡ record { version = program.version; program = program.procedures; layout = layout; state = opening program.procedures inputs.now }) }
        ensures asked { MatchResult result (λ _. rejection_of program.procedures inputs.now ≡ None) (λ refused. IsFirstError (rejection_of program.procedures inputs.now) refused.no) }
        ensures back { IfErr result (λ refused. refused.program ≡ program) }
        ensures below { IfOk result (λ plain. AreBelow opening_bound plain.state) }
    {
        if let Some(no) = rejection_of(program.procedures(), inputs) {
            return Err(OpenRefused { program, no });
        }
        match State::open(alloc, main_params(program.procedures()), inputs) {
            Ok(state) => Ok(Plain {
                program,
                layout,
                state,
            }),
            Err(_) => Err(OpenRefused {
                program,
                no: OpenError::NoMemory,
            }),
        }
    }

    /// Makes one event of the reference machine. Changes nothing if it isn't enabled, it traps, or an allocation fails.
    pub fn step(&mut self, alloc: Global, event: Event) -> Result<(), Stopped>
        requires small { AreBelow (2 ^ 63) self.old.state }
        requires size { size_of event < 2 ^ 63 }
        ensures steps { Changes (step self.old.program self.old.layout event self.old.state) self.old.state result self.new.state }
        ensures memory { result ≡ Err Stopped.NoMemory → TakesMemory self.old.program self.old.layout event self.old.state }
        ensures program { self.new.program ≡ self.old.program }
        ensures version { self.new.version ≡ self.old.version }
        ensures layout { self.new.layout ≡ self.old.layout }
        ensures below { (bound : ℕ) → AreBelow bound self.old.state → AreBelow (bound + size_of event) self.new.state }
    {
        self.state
            .step(alloc, self.program.procedures(), self.layout, event)
    }

    /// Returns the state of the reference machine.
    pub fn state(&self) -> &State
        ensures { result.now ≡ self.now.state }
    {
        &self.state
    }

    /// Returns the program that the reference machine executes.
    pub fn program(&self) -> &Program
        ensures is { result.now.procedures ≡ self.now.program }
        ensures version { result.now.version ≡ self.now.version }
    {
        &self.program
    }

    /// Returns the actors of the reference machine.
    pub fn layout(&self) -> Layout
        ensures { result ≡ self.now.layout }
    {
        self.layout
    }

    /// Returns how the reference machine's run has ended, if it has.
    pub fn ending(&self) -> Option<Ending>
        ensures { result ≡ ending self.now.state }
    {
        self.state.ending()
    }
}
