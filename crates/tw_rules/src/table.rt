//! The table of pending rules.

ghost use Rattle.std.specs.Prelude.{◌≡◌, ◌<◌, ◌≤◌, ◌+◌, ◌^◌, ℕ, length, map as each, IfOk, IfErr, IfSome, IsOk, IsSome, OnOk, OnErr, Some, true, false, option_map};
ghost use Rattle.std.specs.FinMap as map;
ghost use Rattle.std.specs.FinMap.{get};
ghost use Rattle.std.specs.List.Sorted.{IsPermutation};
ghost use Rattle.std.specs.Option.{option_copied};
ghost use Rattle.tw_types.specs.declared.stage.Stage.TheVariants.{Unasked, Waiting, Ready};
ghost use Rattle.tw_types.specs.Rule.{is_releasable, is_settled, is_unasked, next_ask, next_release};
ghost use Rattle.tw_rules.specs.Table.{AreArgsOf, action_of, arg_at, new_rule, read_right, right_at, room_for, stage_at, staged, erasure};

use crate::agenda::Agenda;
use crate::entries::{find, number_from, pending, put, set_stage, take};
use crate::erased::ErasedRule;
use crate::pending::{Pending, first_stages};
use crate::planned::PlannedTask;
use std::alloc::{AllocError, Global};
use std::collections::HashMap;
use std::marker::Model;
use tw_rights::{Arg, Bundle, ReadRight};
use tw_types::{Param, RuleNo, Stage};

/// The pending rules by their numbers, and an agenda for each of the engines 0 to 3. No number is reused.
pub struct RuleTable {
    rules: HashMap<u64, Pending>,
    next: u64,
    agendas: [Agenda; 4],
    /// Empty, with capacity for all rules that `shut` returns.
    erasure: Vec<ErasedRule>,
}

impl Model for RuleTable {
    ghost use Rattle.std.specs.HashMap.{hash_map_len, spare};
    ghost use Rattle.std.specs.Vec.{vec_capacity};
    ghost use Rattle.std.specs.Coded.{codes, coded_ℕ};
    ghost use Rattle.std.specs.FinMap.{code};
    ghost use Rattle.std.specs.Ordering.{nat_cmp};
    ghost use Rattle.tw_rights.specs.declared.arg.Arg.{Arg};
    ghost use Rattle.tw_types.specs.Rule.{RuleOf};
    ghost use Rattle.tw_rules.specs.Table.{Table};

    ghost Value = { Table };

    ghost coded = { Prim.hlevel (codes, code {X = RuleOf Arg} {R = nat_cmp} coded_ℕ (Prim.hlevel codes)) };

    ghost use Rattle.tw_rules.specs.Entries.{rules_in};
    ghost use Rattle.tw_rules.specs.Indexed.{IsTable, has_place, rooms_of};

    ghost view = { λ t. record {
      rules = rules_in t.rules.entries;
      next = t.next;
      rooms = rooms_of (has_place (spare t.rules) (hash_map_len t.rules) (vec_capacity t.erasure)) t.agendas;
    } };

    ghost invariant = { λ t. IsTable t.rules.entries t.next t.agendas t.erasure.items (vec_capacity t.erasure) };
}

impl RuleTable {
    /// Makes the pool's table without rules; the first will be rule 1.
    pub fn new(alloc: Global) -> RuleTable
        ensures rules { result.rules ≡ map.empty }
        ensures next { result.next ≡ 1 }
    {
        RuleTable {
            rules: HashMap::new(alloc),
            next: 1,
            agendas: [
                Agenda::new(alloc),
                Agenda::new(alloc),
                Agenda::new(alloc),
                Agenda::new(alloc),
            ],
            erasure: Vec::new(alloc),
        }
    }

    /// Returns the number of pending rules in the pool's table.
    pub fn pending(&self) -> usize
        ensures { result ≡ map.len self.now.rules }
    {
        self.rules.len()
    }

    /// Reserves memory in the pool's table for one rule of an engine, for any procedure.
    pub fn reserve(&mut self, engine: u8) -> Result<(), AllocError>
        requires { engine < 4 }
        ensures rules { self.new.rules ≡ self.old.rules }
        ensures next { self.new.next ≡ self.old.next }
        ensures room { OnOk result (room_for engine self.new ≡ true) }
        ensures kept { (other : ℕ) → room_for other self.old ≡ true → room_for other self.new ≡ true }
        ensures reserved { room_for engine self.old ≡ true → IsOk result }
    {
        self.rules.reserve(1)?;
        self.erasure.reserve(self.rules.len() + 1)?;
        let agenda = &mut self.agendas[usize::from(engine)];
        agenda.reserve()
    }

    /// Adds a rule of an engine for a procedure of these parameters, each with an argument of its mode. Returns the arguments if an
    /// allocation fails.
    pub fn add(
        &mut self,
        engine: u8,
        params: &[Param],
        action: PlannedTask,
        args: Bundle,
    ) -> Result<RuleNo, Bundle>
        requires engine { engine < 4 }
        requires few { length params.now ≤ 8 }
        requires args { AreArgsOf params.now args }
        requires next { self.old.next < 2 ^ 63 }
        ensures added { OnOk result (self.new.rules ≡ map.insert self.old.rules self.old.next (new_rule engine params.now action args)) }
        ensures next { OnOk result (self.new.next ≡ self.old.next + 1) }
        ensures number { IfOk result (λ number. number ≡ self.old.next) }
        ensures refused { OnErr result ((self.new.rules ≡ self.old.rules) × (self.new.next ≡ self.old.next)) }
        ensures room { OnErr result ((other : ℕ) → room_for other self.old ≡ true → room_for other self.new ≡ true) }
        ensures back { IfErr result (λ back. back ≡ args) }
        ensures reserved { room_for engine self.old ≡ true → IsOk result }
    {
        let Ok(()) = self.reserve(engine) else {
            return Err(args);
        };
        let number = self.next;
        let rule = Pending {
            engine,
            action,
            args,
            stages: first_stages(params),
        };
        let agenda = &mut self.agendas[usize::from(engine)];
        agenda.add(number, rule.is_releasable());
        put(&mut self.rules, number, rule);
        self.next = number + 1;
        Ok(RuleNo::new(number))
    }

    /// Returns the rule and the parameter for which the engine asks next: the lowest of its rules with an unasked parameter, and the
    /// lowest such parameter. The argument is a read right.
    pub fn next_ask(&self, engine: u8) -> Option<(RuleNo, u8)>
        ensures ask { result ≡ next_ask engine self.now.rules }
        ensures right { IfSome result (λ ask. IsSome (right_at self.now.rules ask.0 ask.1)) }
    {
        let agenda = self.agendas.get(usize::from(engine))?;
        let number = agenda.asks.first()?;
        let rule = pending(&self.rules, number);
        let Some(parameter) = rule.first_unasked() else {
            unreachable!();
        };
        Some((RuleNo::new(number), parameter))
    }

    /// Returns the argument of a parameter of a rule in the pool's table.
    pub fn arg(&self, rule: RuleNo, parameter: u8) -> Option<&Arg>
        ensures { option_copied result ≡ arg_at self.now.rules rule parameter }
    {
        let rule = find(&self.rules, rule.number())?;
        rule.args.get(usize::from(parameter))
    }

    /// Returns the read right that is the argument of a parameter for which an engine asks.
    pub fn asked_right(&self, rule: RuleNo, parameter: u8) -> &ReadRight
        requires { IsSome (right_at self.now.rules rule parameter) }
        ensures { right_at self.now.rules rule parameter ≡ Some result.now }
    {
        let Some(arg) = self.arg(rule, parameter) else {
            unreachable!();
        };
        let Some(right) = read_right(arg) else {
            unreachable!();
        };
        right
    }

    /// Returns whether a pending rule of the pool's table can be released, or `None` if it isn't pending.
    pub fn is_releasable(&self, rule: RuleNo) -> Option<bool>
        ensures { result ≡ option_map is_releasable (get self.now.rules rule) }
    {
        let rule = find(&self.rules, rule.number())?;
        Some(rule.is_releasable())
    }

    /// Returns the number of the rule that is added next to the pool's table.
    pub fn next(&self) -> RuleNo
        ensures { result ≡ self.now.next }
    {
        RuleNo::new(self.next)
    }

    /// Makes a parameter wait for a notice. Call it when its datum was open when it was asked for.
    pub fn mark_asked(&mut self, rule: RuleNo, parameter: u8)
        requires { stage_at self.old.rules rule parameter ≡ Some Unasked }
        ensures rules { self.new.rules ≡ staged self.old.rules rule parameter Waiting }
        ensures next { self.new.next ≡ self.old.next }
        ensures room { (engine : ℕ) → room_for engine self.old ≡ true → room_for engine self.new ≡ true }
    {
        self.set_stage(rule, parameter, Stage::Waiting);
    }

    /// Makes an unasked or waiting parameter ready. Call it when its datum is closed.
    pub fn mark_ready(&mut self, rule: RuleNo, parameter: u8)
        requires { option_map is_settled (stage_at self.old.rules rule parameter) ≡ Some false }
        ensures rules { self.new.rules ≡ staged self.old.rules rule parameter Ready }
        ensures next { self.new.next ≡ self.old.next }
        ensures room { (engine : ℕ) → room_for engine self.old ≡ true → room_for engine self.new ≡ true }
    {
        self.set_stage(rule, parameter, Stage::Ready);
    }

    /// Returns the rule that the engine releases next: the lowest of its rules that can be released.
    pub fn next_release(&self, engine: u8) -> Option<RuleNo>
        ensures { result ≡ next_release engine self.now.rules }
    {
        let agenda = self.agendas.get(usize::from(engine))?;
        let number = agenda.releases.first()?;
        Some(RuleNo::new(number))
    }

    /// Returns the task that a rule of the pool's table becomes, without its arguments.
    pub fn action(&self, rule: RuleNo) -> PlannedTask
        requires { IsSome (get self.now.rules rule) }
        ensures { option_map action_of (get self.now.rules rule) ≡ Some result }
    {
        pending(&self.rules, rule.number()).action
    }

    /// Takes a rule that can be released out of the pool's table, and returns its arguments.
    pub fn release(&mut self, rule: RuleNo) -> Bundle
        requires { option_map is_releasable (get self.old.rules rule) ≡ Some true }
        ensures args { option_map (λ rule. rule.args) (get self.old.rules rule) ≡ Some result }
        ensures rules { self.new.rules ≡ map.remove self.old.rules rule }
        ensures next { self.new.next ≡ self.old.next }
        ensures room { (engine : ℕ) → room_for engine self.old ≡ true → room_for engine self.new ≡ true }
    {
        let Pending {
            engine,
            action: _,
            args,
            stages: _,
        } = take(&mut self.rules, rule.number());
        let agenda = &mut self.agendas[usize::from(engine)];
        agenda.trim_releases(&self.rules);
        args
    }

    /// Spends every right, and returns the rules that were pending. Takes them by rising number, so that sorting them finds them
    /// sorted; no proof depends on that.
    fn spend_all(self) -> Vec<ErasedRule>
        ensures { IsPermutation (each erasure (map.entries self.rules)) result.items }
    {
        let RuleTable {
            mut rules,
            next,
            agendas: _,
            mut erasure,
        } = self;
        let mut from = 0;
        while let Some(number) = number_from(&rules, from, next) {
            let rule = take(&mut rules, number);
            erasure.push_reserved(rule.spend(number));
            from = number.saturating_add(1);
        }
        rules.destroy_empty();
        erasure
    }

    /// Spends every right in the pool's table, and returns the rules that were pending, by rising number. Allocates nothing.
    pub fn shut(self) -> Vec<ErasedRule>
        ensures { result.items ≡ each erasure (map.entries self.rules) }
    {
        let mut erasure = self.spend_all();
        erasure.sort_unstable_by_key(|rule| rule.number.number());
        erasure
    }

    /// Changes the stage of a parameter of a rule in the pool's table to one after `Unasked`.
    fn set_stage(&mut self, rule: RuleNo, parameter: u8, stage: Stage)
        requires open { option_map is_settled (stage_at self.old.rules rule parameter) ≡ Some false }
        requires asked { is_unasked stage ≡ false }
        ensures rules { self.new.rules ≡ staged self.old.rules rule parameter stage }
        ensures next { self.new.next ≡ self.old.next }
        ensures room { (engine : ℕ) → room_for engine self.old ≡ true → room_for engine self.new ≡ true }
    {
        let number = rule.number();
        let (engine, is_releasable) = set_stage(&mut self.rules, number, parameter, stage);
        let agenda = &mut self.agendas[usize::from(engine)];
        agenda.advance(&self.rules, number, is_releasable);
    }
}

/// Returns the right of an argument of a rule, if it is a read right.
fn read_right(arg: &Arg) -> Option<&ReadRight>
    ensures { option_copied result ≡ read_right arg.now }
{
    match arg {
        Arg::Val(_) => None,
        Arg::Read(right) => Some(right),
        Arg::Write(_) => None,
    }
}
