//! The table of pending rules.

ghost use Rattle.std.specs.Prelude.{◌≡◌, ◌<◌, ◌^◌, not, ◌&&◌, map, OnErr, OnOk};
ghost use Rattle.std.specs.FinMap.{empty, get, len, values};
ghost use Rattle.std.specs.List.{list_any};
ghost use Rattle.std.specs.List.Sorted.{IsStrictlySortedBy};
ghost use Rattle.std.specs.Map.{keys_of};
ghost use Rattle.std.specs.Ordering.{nat_cmp};
ghost use Rattle.std.specs.Option.{option_copied};
ghost use Rattle.tw_types.specs.Rule.{has_unasked, is_releasable};
ghost use Rattle.tw_machine.specs.Parts.{rules_of};
ghost use Rattle.tw_machine.specs.Waiting.{rule_made, rule_released, staged};

use crate::rule::Rule;
use std::alloc::{AllocError, Global};
use std::collections::BTreeMap;
use std::marker::Model;
use tw_types::{RuleNo, Stage};

/// The pending rules by their numbers, and the number of the next one. No number is reused.
#[derive(Drop)]
pub struct Rules {
    pending: BTreeMap<u64, Rule>,
    next: u64,
}

impl Model for Rules {
    ghost use Rattle.tw_types.specs.Rule.{Rule as RuleMeaning};
    ghost use Rattle.std.specs.FinMap.{code};
    ghost use Rattle.std.specs.Ordering.{nat_cmp};
    ghost use Rattle.std.specs.Coded.{codes, coded_ℕ};
    ghost use Rattle.tw_machine.specs.Parts.{rules_of};
    ghost use Rattle.tw_machine.specs.Waiting.{RuleTable};

    ghost Value = { RuleTable };

    ghost coded = { Prim.hlevel (codes, code {X = RuleMeaning} {R = nat_cmp} coded_ℕ (Prim.hlevel codes)) };

    ghost view = { λ r. record { pending = rules_of r.pending.entries; next = r.next } };
}

impl Rules {
    /// Makes the reference machine's table without rules; the first will be rule 1.
    pub fn new(alloc: Global) -> Rules
        ensures { result ≡ record { pending = empty; next = 1 } }
    {
        Rules {
            pending: BTreeMap::new(alloc),
            next: 1,
        }
    }

    /// Returns the reference machine's pending rules, by their numbers.
    pub fn pending(&self) -> &BTreeMap<u64, Rule>
        ensures { rules_of result.now.entries ≡ self.now.pending }
    {
        &self.pending
    }

    /// Returns the number of pending rules of the reference machine.
    pub fn len(&self) -> u64
        ensures { result ≡ len self.now.pending }
    {
        self.pending.len() as u64
    }

    /// Returns the reference machine's pending rule of this number.
    pub fn get(&self, number: RuleNo) -> Option<&Rule>
        ensures { option_copied result ≡ get self.now.pending number }
    {
        self.pending.get(&number.number())
    }

    /// Adds a rule to the reference machine's table, with the next number.
    pub fn add(&mut self, rule: Rule) -> Result<(), AllocError>
        requires { self.old.next < 2 ^ 63 }
        ensures added { OnOk result (self.new ≡ rule_made self.old rule) }
        ensures refused { OnErr result (self.new ≡ self.old) }
    {
        self.pending.insert(self.next, rule)?;
        self.next += 1;
        Ok(())
    }

    /// Removes a rule from the reference machine's table.
    pub fn remove(&mut self, number: RuleNo)
        ensures { self.new ≡ rule_released self.old number }
    {
        let _released = self.pending.remove(&number.number());
    }

    /// Changes the stage of a rule's parameter in the reference machine's table, if the rule is pending.
    pub fn set_stage(&mut self, number: RuleNo, parameter: u8, stage: Stage)
        ensures { self.new ≡ staged self.old number parameter stage }
    {
        let Some(rule) = self.pending.get_mut(&number.number()) else {
            return;
        };
        rule.set_stage(parameter, stage);
    }

    /// Returns whether none of the reference machine's rules has an unasked parameter or can be released.
    pub fn are_idle(&self) -> bool
        ensures { result ≡ (not (list_any has_unasked (values self.now.pending)) && not (list_any is_releasable (values self.now.pending))) }
    {
        let has_unasked = has_unasked(&self.pending);
        let has_releasable = has_releasable(&self.pending);
        neither(has_unasked, has_releasable)
    }
}

/// Returns whether none of two conditions holds: unasked parameters, and rules that can be released.
fn neither(first: bool, second: bool) -> bool
    ensures { result ≡ (not first && not second) }
{
    !first && !second
}

/// Returns whether any of the reference machine's pending rules has an unasked parameter.
fn has_unasked(rules: &BTreeMap<u64, Rule>) -> bool
    ensures is { result ≡ list_any has_unasked (map (λ e. e.1) rules.now.entries) }
    ensures sorted { IsStrictlySortedBy nat_cmp (keys_of rules.now.entries) }
{
    for (_, rule) in rules {
        if rule.has_unasked() {
            return true;
        }
    }
    false
}

/// Returns whether any of the reference machine's pending rules can be released.
fn has_releasable(rules: &BTreeMap<u64, Rule>) -> bool
    ensures { result ≡ list_any is_releasable (map (λ e. e.1) rules.now.entries) }
{
    for (_, rule) in rules {
        if rule.is_releasable() {
            return true;
        }
    }
    false
}
