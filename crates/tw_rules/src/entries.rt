//! The hash map of rules.

ghost use Rattle.std.specs.Prelude.{◌≡◌, ◌≤◌, ◌<◌, ◌+◌, [], IsSome, MatchOption, is_some, option_map, Some, None};
ghost use Rattle.std.specs.FinMap.{get, insert, remove};
ghost use Rattle.std.specs.Option.{option_copied};
ghost use Rattle.std.specs.HashMap.{hash_map_len, spare};
ghost use Rattle.tw_types.specs.Rule.{is_releasable};
ghost use Rattle.tw_rules.specs.Table.{staged};
ghost use Rattle.tw_rules.specs.Entries.{entry_of, rule_in, rules_in};
ghost use Rattle.tw_rules.specs.Indexed.{is_askable};

use crate::pending::Pending;
use std::collections::HashMap;
use tw_types::Stage;

/// Returns whether a rule of this number is in the map of pending rules and has an unasked parameter.
pub fn has_unasked(rules: &HashMap<u64, Pending>, number: u64) -> bool
    ensures { result ≡ is_askable (rules_in rules.now.entries) number }
{
    match rules.get(&number) {
        Some(pending) => pending.has_unasked(),
        None => false,
    }
}

/// Returns whether a rule of this number is in the map of pending rules.
pub fn is_pending(rules: &HashMap<u64, Pending>, number: u64) -> bool
    ensures { result ≡ is_some (get (rules_in rules.now.entries) number) }
{
    rules.contains_key(&number)
}

/// Returns the rule of this number in the map of pending rules.
pub fn find(rules: &HashMap<u64, Pending>, number: u64) -> Option<&Pending>
    ensures { option_map rule_in (option_copied result) ≡ get (rules_in rules.now.entries) number }
{
    rules.get(&number)
}

/// Returns a rule of which is known that it is in the map of pending rules.
pub fn pending(rules: &HashMap<u64, Pending>, number: u64) -> &Pending
    requires { IsSome (get (rules_in rules.now.entries) number) }
    ensures { get (rules_in rules.now.entries) number ≡ Some (rule_in result.now) }
{
    match rules.get(&number) {
        Some(pending) => pending,
        None => unreachable!(),
    }
}

/// Changes the stage of a parameter in the map of pending rules. Returns the rule's engine, and whether the rule is releasable
/// now.
pub fn set_stage(
    rules: &mut HashMap<u64, Pending>,
    number: u64,
    parameter: u8,
    stage: Stage,
) -> (u8, bool)
    requires { IsSome (get (rules_in rules.old.entries) number) }
    ensures staged { rules_in rules.new.entries ≡ staged (rules_in rules.old.entries) number parameter stage }
    ensures engine { option_map (λ rule. rule.engine) (get (rules_in rules.new.entries) number) ≡ Some result.0 }
    ensures releasable { option_map is_releasable (get (rules_in rules.new.entries) number) ≡ Some result.1 }
    ensures len { hash_map_len rules.new ≡ hash_map_len rules.old }
    ensures spare { spare rules.new ≡ spare rules.old }
{
    match rules.get_mut(&number) {
        Some(pending) => {
            pending.stages.set(usize::from(parameter), stage);
            (pending.engine, pending.is_releasable())
        }
        None => unreachable!(),
    }
}

/// Returns any number in the map of pending rules, if it isn't empty.
pub fn first_number(rules: &HashMap<u64, Pending>) -> Option<u64>
    ensures { MatchOption result (rules.now.entries ≡ []) (λ number. IsSome (entry_of rules.now.entries number)) }
{
    rules.keys().next().copied()
}

/// Returns a number in the map of pending rules, if it isn't empty: the least one from `from` on below `next`, else any.
pub fn number_from(rules: &HashMap<u64, Pending>, from: u64, next: u64) -> Option<u64>
    ensures { MatchOption result (rules.now.entries ≡ []) (λ number. IsSome (entry_of rules.now.entries number)) }
{
    let first = first_number(rules)?;
    for number in from..next {
        if rules.contains_key(&number) {
            return Some(number);
        }
    }
    Some(first)
}

/// Adds a rule to the map of pending rules, for which memory is reserved.
pub fn put(rules: &mut HashMap<u64, Pending>, number: u64, rule: Pending)
    requires room { 0 < spare rules.old }
    requires new { get (rules_in rules.old.entries) number ≡ None }
    ensures put { rules_in rules.new.entries ≡ insert (rules_in rules.old.entries) number (rule_in rule) }
    ensures len { hash_map_len rules.new ≡ hash_map_len rules.old + 1 }
{
    match rules.insert(number, rule) {
        Ok(None) => {}
        Ok(Some(_old)) => unreachable!(),
        Err(_refused) => unreachable!(),
    }
}

/// Takes a rule out of the map of pending rules, in which it is.
pub fn take(rules: &mut HashMap<u64, Pending>, number: u64) -> Pending
    requires { IsSome (get (rules_in rules.old.entries) number) }
    ensures taken { get (rules_in rules.old.entries) number ≡ Some (rule_in result) }
    ensures rest { rules_in rules.new.entries ≡ remove (rules_in rules.old.entries) number }
    ensures len { hash_map_len rules.new + 1 ≡ hash_map_len rules.old }
    ensures spare { spare rules.old ≤ spare rules.new }
{
    match rules.remove(&number) {
        Some(rule) => rule,
        None => unreachable!(),
    }
}
