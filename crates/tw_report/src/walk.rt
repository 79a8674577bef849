//! The walk from rule to rule.

ghost use Rattle.std.specs.Prelude.{◌≡◌, ◌+◌, ℕ, IfOk, IfSome, OnOk, Some, if◌then◌else◌, option_map, slice_get};
ghost use Rattle.std.specs.BTreeMap.{get};
ghost use Rattle.std.specs.Option.{option_and_then, option_copied};
ghost use Rattle.std.specs.Ordering.{nat_cmp};
ghost use Rattle.tw_types.specs.Circle.{circle_of, since, step_from, writer_of};
ghost use Rattle.tw_types.specs.Distinct.{is_among};

use std::alloc::{AllocError, Global};
use std::collections::{BTreeMap, BTreeSet};
use tw_types::{DatumId, Link, Pending, RuleNo};

/// Makes this rule the writer of each of these data, in place of a later one.
fn put_writer(
    found: &mut BTreeMap<u64, usize>,
    ids: &[DatumId],
    index: usize,
) -> Result<(), AllocError>
    ensures { OnOk result ((n : ℕ) → get nat_cmp found.new n ≡ (if is_among n ids.now then Some index else get nat_cmp found.old n)) }
{
    for datum in ids {
        found.insert(datum.number(), index)?;
    }
    Ok(())
}

/// Returns the index of the first rule that may write a datum, by the datum's number. Adds the rules from the last to the first, so
/// that the first stays.
fn first_writers(alloc: Global, rules: &[Pending]) -> Result<BTreeMap<u64, usize>, AllocError>
    ensures { IfOk result (λ found. (n : ℕ) → option_and_then (slice_get rules.now) (get nat_cmp found n) ≡ writer_of n rules.now) }
{
    let mut found = BTreeMap::new(alloc);
    for done in 0..rules.len() {
        let index = rules.len() - 1 - done;
        put_writer(&mut found, rules[index].writes.as_slice(), index)?;
    }
    Ok(found)
}

/// Returns the first of the rules that may write the datum.
fn writer_of<'a>(
    datum: DatumId,
    rules: &'a [Pending],
    writers: &BTreeMap<u64, usize>,
) -> Option<&'a Pending>
    requires { (n : ℕ) → option_and_then (slice_get rules.now) (get nat_cmp writers.now n) ≡ writer_of n rules.now }
    ensures { option_copied result ≡ writer_of datum rules.now }
{
    match writers.get(&datum.number()) {
        Some(index) => rules.get(*index),
        None => None,
    }
}

/// Returns the link by which the walk continues from a rule, and the rule to which it leads.
fn step_from<'a>(
    at: &Pending,
    rules: &'a [Pending],
    writers: &BTreeMap<u64, usize>,
) -> Option<(Link, &'a Pending)>
    requires { (n : ℕ) → option_and_then (slice_get rules.now) (get nat_cmp writers.now n) ≡ writer_of n rules.now }
    ensures is { option_map (λ s. (s.0, s.1.now)) result ≡ step_from rules.now at.now }
    ensures rule { IfSome result (λ s. s.0.rule ≡ at.now.number) }
{
    let datum = *at.waits.as_slice().first()?;
    let next = writer_of(datum, rules, writers)?;
    let link = Link {
        rule: at.number,
        datum,
        next: next.number,
    };
    Some((link, next))
}

/// Returns the trail from the first link of the rule on.
fn since(rule: RuleNo, trail: &[Link]) -> &[Link]
    ensures { result.now ≡ since rule trail.now }
{
    for index in 0..trail.len() {
        if trail[index].rule == rule {
            return &trail[index..];
        }
    }
    &[]
}

/// Returns the circle of a walk that has made this trail and is at a rule that was met.
fn closed(alloc: Global, rule: RuleNo, trail: &[Link]) -> Result<Option<Vec<Link>>, AllocError>
    ensures { IfOk result (λ found. option_map (λ v. v.items) found ≡ Some (since rule trail.now)) }
{
    let mut circle = Vec::new(alloc);
    circle.extend_from_slice(since(rule, trail))?;
    Ok(Some(circle))
}

/// Returns the circle at the end of the walk from the first rule, if there is one.
pub fn circle_of(alloc: Global, rules: &[Pending]) -> Result<Option<Vec<Link>>, AllocError>
    ensures { IfOk result (λ found. option_map (λ v. v.items) found ≡ circle_of rules.now) }
{
    let Some(first) = rules.first() else {
        return Ok(None);
    };
    let writers = first_writers(alloc, rules)?;
    let mut met = BTreeSet::new(alloc);
    let mut trail = Vec::new(alloc);
    let mut at = first;
    for _step in 0..rules.len() {
        if met.contains(&at.number.number()) {
            return closed(alloc, at.number, &trail);
        }
        let Some((link, next)) = step_from(at, rules, &writers) else {
            return Ok(None);
        };
        met.insert(at.number.number())?;
        trail.push(link)?;
        at = next;
    }
    if met.contains(&at.number.number()) {
        closed(alloc, at.number, &trail)
    } else {
        Ok(None)
    }
}
