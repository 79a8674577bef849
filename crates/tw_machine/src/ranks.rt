//! The ranks of the waiting tasks.

ghost use Rattle.std.specs.Prelude.{◌≡◌, ℕ, ◌||◌, Option, None, Some, false, true, IfOk, OnErr, OnOk};
ghost use Rattle.std.specs.BTreeMap.{get};
ghost use Rattle.std.specs.BTreeSet.{IsUnchanged, contains};
ghost use Rattle.std.specs.Ordering.{eq_by_cmp};
ghost use Rattle.tw_types.specs.declared.actor.Kind.{Kind as AKind};
ghost use Rattle.tw_machine.specs.declared.rank.Rank.{Rank as ARank};
ghost use Rattle.tw_machine.specs.Rank.{rank_cmp};
ghost use Rattle.tw_machine.specs.Ranking.{AreSame, AreSameIn, IsLeast, IsMarked, IsMarkedAt, IsMarkedIn, has_rank, has_rank_at, is_offered, target_cmp};

use crate::rank::Rank;
use std::alloc::{AllocError, Global};
use std::collections::{BTreeMap, BTreeSet};
use tw_types::{Actor, Kind};

/// The ranks of the waiting tasks of each kind, in a set for each target, and in one for tasks without a target.
#[derive(Drop)]
pub struct Ranks {
    control: BTreeMap<Option<u8>, BTreeSet<Rank>>,
    leaf: BTreeMap<Option<u8>, BTreeSet<Rank>>,
}

impl Ranks {
    /// Makes the reference machine's ranks of waiting tasks, without any.
    pub fn new(alloc: Global) -> Ranks
        ensures { (kind : AKind) (target : Option ℕ) (rank : ARank) → has_rank result kind target rank ≡ false }
    {
        Ranks {
            control: BTreeMap::new(alloc),
            leaf: BTreeMap::new(alloc),
        }
    }

    /// Adds the rank of a waiting task of this kind and target to the reference machine's.
    pub fn add(
        &mut self,
        alloc: Global,
        kind: Kind,
        target: Option<u8>,
        rank: Rank,
    ) -> Result<(), AllocError>
        ensures added { OnOk result (IsMarked kind target rank true self.old self.new) }
        ensures refused { OnErr result (AreSame self.old self.new) }
    {
        match kind {
            Kind::Control => add_at(alloc, &mut self.control, target, rank),
            Kind::Leaf => add_at(alloc, &mut self.leaf, target, rank),
        }
    }

    /// Removes the rank of a waiting task of this kind and target from the reference machine's.
    pub fn remove(&mut self, kind: Kind, target: Option<u8>, rank: Rank)
        ensures { IsMarked kind target rank false self.old self.new }
    {
        match kind {
            Kind::Control => remove_at(&mut self.control, target, rank),
            Kind::Leaf => remove_at(&mut self.leaf, target, rank),
        }
    }

    /// Returns the first of the reference machine's ranks of the tasks that the actor may take.
    pub fn first(&self, actor: Actor) -> Option<Rank>
        ensures { IsLeast (is_offered self.now actor) result }
    {
        match actor {
            Actor::Engine(number) => first_for(&self.control, number),
            Actor::Worker(number) => first_for(&self.leaf, number),
            Actor::Server(_) => None,
        }
    }
}

/// Adds the rank of a waiting task to the set of its target, which is made if there is none.
fn add_at(
    alloc: Global,
    sets: &mut BTreeMap<Option<u8>, BTreeSet<Rank>>,
    target: Option<u8>,
    rank: Rank,
) -> Result<(), AllocError>
    ensures added { OnOk result (IsMarkedAt target rank true sets.old sets.new) }
    ensures refused { OnErr result (AreSameIn sets.old sets.new) }
{
    let Some(set) = sets.get_mut(&target) else {
        return add_set(alloc, sets, target, rank);
    };
    add_in(set, rank)
}

/// Adds a set with a rank for a target that has none.
fn add_set(
    alloc: Global,
    sets: &mut BTreeMap<Option<u8>, BTreeSet<Rank>>,
    target: Option<u8>,
    rank: Rank,
) -> Result<(), AllocError>
    requires { get target_cmp sets.old target ≡ None }
    ensures added { OnOk result (IsMarkedAt target rank true sets.old sets.new) }
    ensures refused { OnErr result (AreSameIn sets.old sets.new) }
{
    let set = single(alloc, rank)?;
    sets.insert(target, set)?;
    Ok(())
}

/// Makes a set with one rank of a waiting task.
fn single(alloc: Global, rank: Rank) -> Result<BTreeSet<Rank>, AllocError>
    ensures { IfOk result (λ set. (r : ARank) → contains rank_cmp set r ≡ eq_by_cmp rank_cmp rank r) }
{
    let mut set = BTreeSet::new(alloc);
    set.insert(rank)?;
    Ok(set)
}

/// Removes the rank of a waiting task from the set of its target, if there is one.
fn remove_at(sets: &mut BTreeMap<Option<u8>, BTreeSet<Rank>>, target: Option<u8>, rank: Rank)
    ensures { IsMarkedAt target rank false sets.old sets.new }
{
    let Some(set) = sets.get_mut(&target) else {
        return;
    };
    remove_in(set, rank);
}

/// Adds the rank of a waiting task to a set of ranks.
fn add_in(ranks: &mut BTreeSet<Rank>, rank: Rank) -> Result<(), AllocError>
    ensures added { OnOk result (IsMarkedIn rank true ranks.old ranks.new) }
    ensures refused { OnErr result (IsUnchanged ranks.old ranks.new) }
{
    ranks.insert(rank)?;
    Ok(())
}

/// Removes the rank of a waiting task from a set of ranks.
fn remove_in(ranks: &mut BTreeSet<Rank>, rank: Rank)
    ensures { IsMarkedIn rank false ranks.old ranks.new }
{
    let _there = ranks.remove(&rank);
}

/// Returns the first rank of the tasks for any actor and for that of this number.
fn first_for(sets: &BTreeMap<Option<u8>, BTreeSet<Rank>>, number: u8) -> Option<Rank>
    ensures { IsLeast (λ rank. has_rank_at sets.now None rank || has_rank_at sets.now (Some number) rank) result }
{
    match (first_at(sets, None), first_at(sets, Some(number))) {
        (None, None) => None,
        (Some(any), None) => Some(any),
        (None, Some(own)) => Some(own),
        (Some(any), Some(own)) => { if own < any { Some(own) } else { Some(any) } }
    }
}

/// Returns the first rank of the waiting tasks with this target.
fn first_at(sets: &BTreeMap<Option<u8>, BTreeSet<Rank>>, target: Option<u8>) -> Option<Rank>
    ensures { IsLeast (has_rank_at sets.now target) result }
{
    match sets.get(&target) {
        Some(set) => first_of(set),
        None => None,
    }
}

/// Returns the first rank in a set of waiting tasks' ranks.
fn first_of(set: &BTreeSet<Rank>) -> Option<Rank>
    ensures { IsLeast (contains rank_cmp set.now) result }
{
    match set.first() {
        Some(rank) => Some(*rank),
        None => None,
    }
}
