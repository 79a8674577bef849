//! Entries by their keys: a sorted list while each new key is greater than those before, then a search tree.

ghost use Rattle.std.specs.Prelude.{◌≡◌, ◌-◌, ◌^◌, ◌<◌, [], OnErr, OnOk, T, length, slice_get};
ghost use Rattle.std.specs.FinMap.{find, is_sorted, put};
ghost use Rattle.std.specs.Option.{option_copied};
ghost use Rattle.tw_types.specs.Value.{IsProper};
ghost use Rattle.tw_types.specs.ValueOrder.{named, value_cmp};
ghost use Rattle.tw_datum.specs.Run.{all_in};
ghost use Rattle.tw_datum.specs.Tree.{IsAdded};

use crate::run::{append, is_above, make_room, place_of, value_at};
use crate::tree::Tree;
use std::alloc::{AllocError, Global};
use tw_types::{Value, ValueRef};

/// Entries with distinct keys, in order.
#[derive(Drop)]
pub enum Entries<V> {
    /// All keys came in order.
    Run(Vec<(Value, V)>),
    /// Some key didn't.
    Tree(Tree<V>),
}

impl<V: Drop> Entries<V> {
    /// Makes a list without entries.
    pub fn new(alloc: Global) -> Entries<V>
        ensures { all_in result ≡ [] }
    {
        Entries::Run(Vec::new(alloc))
    }

    /// Returns the number of entries of a list or a tree.
    pub fn len(&self) -> usize
        ensures { result ≡ length (all_in self.now) }
    {
        match self {
            Entries::Run(run) => run.len(),
            Entries::Tree(tree) => tree.len(),
        }
    }

    /// Returns the value at a key in a list or a tree.
    pub fn get(&self, key: ValueRef<'_>) -> Option<&V>
        ensures { T (is_sorted value_cmp (all_in self.now)) → option_copied result ≡ find value_cmp (named key.entry) (all_in self.now) }
    {
        match self {
            Entries::Run(run) => value_at(run.as_slice(), key),
            Entries::Tree(tree) => tree.get(key),
        }
    }

    /// Returns the entry of a list or a tree with `index` smaller keys.
    pub fn nth(&self, index: usize) -> Option<&(Value, V)>
        ensures { option_copied result ≡ slice_get (all_in self.now) index }
    {
        match self {
            Entries::Run(run) => run.get(index),
            Entries::Tree(tree) => tree.nth(index),
        }
    }

    /// Inserts a value into a list or a tree at a copy of the key, unless one is there. Returns whether none was. Moves a list to a tree
    /// before a key that isn't greater than all.
    pub fn add(&mut self, alloc: Global, key: ValueRef<'_>, value: V) -> Result<bool, AllocError>
        requires room { length (all_in self.old) < 2 ^ 64 - 1 }
        requires proper { IsProper (named key) }
        ensures { IsAdded result (named key.entry) value (all_in self.old) (all_in self.new) }
    {
        match self {
            Entries::Run(run) => {
                if is_above(run.as_slice(), key) {
                    return append(alloc, run, key, value);
                }
                if let Some(_) = place_of(run.as_slice(), key) {
                    return Ok(false);
                }
                let mut tree = Tree::built(alloc, run)?;
                let added = tree.add(alloc, key, value);
                *self = Entries::Tree(tree);
                added
            }
            Entries::Tree(tree) => tree.add(alloc, key, value),
        }
    }

    /// Inserts a value at a key of a list or a tree, in place of one that is there. Moves a list to a tree before a new key that isn't
    /// greater than all.
    pub fn insert(&mut self, alloc: Global, key: Value, value: V) -> Result<(), AllocError>
        requires room { length (all_in self.old) < 2 ^ 64 - 1 }
        ensures added { OnOk result (T (is_sorted value_cmp (all_in self.old)) → all_in self.new ≡ put value_cmp key value (all_in self.old)) }
        ensures refused { OnErr result (all_in self.new ≡ all_in self.old) }
    {
        match self {
            Entries::Run(run) => {
                if is_above(run.as_slice(), key.borrowed()) {
                    make_room(run)?;
                    run.push_reserved((key, value));
                    return Ok(());
                }
                if let Some(place) = place_of(run.as_slice(), key.borrowed()) {
                    run[place].1 = value;
                    return Ok(());
                }
                let mut tree = Tree::built(alloc, run)?;
                let done = tree.insert(alloc, key, value);
                *self = Entries::Tree(tree);
                done
            }
            Entries::Tree(tree) => tree.insert(alloc, key, value),
        }
    }
}
