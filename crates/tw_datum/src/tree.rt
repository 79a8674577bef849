//! A search tree of entries by their keys. Each node has the number of its entries. Neither side of a node is more than
//! three times as heavy as the other, where a side's weight is one more than its number of entries (after Nievergelt and Reingold,
//! 1973). So finding a key or an index takes a logarithmic number of steps.

ghost use Rattle.std.specs.Prelude.{◌≡◌, ◌+◌, ◌-◌, ◌*◌, ◌^◌, ◌<◌, ◌≤◌, [], ◌∷◌, ◌++◌, length, slice_get, OnOk, OnErr, T};
ghost use Rattle.std.specs.FinMap.{find, put, is_sorted};
ghost use Rattle.std.specs.Option.{option_copied};
ghost use Rattle.tw_types.specs.ValueOrder.{named, value_cmp};
ghost use Rattle.tw_types.specs.Value.{IsProper};
ghost use Rattle.tw_datum.specs.Tree.{AreEven, AreNearlyEven, IsRight, in_fork, IsAdded};

use std::alloc::{AllocError, Global};
use std::cmp::Ordering;
use std::marker::Model;
use std::mem;
use tw_types::{Value, ValueRef};

/// Entries with distinct keys, in order.
#[cycle(tree)]
#[derive(Drop)]
pub struct Tree<V> {
    pub(crate) root: Option<Box<Fork<V>>>,
}

/// One entry between those before and after it, with the number of them all.
#[cycle(tree)]
#[derive(Drop)]
pub(crate) struct Fork<V> {
    pub(crate) before: Tree<V>,
    pub(crate) own: (Value, V),
    pub(crate) len: usize,
    pub(crate) after: Tree<V>,
}

impl<V> Model for Tree<V> {
    ghost use Rattle.std.specs.Prelude.{List, length};
    ghost use Rattle.tw_types.specs.ValueOrder.{Subscript};

    ghost Value = { List (Subscript × V) };

    ghost use Rattle.tw_datum.specs.Tree.{seen, IsBalanced};

    ghost view = { λ t. seen t.root };

    ghost invariant = { λ t. IsBalanced t.root };

    ghost size = { length };

    ghost use Rattle.std.proofs.Common.{arith, length-append};

    ghost size_decreases = { λ t h. Prim.grind (arith, length-append) };
}

impl<V: Drop> Tree<V> {
    /// Makes an empty balanced tree.
    pub fn new() -> Tree<V>
        ensures { result ≡ [] }
    {
        Tree { root: None }
    }

    /// Returns the number of entries of a balanced tree.
    pub fn len(&self) -> usize
        ensures { result ≡ length self.now }
    {
        match &self.root {
            None => 0,
            Some(fork) => fork.len,
        }
    }

    /// Returns the value at a key of a balanced tree.
    pub fn get(&self, key: ValueRef<'_>) -> Option<&V>
        ensures { T (is_sorted value_cmp self.now) → option_copied result ≡ find value_cmp (named key.entry) self.now }
    {
        match &self.root {
            None => None,
            Some(fork) => {
                let fork = &**fork;
                match key.compare(&fork.own.0) {
                    Ordering::Less => fork.before.get(key),
                    Ordering::Equal => Some(&fork.own.1),
                    Ordering::Greater => fork.after.get(key),
                }
            }
        }
    }

    /// Returns the entry of a balanced tree with `index` smaller keys.
    pub fn nth(&self, index: usize) -> Option<&(Value, V)>
        ensures { option_copied result ≡ slice_get self.now index }
    {
        match &self.root {
            None => None,
            Some(fork) => {
                let fork = &**fork;
                let place = fork.before.len();
                match index.cmp(&place) {
                    Ordering::Less => fork.before.nth(index),
                    Ordering::Equal => Some(&fork.own),
                    Ordering::Greater => fork.after.nth(index - place - 1),
                }
            }
        }
    }

    /// Inserts a value into a balanced tree at a copy of the key, unless one is there. Returns whether none was.
    pub fn add(&mut self, alloc: Global, key: ValueRef<'_>, value: V) -> Result<bool, AllocError>
        requires room { length self.old < 2 ^ 64 - 1 }
        requires proper { IsProper (named key) }
        ensures { IsAdded result (named key.entry) value self.old self.new }
    {
        match &mut self.root {
            None => {
                let own = key.try_to_value(alloc)?;
                let fork = Box::new(
                    alloc,
                    Fork {
                        before: Tree::new(),
                        own: (own, value),
                        len: 1,
                        after: Tree::new(),
                    },
                )?;
                self.root = Some(fork);
                Ok(true)
            }
            Some(fork) => {
                let fork = &mut **fork;
                match key.compare(&fork.own.0) {
                    Ordering::Less => {
                        if !fork.before.add(alloc, key, value)? {
                            return Ok(false);
                        }
                        fork.even_out();
                        Ok(true)
                    }
                    Ordering::Equal => Ok(false),
                    Ordering::Greater => {
                        if !fork.after.add(alloc, key, value)? {
                            return Ok(false);
                        }
                        fork.even_out();
                        Ok(true)
                    }
                }
            }
        }
    }

    /// Inserts a value at a key of a balanced tree, in place of one that is there.
    pub fn insert(&mut self, alloc: Global, key: Value, value: V) -> Result<(), AllocError>
        requires room { length self.old < 2 ^ 64 - 1 }
        ensures added { OnOk result (T (is_sorted value_cmp self.old) → self.new ≡ put value_cmp key value self.old) }
        ensures refused { OnErr result (self.new ≡ self.old) }
        ensures not_shorter { length self.old ≤ length self.new }
        ensures one_longer_at_most { length self.new ≤ length self.old + 1 }
    {
        match &mut self.root {
            None => {
                let fork = Box::new(
                    alloc,
                    Fork {
                        before: Tree::new(),
                        own: (key, value),
                        len: 1,
                        after: Tree::new(),
                    },
                )?;
                self.root = Some(fork);
                Ok(())
            }
            Some(fork) => {
                let fork = &mut **fork;
                match key.borrowed().compare(&fork.own.0) {
                    Ordering::Less => {
                        fork.before.insert(alloc, key, value)?;
                        fork.even_out();
                        Ok(())
                    }
                    Ordering::Equal => {
                        fork.own.1 = value;
                        Ok(())
                    }
                    Ordering::Greater => {
                        fork.after.insert(alloc, key, value)?;
                        fork.even_out();
                        Ok(())
                    }
                }
            }
        }
    }
}

impl<V: Drop> Tree<V> {
    /// Makes a balanced tree with this node at its root.
    pub(crate) fn of(fork: Box<Fork<V>>) -> Tree<V>
        requires { IsRight fork.value }
        ensures { result ≡ in_fork fork.value }
    {
        Tree { root: Some(fork) }
    }

    /// Takes the root node out of a balanced tree, which is empty then.
    fn take(&mut self) -> Box<Fork<V>>
        requires { 0 < length self.old }
        ensures entries { self.old ≡ in_fork result.value }
        ensures right { IsRight result.value }
        ensures len { length self.old ≡ length result.value.before + length result.value.after + 1 }
    {
        let Some(fork) = self.root.take() else {
            unreachable!()
        };
        fork
    }
}

impl<V: Drop> Fork<V> {
    /// Corrects a node's number of entries and balances its sides, one of which may have one entry too many.
    fn even_out(&mut self)
        requires room { length self.old.before + length self.old.after < 2 ^ 64 - 1 }
        requires near { AreNearlyEven (length self.old.before) (length self.old.after) }
        ensures entries { in_fork self.new ≡ in_fork self.old }
        ensures right { IsRight self.new }
        ensures len { self.new.len ≡ length self.old.before + length self.old.after + 1 }
    {
        let (left, right) = (self.before.len(), self.after.len());
        self.len = left + right + 1;
        if left / 3 > right {
            self.turn_right();
        } else if right / 3 > left {
            self.turn_left();
        }
    }

    /// Rotates a node of a tree to the right, if its left side is too heavy.
    #[inline(never)]
    fn turn_right(&mut self)
        requires room { length self.old.before + length self.old.after < 2 ^ 64 - 1 }
        requires heavy { length self.old.before ≡ 3 * (length self.old.after + 1) }
        requires len { self.old.len ≡ length self.old.before + length self.old.after + 1 }
        ensures entries { in_fork self.new ≡ in_fork self.old }
        ensures right { IsRight self.new }
        ensures len { self.new.len ≡ self.old.len }
    {
        let mut left = self.before.take();
        if left.after.len() / 2 <= left.before.len() {
            single_right(self, &mut left);
            self.after = Tree::of(left);
        } else {
            let mut inner = left.after.take();
            double_right(self, &mut left, &mut inner);
            self.before = Tree::of(left);
            self.after = Tree::of(inner);
        }
    }

    /// Rotates a node of a tree to the left, if its right side is too heavy.
    #[inline(never)]
    fn turn_left(&mut self)
        requires room { length self.old.before + length self.old.after < 2 ^ 64 - 1 }
        requires heavy { length self.old.after ≡ 3 * (length self.old.before + 1) }
        requires len { self.old.len ≡ length self.old.before + length self.old.after + 1 }
        ensures entries { in_fork self.new ≡ in_fork self.old }
        ensures right { IsRight self.new }
        ensures len { self.new.len ≡ self.old.len }
    {
        let mut right = self.after.take();
        if right.before.len() / 2 <= right.after.len() {
            single_left(self, &mut right);
            self.before = Tree::of(right);
        } else {
            let mut inner = right.before.take();
            double_left(self, &mut right, &mut inner);
            self.after = Tree::of(right);
            self.before = Tree::of(inner);
        }
    }
}

/// Makes the left entry the root's own. The root's old entry moves to the left node, with the entries after it.
fn single_right<V: Drop>(whole: &mut Fork<V>, left: &mut Fork<V>)
    requires room { length left.old.after + length whole.old.after < 2 ^ 64 - 1 }
    ensures before { whole.new.before ≡ left.old.before }
    ensures own { whole.new.own ≡ left.old.own }
    ensures len { whole.new.len ≡ whole.old.len }
    ensures left_before { left.new.before ≡ left.old.after }
    ensures left_own { left.new.own ≡ whole.old.own }
    ensures left_after { left.new.after ≡ whole.old.after }
    ensures left_len { left.new.len ≡ length left.old.after + length whole.old.after + 1 }
{
    let last = mem::replace(&mut whole.after, Tree::new());
    let middle = mem::replace(&mut left.after, last);
    whole.before = mem::replace(&mut left.before, middle);
    mem::swap(&mut whole.own, &mut left.own);
    left.len = left.before.len() + left.after.len() + 1;
}

/// Makes the right entry the root's own. The root's old entry moves to the right node, with the entries before it.
fn single_left<V: Drop>(whole: &mut Fork<V>, right: &mut Fork<V>)
    requires room { length whole.old.before + length right.old.before < 2 ^ 64 - 1 }
    ensures after { whole.new.after ≡ right.old.after }
    ensures own { whole.new.own ≡ right.old.own }
    ensures len { whole.new.len ≡ whole.old.len }
    ensures right_before { right.new.before ≡ whole.old.before }
    ensures right_own { right.new.own ≡ whole.old.own }
    ensures right_after { right.new.after ≡ right.old.before }
    ensures right_len { right.new.len ≡ length whole.old.before + length right.old.before + 1 }
{
    let first = mem::replace(&mut whole.before, Tree::new());
    let middle = mem::replace(&mut right.before, first);
    whole.after = mem::replace(&mut right.after, middle);
    mem::swap(&mut whole.own, &mut right.own);
    right.len = right.before.len() + right.after.len() + 1;
}

/// Makes the inner entry the root's own. Its sides move to the left node and to that of the root's old entry.
fn double_right<V: Drop>(whole: &mut Fork<V>, left: &mut Fork<V>, inner: &mut Fork<V>)
    requires room { length inner.old.after + length whole.old.after < 2 ^ 64 - 1 }
    requires left_room { length left.old.before + length inner.old.before < 2 ^ 64 - 1 }
    ensures own { whole.new.own ≡ inner.old.own }
    ensures len { whole.new.len ≡ whole.old.len }
    ensures left_before { left.new.before ≡ left.old.before }
    ensures left_own { left.new.own ≡ left.old.own }
    ensures left_after { left.new.after ≡ inner.old.before }
    ensures left_len { left.new.len ≡ length left.old.before + length inner.old.before + 1 }
    ensures inner_before { inner.new.before ≡ inner.old.after }
    ensures inner_own { inner.new.own ≡ whole.old.own }
    ensures inner_after { inner.new.after ≡ whole.old.after }
    ensures inner_len { inner.new.len ≡ length inner.old.after + length whole.old.after + 1 }
{
    let last = mem::replace(&mut whole.after, Tree::new());
    let third = mem::replace(&mut inner.after, last);
    left.after = mem::replace(&mut inner.before, third);
    mem::swap(&mut whole.own, &mut inner.own);
    left.len = left.before.len() + left.after.len() + 1;
    inner.len = inner.before.len() + inner.after.len() + 1;
}

/// Makes the inner entry the root's own. Its sides move to the node of the root's old entry and to the right node.
fn double_left<V: Drop>(whole: &mut Fork<V>, right: &mut Fork<V>, inner: &mut Fork<V>)
    requires room { length whole.old.before + length inner.old.before < 2 ^ 64 - 1 }
    requires right_room { length inner.old.after + length right.old.after < 2 ^ 64 - 1 }
    ensures own { whole.new.own ≡ inner.old.own }
    ensures len { whole.new.len ≡ whole.old.len }
    ensures right_before { right.new.before ≡ inner.old.after }
    ensures right_own { right.new.own ≡ right.old.own }
    ensures right_after { right.new.after ≡ right.old.after }
    ensures right_len { right.new.len ≡ length inner.old.after + length right.old.after + 1 }
    ensures inner_before { inner.new.before ≡ whole.old.before }
    ensures inner_own { inner.new.own ≡ whole.old.own }
    ensures inner_after { inner.new.after ≡ inner.old.before }
    ensures inner_len { inner.new.len ≡ length whole.old.before + length inner.old.before + 1 }
{
    let first = mem::replace(&mut whole.before, Tree::new());
    let second = mem::replace(&mut inner.before, first);
    right.before = mem::replace(&mut inner.after, second);
    mem::swap(&mut whole.own, &mut inner.own);
    right.len = right.before.len() + right.after.len() + 1;
    inner.len = inner.before.len() + inner.after.len() + 1;
}
