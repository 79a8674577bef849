//! A balanced tree of the entries of a sorted list. If an allocation fails, the list is as it was.

ghost use Rattle.std.specs.Prelude.{◌≡◌, ◌+◌, ◌≤◌, ◌++◌, OnErr, OnOk, IfOk, length};
ghost use Rattle.std.specs.Vec.{vec_capacity, vec_len};
ghost use Rattle.tw_datum.specs.Tree.{IsRight, in_fork};

use crate::tree::{Fork, Tree};
use std::alloc::{AllocError, Global};
use tw_types::Value;

impl<V: Drop> Tree<V> {
    /// Moves the entries of a balanced tree to the end of a list that has room for them.
    fn pour(self, run: &mut Vec<(Value, V)>)
        requires { vec_len run.old + length self ≤ vec_capacity run.old }
        ensures items { run.new.items ≡ run.old.items ++ self }
        ensures capacity { vec_capacity run.new ≡ vec_capacity run.old }
    {
        let Tree { root } = self;
        if let Some(fork) = root {
            let Fork {
                before,
                own,
                len: _,
                after,
            } = Box::into_inner(fork);
            before.pour(run);
            run.push_reserved(own);
            after.pour(run);
        }
    }

    /// Makes a balanced tree with this node at its root. If the allocation fails, moves all entries to the end of a list that has room for
    /// them.
    fn planted(
        alloc: Global,
        run: &mut Vec<(Value, V)>,
        fork: Fork<V>,
    ) -> Result<Tree<V>, AllocError>
        requires right { IsRight fork }
        requires room { vec_len run.old + length (in_fork fork) ≤ vec_capacity run.old }
        ensures planted { IfOk result (λ tree. tree ≡ in_fork fork) }
        ensures kept { OnOk result (run.new.items ≡ run.old.items) }
        ensures refused { OnErr result (run.new.items ≡ run.old.items ++ in_fork fork) }
        ensures capacity { vec_capacity run.new ≡ vec_capacity run.old }
    {
        match Box::new(alloc, fork) {
            Ok(fork) => Ok(Tree::of(fork)),
            Err(refused) => {
                refused.value.pour(run);
                Err(AllocError)
            }
        }
    }

    /// Moves the last `count` entries of a list to a balanced tree. If an allocation fails, all are in the list as before.
    fn build(alloc: Global, run: &mut Vec<(Value, V)>, count: usize) -> Result<Tree<V>, AllocError>
        requires { count ≤ vec_len run.old }
        ensures built { IfOk result (λ tree. (run.old.items ≡ run.new.items ++ tree) × (length tree ≡ count)) }
        ensures refused { OnErr result (run.new.items ≡ run.old.items) }
        ensures capacity { vec_capacity run.new ≡ vec_capacity run.old }
    {
        if count == 0 {
            return Ok(Tree::new());
        }
        let after = Tree::build(alloc, run, count / 2)?;
        let own = run.take_last();
        match Tree::build(alloc, run, count - count / 2 - 1) {
            Ok(before) => Tree::planted(
                alloc,
                run,
                Fork {
                    before,
                    own,
                    len: count,
                    after,
                },
            ),
            Err(refused) => {
                run.push_reserved(own);
                after.pour(run);
                Err(refused)
            }
        }
    }

    /// Moves the entries of a list to a balanced tree. If an allocation fails, all are in the list as before.
    pub(crate) fn built(alloc: Global, run: &mut Vec<(Value, V)>) -> Result<Tree<V>, AllocError>
        ensures built { IfOk result (λ tree. tree ≡ run.old.items) }
        ensures refused { OnErr result (run.new.items ≡ run.old.items) }
    {
        let count = run.len();
        Tree::build(alloc, run, count)
    }
}

impl<V: Drop> Fork<V> {
    /// Moves the entries of a node to the end of a list that has room for them.
    fn pour(self, run: &mut Vec<(Value, V)>)
        requires { vec_len run.old + length (in_fork self) ≤ vec_capacity run.old }
        ensures items { run.new.items ≡ run.old.items ++ in_fork self }
        ensures capacity { vec_capacity run.new ≡ vec_capacity run.old }
    {
        let Fork {
            before,
            own,
            len: _,
            after,
        } = self;
        before.pour(run);
        run.push_reserved(own);
        after.pour(run);
    }
}
