//! The threads that answer lines side by side.

ghost use Rattle.std.specs.Prelude.{◌≡◌, ◌≤◌, ℕ, IfOk, length, max, vec_len};
ghost use Rattle.std.specs.Fork.{AcceptsChunks, GivesChunks};
ghost use Rattle.tw_each.specs.Shares.{AreChunks};

use crate::answer::EachRun;
use crate::line_count::LineCount;
use std::alloc::{AllocError, Global};
use std::cell::Cell;
use std::thread;
use std::thread::Threads;
use tw_order::EachOrder;

/// The right to start threads for lines, at most so many at a time. Its handle is seen in this module alone, so whoever has a team and no handle starts
/// threads by `each_chunk`. What runs in these threads has no team, since none is `Sync`.
#[derive(Drop)]
pub(crate) struct LineTeam<'a, H> {
    rt: &'a H,
    jobs: usize,
    alone: Cell<()>,
}

impl<'a, H> LineTeam<'a, H> {
    /// Makes the team of an order, by the number of threads that this allows.
    pub(crate) fn of(rt: &'a H, order: &EachOrder) -> LineTeam<'a, H>
        ensures { result.jobs ≡ order.now.jobs }
    {
        LineTeam {
            rt,
            jobs: order.jobs,
            alone: Cell::new(()),
        }
    }

    /// Returns the number of threads, at least this one.
    pub(crate) fn size(&self) -> usize
        ensures { result ≡ max 1 self.now.jobs }
    {
        self.jobs.max(1)
    }
}

/// Calls a function at each chunk of items, with how many precede it, each call in a thread of its own, one of them in this thread. Returns the results
/// in the order of the chunks, of which there are at most as many as threads.
pub(crate) fn each_chunk<H, T, X, F>(
    team: &LineTeam<'_, H>,
    alloc: Global,
    items: &[T],
    call: &F,
) -> Result<Vec<X>, AllocError>
where
    H: Threads + Sync,
    T: Sync,
    X: Send + Drop,
    F: Fn(usize, &[T]) -> X + Sync,
    requires accepts { (size : ℕ) → AcceptsChunks F.Fn call.now size items.now }
    ensures few { IfOk result (λ results. vec_len results ≤ max 1 team.now.jobs) }
    ensures each { IfOk result (λ results. (size : ℕ) × AreChunks size (length items.now) (vec_len results) × GivesChunks F.Fn call.now size items.now results.items) }
{
    let size = items.len().div_ceil(team.size()).max(1);
    thread::map_chunks(team.rt, alloc, items, size, call)
}

/// A program that is run on lines, the team that does so, and what it needs.
#[derive(Clone, Copy)]
pub(crate) struct LineCrew<'a, 'b, H, C> {
    pub(crate) team: &'a LineTeam<'a, H>,
    pub(crate) clock: &'a C,
    pub(crate) alloc: Global,
    pub(crate) count: &'a LineCount,
    pub(crate) run: &'a EachRun<'b>,
}
