//! Parking of idle actors' threads.

use crossbeam_utils::{Backoff, CachePadded};
use std::alloc::{AllocError, Global};
use std::sync::Wait;
use std::sync::atomic::{AtomicU64, Ordering};
use std::time::Duration;
use tw_types::Layout;

/// How often a thread checks for its unpark before it parks. It spins in between, seven times twice as long as before: for some 3,800
/// pauses of the processor in all, about three times as long as waking a parked thread takes.
const MOST_LOOKS: u32 = 64;

/// After this number of parks in a row a thread parks at once: who would unpark it has no processor while it spins.
const PARKS_IN_A_ROW: u64 = 3;

/// A thread that parks at once spins again each time after this number of parks.
const PARKS_UNTIL_SPIN: u64 = 32;

/// The longest park, in milliseconds. A lost wake delays a run by no more than this.
const LONGEST: u64 = 100;

/// The thread isn't parked and wasn't unparked.
const EMPTY: u64 = 0;

/// The thread was unparked since it parked last.
const NOTIFIED: u64 = 1;

/// The thread is parked.
const PARKED: u64 = 2;

/// Returns how often a thread checks for its unpark after this number of parks in a row.
fn looks_after(parks: u64) -> u32 {
    if parks < PARKS_IN_A_ROW || parks % PARKS_UNTIL_SPIN == 0 {
        MOST_LOOKS
    } else {
        1
    }
}

/// Parks the thread of one actor. An earlier unpark is kept.
#[derive(Drop)]
struct Parker {
    state: AtomicU64,
    /// How often in a row the thread parked since it was last unparked while it spun. Only the thread itself uses it.
    parks: AtomicU64,
    /// How often the thread was unparked.
    unparks: AtomicU64,
}

impl Parker {
    /// Makes a parker for the thread of one actor, which isn't parked and wasn't unparked.
    fn new() -> Parker {
        Parker {
            state: AtomicU64::new(EMPTY),
            parks: AtomicU64::new(0),
            unparks: AtomicU64::new(0),
        }
    }

    /// Replaces the state of a parker if it is `from`. Returns whether it was.
    fn exchange(&self, from: u64, to: u64) -> bool {
        let state = &self.state;
        state
            .compare_exchange(from, to, Ordering::SeqCst, Ordering::SeqCst)
            .is_ok()
    }

    /// Takes the unpark that a parker kept, if there was one.
    fn take(&self) -> bool {
        self.state.load(Ordering::SeqCst) == NOTIFIED && self.exchange(NOTIFIED, EMPTY)
    }

    /// Checks for an unpark at most `looks` times, and spins in between. Returns whether there was one. Never yields the processor, since
    /// on a busy machine that costs a time slice.
    fn spin(&self, looks: u32) -> bool {
        let backoff = Backoff::new();
        for _ in 0..looks {
            if self.take() {
                return true;
            }
            backoff.spin();
        }
        false
    }

    /// Spins and then parks the thread of one actor, until there is an unpark. It may also return without a reason, and does so
    /// after the longest park.
    fn park(&self, rt: &impl Wait) {
        let parks = self.parks.load(Ordering::Relaxed);
        if self.spin(looks_after(parks)) {
            self.parks.store(0, Ordering::Relaxed);
            return;
        }
        self.parks.store(parks.wrapping_add(1), Ordering::Relaxed);
        if self.exchange(EMPTY, PARKED) {
            let longest = Duration::from_millis(LONGEST);
            self.state.park_timeout(rt, PARKED as u32, longest);
        }
        self.state.store(EMPTY, Ordering::SeqCst);
    }

    /// Unparks the thread of one actor. The kernel is called only if it is parked.
    fn unpark(&self) {
        self.unparks.fetch_add(1, Ordering::SeqCst);
        if self.state.swap(NOTIFIED, Ordering::SeqCst) == PARKED {
            self.state.wake_one();
        }
    }
}

/// The parkers of all actors, each at its index in the layout.
#[derive(Drop)]
pub(crate) struct Parkers {
    parkers: Vec<CachePadded<Parker>>,
}

impl Parkers {
    /// Makes the parkers of all actors of a layout, by their indices.
    pub(crate) fn new(alloc: Global, layout: Layout) -> Result<Parkers, AllocError> {
        let count = layout.actor_count();
        let mut parkers = Vec::with_capacity(alloc, count)?;
        for _ in 0..count {
            parkers.push(CachePadded::new(Parker::new()))?;
        }
        Ok(Parkers { parkers })
    }

    /// Parks the thread of the actor at an index until it is unparked, or returns at once if it was since its last park.
    pub(crate) fn park(&self, rt: &impl Wait, index: usize) {
        if let Some(parker) = self.parkers.get(index) {
            parker.park(rt);
        }
    }

    /// Unparks the threads of these actors, one bit for each.
    pub(crate) fn unpark(&self, actors: u64) {
        let mut rest = actors;
        for parker in self.parkers.as_slice() {
            if rest == 0 {
                return;
            }
            if rest & 1 != 0 {
                parker.unpark();
            }
            rest >>= 1;
        }
    }

    /// Returns how many unparks the parkers of all actors made.
    pub(crate) fn unparks(&self) -> u64 {
        let mut unparks = 0_u64;
        for parker in self.parkers.as_slice() {
            unparks = unparks.wrapping_add(parker.unparks.load(Ordering::SeqCst));
        }
        unparks
    }
}
