//! Progress of a run, readable without the lock.

use crossbeam_utils::CachePadded;
use std::sync::atomic::{AtomicBool, AtomicU64, Ordering};

/// Publishes how many events there are and whether the run is over. Only threads that hold or held the lock write it. No decision
/// depends on it.
#[derive(Drop)]
pub(crate) struct RunProgress {
    events: CachePadded<AtomicU64>,
    is_over: CachePadded<AtomicBool>,
}

impl RunProgress {
    /// Makes the published progress of a run without events that isn't over.
    pub(crate) fn new() -> RunProgress {
        RunProgress {
            events: CachePadded::new(AtomicU64::new(0)),
            is_over: CachePadded::new(AtomicBool::new(false)),
        }
    }

    /// Publishes the number of a run's events.
    pub(crate) fn set_events(&self, events: usize) {
        self.events.store(events as u64, Ordering::SeqCst);
    }

    /// Publishes that a run on the host is over.
    pub(crate) fn end(&self) {
        self.is_over.store(true, Ordering::SeqCst);
    }

    /// Returns whether it was published that a run on the host is over.
    pub(crate) fn is_over(&self) -> bool {
        self.is_over.load(Ordering::SeqCst)
    }

    /// Returns a published number of a run's events, or `None` once the run is over.
    pub(crate) fn events(&self) -> Option<u64> {
        if self.is_over() {
            return None;
        }
        Some(self.events.load(Ordering::SeqCst))
    }
}
