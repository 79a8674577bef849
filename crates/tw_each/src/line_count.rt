//! How many lines are answered.

use std::sync::atomic::{AtomicBool, AtomicU64, Ordering};

/// Counts the answered lines, for whoever monitors the threads that answer them. No answer depends on it.
#[derive(Drop)]
pub struct LineCount {
    answered: AtomicU64,
    is_over: AtomicBool,
}

impl LineCount {
    /// Makes a count of no lines.
    pub fn new() -> LineCount {
        LineCount {
            answered: AtomicU64::new(0),
            is_over: AtomicBool::new(false),
        }
    }

    /// Publishes that this line is answered. An empty one, as after the last line feed, doesn't count.
    pub fn add(&self, line: &[u8]) {
        let lines = u64::from(!line.is_empty());
        self.answered.fetch_add(lines, Ordering::SeqCst);
    }

    /// Publishes that no more lines are answered.
    pub fn end(&self) {
        self.is_over.store(true, Ordering::SeqCst);
    }

    /// Returns a recent number, or `None` once no more lines are answered.
    pub fn so_far(&self) -> Option<u64> {
        if self.is_over.load(Ordering::SeqCst) {
            return None;
        }
        Some(self.answered.load(Ordering::SeqCst))
    }
}
