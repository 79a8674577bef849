//! Progress of the lines of `--each`.

use tw_each::LineCount;
use tw_workers::{Progress, SoFar};

/// Shows an observer how many lines are answered.
#[derive(Clone, Copy)]
pub struct LineProgress<'a> {
    pub count: &'a LineCount,
}

impl<'a> Progress for LineProgress<'a> {
    fn so_far(&self) -> Option<SoFar> {
        Some(SoFar::Lines(self.count.so_far()?))
    }
}
