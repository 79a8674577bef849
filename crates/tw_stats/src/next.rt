//! The numbers that the next task and the next rule get.

use crate::dependency::Dependency;
use tw_types::{RuleNo, TaskNo};

/// The numbers of the next task and of the next rule.
#[derive(Clone, Copy)]
pub struct Next {
    task: u64,
    rule: u64,
}

impl Next {
    /// Returns the numbers at an opening, when main is put and no rule is made.
    pub fn first() -> Next {
        Next { task: 2, rule: 1 }
    }

    /// Returns the number of the next task.
    pub fn task(self) -> TaskNo {
        TaskNo::new(self.task)
    }

    /// Returns the number of the next rule.
    pub fn rule(self) -> RuleNo {
        RuleNo::new(self.rule)
    }

    /// Advances past an event that makes this.
    pub fn advance_past(&mut self, made: &Option<Dependency>) {
        match made {
            Some(Dependency::Task(_)) => self.task = self.task.saturating_add(1),
            Some(Dependency::Rule(_)) => self.rule = self.rule.saturating_add(1),
            Some(Dependency::Answer(_) | Dependency::Datum(_)) | None => {}
        }
    }
}
