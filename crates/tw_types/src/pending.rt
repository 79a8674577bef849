//! Pending rules, and which of them wait for which.

use crate::ids::{DatumId, RuleNo};
use crate::items::Items;

/// A pending rule: the data for which its parameters wait, and the data of its `write` arguments, each by rising parameter.
#[derive(Drop)]
pub struct Pending {
    pub number: RuleNo,
    pub waits: Items<DatumId>,
    pub writes: Items<DatumId>,
}

/// A link of a deadlock circle: a rule, a datum for which it waits, and a rule that may write that datum.
#[derive(Clone, Copy, PartialEq, Eq)]
pub struct Link {
    pub rule: RuleNo,
    pub datum: DatumId,
    pub next: RuleNo,
}
