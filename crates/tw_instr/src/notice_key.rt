//! Notices as keys of a set.

ghost use Rattle.std.specs.Prelude.{◌≡◌};

use std::cmp::Ordering;
use std::marker::Model;
use tw_types::Notice;

/// A notice as the key of a set. Keys are ordered by datum, then by rule, then by parameter.
#[derive(Clone, Copy, PartialEq, Eq)]
pub struct NoticeKey {
    notice: Notice,
}

impl Model for NoticeKey {
    ghost use Rattle.tw_types.specs.declared.notice.Notice.{Notice as Meaning};

    ghost Value = { Meaning };

    ghost view = { λ key. key.notice };

    ghost inverse = { λ notice. record { notice = notice } };
}

impl NoticeKey {
    /// Makes the key by which a notice is sorted in the set of waiting ones.
    pub fn of(notice: Notice) -> NoticeKey
        ensures { result ≡ notice }
    {
        NoticeKey { notice }
    }

    /// Returns the notice whose key it is.
    pub fn notice(self) -> Notice
        ensures { result ≡ self }
    {
        self.notice
    }
}

impl Ord for NoticeKey {
    ghost use Rattle.std.proofs.Common.{rules};
    ghost use Rattle.std.specs.Cmp.Rules.{comparing};
    ghost use Rattle.tw_types.specs.Notices.{notice_cmp};

    ghost cmp = { notice_cmp };

    ghost total = { Prim.search (comparing, rules) };

    ghost matches_partial_cmp = { Prim.search (comparing, rules) };

    ghost matches_eq = { Prim.search (comparing, rules) };

    /// Compares notices by their data, then by their rules, then by their parameters.
    fn cmp(&self, other: &NoticeKey) -> Ordering {
        let (ours, theirs) = (self.notice, other.notice);
        let by_parameter = ours.parameter.cmp(&theirs.parameter);
        let by_rule = ours.rule.number().cmp(&theirs.rule.number());
        let by_datum = ours.datum.number().cmp(&theirs.datum.number());
        by_datum.then(by_rule.then(by_parameter))
    }
}

impl PartialOrd for NoticeKey {
    ghost use Rattle.std.proofs.Common.{rules};
    ghost use Rattle.std.specs.Cmp.{partial_order_from_own_ties};
    ghost use Rattle.std.specs.Cmp.Rules.{comparing};
    ghost use Rattle.std.specs.Ordering.{as_partial_cmp};
    ghost use Rattle.tw_types.specs.Notices.{notice_cmp};

    ghost partial_cmp = { as_partial_cmp notice_cmp };

    ghost laws = { partial_order_from_own_ties (Prim.search (comparing, rules) depth 9) (Prim.search (comparing, rules) depth 9) };

    /// Compares notices like `cmp`: by datum, rule and parameter.
    fn partial_cmp(&self, other: &NoticeKey) -> Option<Ordering> {
        Some(self.cmp(other))
    }
}
