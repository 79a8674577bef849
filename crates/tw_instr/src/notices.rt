//! Notices.

ghost use Rattle.std.specs.Prelude.{◌≡◌, ◌==◌, ◌&&◌, ◌||◌, false, map, not, true, IfOk, OnErr, OnOk};
ghost use Rattle.std.specs.Bool.{OnFalse};
ghost use Rattle.std.specs.FinSet.{contains, empty, from_list, len, remove};
ghost use Rattle.tw_types.specs.declared.notice.Notice.{Notice as ANotice};
ghost use Rattle.tw_types.specs.Notices.{with_notices};
ghost use Rattle.tw_types.specs.Store.{notice_to};
ghost use Rattle.tw_instr.specs.NoticeSets.{is_among, is_in};

use crate::notice_key::NoticeKey;
use std::alloc::{AllocError, Global};
use std::collections::BTreeSet;
use std::marker::Model;
use tw_types::{DatumId, Notice, Subscriber};

/// Notices that wait to be delivered. Their model is a set.
#[derive(Drop)]
pub struct Notices {
    keys: BTreeSet<NoticeKey>,
}

impl Model for Notices {
    ghost use Rattle.tw_types.specs.Notices.{Notices as Meaning, notice_cmp};
    ghost use Rattle.std.specs.FinSet.{code, from_list};
    ghost use Rattle.std.specs.Coded.{codes};

    ghost Value = { Meaning };

    ghost coded = { code {R = notice_cmp} (Prim.hlevel codes) };

    ghost view = { λ n. from_list {R = notice_cmp} n.keys.keys };
}

impl Notices {
    /// Makes a set of waiting notices without any.
    pub fn new(alloc: Global) -> Notices
        ensures { result ≡ empty }
    {
        Notices {
            keys: BTreeSet::new(alloc),
        }
    }

    /// Returns whether no notice waits in the set.
    pub fn is_empty(&self) -> bool
        ensures { result ≡ (len self.now == 0) }
    {
        self.keys.is_empty()
    }

    /// Returns the waiting notices, in the order in which they are delivered.
    pub fn keys(&self) -> &BTreeSet<NoticeKey>
        ensures { from_list result.now.keys ≡ self.now }
    {
        &self.keys
    }

    /// Removes a waiting notice, and returns whether it was there.
    pub fn remove(&mut self, notice: &Notice) -> bool
        ensures was { result ≡ contains self.old notice.now }
        ensures removed { self.new ≡ remove self.old notice.now }
        ensures same { OnFalse result (self.new ≡ self.old) }
    {
        self.keys.remove(&NoticeKey::of(*notice))
    }

    /// Adds a notice of the datum for each subscriber, or none if an allocation fails.
    pub fn add_for(
        &mut self,
        alloc: Global,
        id: DatumId,
        subscribers: &[Subscriber],
    ) -> Result<(), AllocError>
        ensures notified { OnOk result (self.new ≡ with_notices self.old (map (notice_to id) subscribers.now)) }
        ensures refused { OnErr result (self.new ≡ self.old) }
    {
        let more = missing(alloc, &self.keys, id, subscribers)?;
        add_all(&mut self.keys, &more)
    }
}

/// Returns the notices for the subscribers, without those that are in the set.
fn missing(
    alloc: Global,
    keys: &BTreeSet<NoticeKey>,
    id: DatumId,
    subscribers: &[Subscriber],
) -> Result<Vec<NoticeKey>, AllocError>
    ensures apart { IfOk result (λ more. (n : ANotice) → is_among more.items n ≡ true → is_in keys.now n ≡ false) }
    ensures all { IfOk result (λ more. (n : ANotice) → (is_among more.items n || is_in keys.now n) ≡ (is_among (map (notice_to id) subscribers.now) n || is_in keys.now n)) }
{
    let mut more = Vec::new(alloc);
    for subscriber in subscribers {
        let key = NoticeKey::of(Notice {
            datum: id,
            rule: subscriber.rule,
            parameter: subscriber.parameter,
        });
        if !keys.contains(&key) {
            more.push(key)?;
        }
    }
    Ok(more)
}

/// Adds these keys of notices, which aren't in the set. Changes nothing if an allocation fails.
fn add_all(keys: &mut BTreeSet<NoticeKey>, more: &[NoticeKey]) -> Result<(), AllocError>
    requires { (n : ANotice) → is_among more.now n ≡ true → is_in keys.old n ≡ false }
    ensures added { OnOk result ((n : ANotice) → is_in keys.new n ≡ (is_among more.now n || is_in keys.old n)) }
    ensures refused { OnErr result ((n : ANotice) → is_in keys.new n ≡ is_in keys.old n) }
{
    for key in more {
        if keys.insert(*key).is_err() {
            remove_all(keys, more);
            return Err(AllocError);
        }
    }
    Ok(())
}

/// Removes these keys of notices from the set again, after an allocation has failed.
fn remove_all(keys: &mut BTreeSet<NoticeKey>, more: &[NoticeKey])
    ensures { (n : ANotice) → is_in keys.new n ≡ (not (is_among more.now n) && is_in keys.old n) }
{
    for key in more {
        let _there = keys.remove(key);
    }
}
