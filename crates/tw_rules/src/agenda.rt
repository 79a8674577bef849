//! The work of one engine on its rules.

ghost use Rattle.std.specs.Prelude.{◌≡◌, ◌<◌, ◌+◌, ◌∷◌, ◌++◌, [], IsOk, OnOk, true, false, if◌then◌else◌};
ghost use Rattle.tw_rules.specs.Numbers.{from_first};
ghost use Rattle.tw_rules.specs.Entries.{rules_in};
ghost use Rattle.tw_rules.specs.Indexed.{IsTrimmed, agenda_room, is_askable};
ghost use Rattle.tw_rules.specs.Agendas.{IsSameAgenda, HasOneMoreAsk, HasReleased, HasMoved};

use crate::asks::Asks;
use crate::entries::{has_unasked, is_pending};
use crate::pending::Pending;
use crate::release_heap::Releases;
use std::alloc::{AllocError, Global};
use std::collections::HashMap;

/// The rules for which an engine asks, and those that it releases.
#[derive(Drop)]
pub struct Agenda {
    pub asks: Asks,
    pub releases: Releases,
}

impl Agenda {
    /// Makes an engine's agenda without rules.
    pub fn new(alloc: Global) -> Agenda
        ensures asks { result.asks.numbers ≡ [] }
        ensures releases { result.releases.numbers ≡ [] }
        ensures promised { result.releases.promised ≡ 0 }
    {
        Agenda {
            asks: Asks::new(alloc),
            releases: Releases::new(alloc),
        }
    }

    /// Reserves memory for one rule in an engine's agenda.
    pub fn reserve(&mut self) -> Result<(), AllocError>
        ensures same { IsSameAgenda self.old self.new }
        ensures room { OnOk result (agenda_room self.new ≡ true) }
        ensures kept { agenda_room self.old ≡ true → agenda_room self.new ≡ true }
        ensures reserved { agenda_room self.old ≡ true → IsOk result }
    {
        self.asks.reserve()?;
        self.releases.reserve()
    }

    /// Adds a rule to an engine's agenda: to the releases if it is releasable, else to the asks.
    pub fn add(&mut self, number: u64, is_releasable: bool)
        requires { agenda_room self.old ≡ true }
        ensures released { is_releasable ≡ true → HasReleased number self.old self.new }
        ensures asked { is_releasable ≡ false → HasOneMoreAsk number self.old self.new }
    {
        if is_releasable {
            self.releases.push(number);
        } else {
            self.asks.push(number);
            self.releases.promise();
        }
    }

    /// Moves a rule of the agenda that has become releasable, and drops the leading asks without an unasked parameter.
    pub fn advance(&mut self, rules: &HashMap<u64, Pending>, number: u64, is_releasable: bool)
        requires { is_releasable ≡ true → 0 < self.old.releases.promised }
        ensures asks { self.new.asks.numbers ≡ from_first (is_askable (rules_in rules.now.entries)) self.old.asks.numbers }
        ensures moved { is_releasable ≡ true → HasMoved number self.old.releases self.new.releases }
        ensures stays { is_releasable ≡ false → self.new.releases ≡ self.old.releases }
        ensures room { agenda_room self.old ≡ true → agenda_room self.new ≡ true }
    {
        if is_releasable {
            self.releases.push_promised(number);
        }
        trim_asks(&mut self.asks, rules);
    }

    /// Drops the leading releases of the agenda that aren't pending any more.
    pub fn trim_releases(&mut self, rules: &HashMap<u64, Pending>)
        ensures asks { self.new.asks ≡ self.old.asks }
        ensures releases { IsTrimmed (rules_in rules.now.entries) self.old.releases.numbers self.new.releases.numbers }
        ensures promised { self.new.releases.promised ≡ self.old.releases.promised }
        ensures room { agenda_room self.old ≡ true → agenda_room self.new ≡ true }
    {
        trim_releases(&mut self.releases, rules);
    }
}

/// Drops the leading asks of an agenda whose rules have no unasked parameter any more.
fn trim_asks(asks: &mut Asks, rules: &HashMap<u64, Pending>)
    ensures numbers { asks.new.numbers ≡ from_first (is_askable (rules_in rules.now.entries)) asks.old.numbers }
    ensures room { asks.old.has_room ≡ true → asks.new.has_room ≡ true }
{
    while let Some(number) = asks.first() {
        if has_unasked(rules, number) {
            return;
        }
        asks.drop_first();
    }
}

/// Drops the least numbers of a heap of releases, as long as they aren't those of pending rules.
fn trim_releases(releases: &mut Releases, rules: &HashMap<u64, Pending>)
    ensures numbers { IsTrimmed (rules_in rules.now.entries) releases.old.numbers releases.new.numbers }
    ensures promised { releases.new.promised ≡ releases.old.promised }
    ensures room { releases.old.has_room ≡ true → releases.new.has_room ≡ true }
{
    while let Some(number) = releases.first() {
        if is_pending(rules, number) {
            return;
        }
        releases.drop_first();
    }
}
