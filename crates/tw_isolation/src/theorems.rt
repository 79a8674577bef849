//! Theorems on isolation.

ghost use Rattle.tw_isolation.specs.Isolation.{AreIsolated, ChangesByWriteRight};

/// Proves that an event changes the content of a datum only by STORE, INS, TINS, MINS or MADD of its own task, and no task of
/// another actor. In an accepted program that task has a write right on the datum.
pub fn isolated()
    ensures isolated { AreIsolated }
    ensures by_right { ChangesByWriteRight }
{}
