//! One run, identified by a type.

ghost use Rattle.tw_host.specs.Run.{Run};

use std::marker::Brand;
use std::sync::ledger::Ledger;

/// One run and its ledger. Only the type of data under a lock is known outside of it, so each type of a host has the run's
/// name as a parameter.
pub trait Named: Ledger {
    ghost run: { Run };
}

impl Named for Brand {
    ghost use Rattle.std.specs.Prelude.{[]};
    ghost use Rattle.tw_code.specs.declared.version.Version.TheVariants.{Two};

    ghost run = { record { program = record { version = Two; program = []; typings = [] }; inputs = []; layout = record { engines = 1; servers = 1; workers = 1 }; limit = 1 } };
}
