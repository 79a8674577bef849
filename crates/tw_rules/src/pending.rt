//! A rule with its rights.

ghost use Rattle.std.specs.Prelude.{◌≡◌, ◌≤◌, length, map};
ghost use Rattle.tw_types.specs.Rule.{first_stage, first_unasked, has_unasked, is_releasable};
ghost use Rattle.tw_rules.specs.Table.{erased_arg, erasure};
ghost use Rattle.tw_rules.specs.Entries.{rule_in};

use crate::array_vec8::ArrayVec8;
use crate::erased::{ErasedArg, ErasedRule};
use crate::planned::PlannedTask;
use tw_rights::{Arg, Bundle};
use tw_types::{Param, RuleNo, Stage};

/// A pending rule.
pub struct Pending {
    pub engine: u8,
    pub action: PlannedTask,
    pub args: Bundle,
    pub stages: ArrayVec8<Stage>,
}

impl Pending {
    /// Returns the first unasked parameter of a pending rule of the pool.
    pub fn first_unasked(&self) -> Option<u8>
        ensures { result ≡ first_unasked 0 self.now.stages }
    {
        Stage::first_unasked(self.stages.as_slice())
    }

    /// Returns whether a parameter of a pending rule of the pool is unasked.
    pub fn has_unasked(&self) -> bool
        ensures { result ≡ has_unasked (rule_in self.now) }
    {
        Stage::any_unasked(self.stages.as_slice())
    }

    /// Returns whether all parameters of a pending rule of the pool are settled.
    pub fn is_releasable(&self) -> bool
        ensures { result ≡ is_releasable (rule_in self.now) }
    {
        Stage::all_settled(self.stages.as_slice())
    }

    /// Ends a pending rule with its rights, and returns it without rights.
    pub fn spend(self, number: u64) -> ErasedRule
        ensures { result ≡ erasure (number, rule_in self) }
    {
        let Pending {
            engine,
            action,
            args,
            stages,
        } = self;
        let plain = erased_args(&args);
        args.shut();
        ErasedRule {
            number: RuleNo::new(number),
            engine,
            action,
            args: plain,
            stages,
        }
    }
}

/// Returns the stage of each parameter in a new pending rule, in a list of at most eight.
pub fn first_stages(params: &[Param]) -> ArrayVec8<Stage>
    requires { length params.now ≤ 8 }
    ensures { result ≡ map (λ p. first_stage p.mode) params.now }
{
    let mut stages = ArrayVec8::new(Stage::Free);
    for param in params {
        stages.push(Stage::first(param.mode));
    }
    stages
}

/// Returns the arguments of a pending rule without rights: only the ids of their data.
fn erased_args(args: &Bundle) -> ArrayVec8<ErasedArg>
    ensures { result ≡ map erased_arg args.now }
{
    let mut plain = ArrayVec8::new(ErasedArg::Val);
    for place in 0..args.len() {
        match args.get(place) {
            Some(arg) => plain.push(erased_arg(arg)),
            None => unreachable!(),
        }
    }
    plain
}

/// Returns an argument of a pending rule without its right: only the id of the datum.
fn erased_arg(arg: &Arg) -> ErasedArg
    ensures { result ≡ erased_arg arg.now }
{
    match arg {
        Arg::Val(_) => ErasedArg::Val,
        Arg::Read(right) => ErasedArg::Read(right.id()),
        Arg::Write(right) => ErasedArg::Write(right.id()),
    }
}
