//! Arguments of rules.

ghost use Rattle.std.specs.Prelude.{◌≡◌};
ghost use Rattle.tw_instr.specs.Arguments.{arg_of};
ghost use Rattle.tw_report.specs.Arguments.{right_of};

use tw_machine::Arg;
use tw_types::DatumId;

/// Returns the id of its datum, if it is a right.
pub(crate) fn right_of(arg: &Arg) -> Option<DatumId>
    ensures { result ≡ right_of (arg_of arg.now) }
{
    match arg {
        Arg::Right(id) => Some(*id),
        Arg::Value(_) => None,
    }
}
