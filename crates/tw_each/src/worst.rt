//! How lines ended.

ghost use Rattle.std.specs.Prelude.{◌≡◌};
ghost use Rattle.tw_each.specs.Worst.{close_of as close_of_is, end_of, worse as worse_is};

use tw_pool::Closing;
use tw_source::{Close, Failure, Position};

/// The worst end of some lines.
#[derive(Clone, Copy)]
pub enum WorstEnd {
    /// Each run ended quiet.
    Quiet,
    /// A run is stuck.
    Stuck,
    /// A run reached the limit, or was stopped.
    Limit,
    /// A line is rejected.
    Refused,
}

impl WorstEnd {
    /// Returns the end of a line whose run ended so.
    pub(crate) fn of(closing: Closing) -> WorstEnd
        ensures { result ≡ end_of closing }
    {
        match closing {
            Closing::Quiet => WorstEnd::Quiet,
            Closing::Stuck(_) => WorstEnd::Stuck,
            Closing::Stopped | Closing::Limit => WorstEnd::Limit,
        }
    }

    /// Returns the worse of the ends of two groups of lines.
    pub(crate) fn worse(self, other: WorstEnd) -> WorstEnd
        ensures { result ≡ worse_is self other }
    {
        match self {
            WorstEnd::Quiet => other,
            WorstEnd::Stuck => match other {
                WorstEnd::Quiet | WorstEnd::Stuck => WorstEnd::Stuck,
                WorstEnd::Limit | WorstEnd::Refused => other,
            },
            WorstEnd::Limit => match other {
                WorstEnd::Quiet | WorstEnd::Stuck | WorstEnd::Limit => WorstEnd::Limit,
                WorstEnd::Refused => other,
            },
            WorstEnd::Refused => WorstEnd::Refused,
        }
    }
}

/// Returns how a session ends after lines, by the worst of them.
pub fn close_of(worst: WorstEnd) -> Close
    ensures { result ≡ close_of_is worst }
{
    match worst {
        WorstEnd::Quiet => Close::Success,
        WorstEnd::Stuck => Close::Stuck,
        WorstEnd::Limit => Close::Limit,
        WorstEnd::Refused => Close::Refused(Failure::uncoded(Position::Nowhere)),
    }
}
