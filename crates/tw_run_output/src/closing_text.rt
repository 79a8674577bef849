//! The line that says why a run ended.

ghost use Rattle.std.specs.Prelude.{◌≡◌, IfOk, option_map};
ghost use Rattle.tw_run_output.specs.Ends.{closing_lines};

use std::alloc::{AllocError, Global};
use tw_pool::Closing;
use tw_report::{ending_text, text_of};
use tw_types::{Ending, Link};

/// Returns the lines that say why a run on the pool ended, with the circle that was found; or that it hasn't ended.
pub fn closing_text(
    alloc: Global,
    closing: Option<Closing>,
    found: Option<Vec<Link>>,
) -> Result<Vec<u8>, AllocError>
    ensures { IfOk result (λ text. text.items ≡ closing_lines closing (option_map (λ v. v.items) found)) }
{
    match closing {
        Some(Closing::Quiet) => ending_text(alloc, Some(Ending::Quiet), found),
        Some(Closing::Stuck(rules)) => ending_text(alloc, Some(Ending::Stuck(rules)), found),
        Some(Closing::Stopped) => text_of(alloc, "stopped\n"),
        Some(Closing::Limit) => text_of(alloc, "limit\n"),
        None => ending_text(alloc, None, found),
    }
}
