//! Reports of states of the reference machine, and the deadlock circle if one is stuck.

ghost use Rattle.std.specs.Prelude.{◌≡◌, IfOk, None, option_map};
ghost use Rattle.tw_code.specs.machine.Ending.{ending};
ghost use Rattle.tw_code.specs.machine.Pending.{circle};
ghost use Rattle.tw_report.specs.Report.{ending_lines, state_report};

use crate::endings::ending_text;
use crate::outputs::put_report;
use crate::pending::pending_rules;
use crate::walk::circle_of;
use std::alloc::{AllocError, Global};
use tw_machine::Plain;
use tw_types::Link;

/// Returns the circle of rules that wait for one another, if the state is stuck. Each link has a rule, a datum for which it
/// waits, and the rule that may write that datum.
pub fn circle_state(alloc: Global, plain: &Plain) -> Result<Option<Vec<Link>>, AllocError>
    ensures { IfOk result (λ found. option_map (λ v. v.items) found ≡ circle plain.now.program plain.now.state) }
{
    let Some(_ending) = plain.ending() else {
        return Ok(None);
    };
    let rules = pending_rules(alloc, plain.program().procedures(), plain.state().rules())?;
    circle_of(alloc, &rules)
}

/// Returns the line on how a run has ended in this state, or that it is still running.
pub fn ending_line(alloc: Global, plain: &Plain) -> Result<Vec<u8>, AllocError>
    ensures { IfOk result (λ text. text.items ≡ ending_lines (ending plain.now.state) None) }
{
    ending_text(alloc, plain.ending(), None)
}

/// Returns the report of any state, whether the run has ended or not.
pub fn report_state(alloc: Global, plain: &Plain) -> Result<Vec<u8>, AllocError>
    ensures { IfOk result (λ text. text.items ≡ state_report plain.now.program plain.now.state) }
{
    let mut text = Vec::new(alloc);
    let last_lines = ending_text(alloc, plain.ending(), circle_state(alloc, plain)?)?;
    put_report(&mut text, plain.state(), &last_lines)?;
    Ok(text)
}
