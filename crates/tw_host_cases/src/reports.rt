//! The reports of runs, as parts of a case's output.

use tw_case_lines::Text;
use tw_pool::Final;
use tw_run_output::report;

/// Adds the report of a run's end to the output of a case of hosts.
pub fn put_report(text: &mut Text, left: &Final) {
    match report(text.alloc(), left) {
        Ok(lines) => text.put_bytes(lines.as_slice()),
        Err(_) => text.lose(),
    }
}
