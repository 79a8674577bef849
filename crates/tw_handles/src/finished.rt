//! The contents of a report's handle.

use crate::certificate::Certificate;
use tw_in_turn::EndedRun;

/// The result of a run, its certificate, if the run was asked for one, and whether its outputs are read although it didn't end by itself.
#[derive(Drop)]
pub struct Finished {
    pub left: EndedRun,
    pub certificate: Option<Certificate>,
    pub partial: bool,
}
