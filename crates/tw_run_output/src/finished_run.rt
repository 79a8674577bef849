//! A finished run, for reports.

ghost use Rattle.tw_store.specs.Served.{KnowsPlaces};

use tw_datum::Datum;
use tw_pool::Final;
use tw_report::ReportSource;
use tw_types::{DatumId, Value};

/// The end of a run on the pool. It finds a member of a container by its place.
#[derive(Drop)]
pub struct FinishedRun<'f> {
    pub of: &'f Final,
}

impl<'f> ReportSource for FinishedRun<'f> {
    type Kept = tw_store::Member;

    ghost live = { λ l. l.of.now.store.store.live };

    ghost ids = { λ l. l.of.now.outputs };

    ghost IsShown = { λ l d. KnowsPlaces l.of.now.store d };

    fn outputs(&self) -> &[DatumId] {
        self.of.outputs()
    }

    fn datum(&self, id: DatumId) -> Option<&Datum<tw_store::Member>> {
        self.of.view(id)
    }

    fn member<'a>(
        &'a self,
        container: &'a Datum<tw_store::Member>,
        index: usize,
    ) -> Option<(&'a Value, Option<&'a Datum<tw_store::Member>>)> {
        match self.of.member(container, index) {
            Some(member) => Some((member.subscript, member.datum)),
            None => None,
        }
    }
}
