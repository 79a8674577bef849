//! Sources of reports.

ghost use Rattle.std.specs.Prelude.{◌≡◌, ℕ, List, IfSome, option_map};
ghost use Rattle.std.specs.FinMap.{get};
ghost use Rattle.std.specs.Option.{option_copied};
ghost use Rattle.tw_types.specs.Store.{Data};
ghost use Rattle.tw_datum.specs.Kept.{KeptDatum};
ghost use Rattle.tw_report.specs.Report.{member_shown};

use tw_datum::{Datum, Member};
use tw_machine::State;
use tw_types::{DatumId, Value};

/// A source of a report: outputs, and the live data.
pub trait ReportSource {
    /// A member, as its containers store it.
    type Kept: Member;

    ghost live: { Self → Data };

    ghost ids: { Self → List ℕ };

    /// The property of a container that the source returned, so that its members are found without a search.
    ghost IsShown: { Self → KeptDatum Self.Kept → Type 0 };

    /// Returns the ids of the outputs, from number 0 on.
    fn outputs(&self) -> &[DatumId]
        ensures { result.now ≡ ids self.now };

    /// Returns the datum of an output, if it is live.
    fn datum(&self, id: DatumId) -> Option<&Datum<Self::Kept>>
        ensures datum { option_map (λ d. d.datum) (option_copied result) ≡ get (live self.now) id }
        ensures shown { IfSome result (λ d. IsShown self.now d.now) };

    /// Returns the subscript of a container with `index` smaller ones, and the datum of that member, if it is live.
    fn member<'a>(
        &'a self,
        container: &'a Datum<Self::Kept>,
        index: usize,
    ) -> Option<(&'a Value, Option<&'a Datum<Self::Kept>>)>
        requires { IsShown self.now container.now }
        ensures { option_map (λ m. (m.0.now, option_map (λ d. d.datum) (option_copied m.1))) result ≡ member_shown (live self.now) container.now.datum index };
}

/// A state of the reference machine looks up a member by its id.
impl ReportSource for State {
    type Kept = DatumId;

    ghost live = { λ s. s.store.live };

    ghost ids = { λ s. s.outputs };

    ghost IsShown = { λ s d. Unit {0} };

    fn outputs(&self) -> &[DatumId] {
        self.outputs()
    }

    fn datum(&self, id: DatumId) -> Option<&Datum<DatumId>> {
        self.datum(id)
    }

    fn member<'a>(
        &'a self,
        container: &'a Datum<DatumId>,
        index: usize,
    ) -> Option<(&'a Value, Option<&'a Datum<DatumId>>)> {
        match container.entry(index) {
            Some((subscript, id)) => Some((subscript, self.datum(id))),
            None => None,
        }
    }
}
