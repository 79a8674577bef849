//! A member of a container.

use tw_types::{DatumId, Value};

/// The id of a member, and the place of its datum.
#[derive(Clone, Copy)]
pub struct Member {
    pub id: DatumId,
    pub place: usize,
}

impl tw_datum::Member for Member {
    ghost id = { λ it. it.id };

    /// Returns the id of the member, which the store keeps with its place.
    fn id(&self) -> DatumId {
        self.id
    }
}

/// A datum of the store.
pub type Datum = tw_datum::Datum<Member>;

/// A member of a container, for reports.
#[derive(Clone, Copy)]
pub struct ShownMember<'a> {
    pub subscript: &'a Value,
    pub id: DatumId,
    /// Its datum, if that is live.
    pub datum: Option<&'a Datum>,
}
