//! The type of the reference machine's data.

use tw_types::DatumId;

/// A datum whose members are known by their ids alone.
pub type Datum = tw_datum::Datum<DatumId>;
