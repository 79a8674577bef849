//! Members as containers store them.

ghost use Rattle.std.specs.Prelude.{◌≡◌, ℕ};

use tw_types::DatumId;

/// A member of a container, as the container stores it: at least its id.
pub trait Member: Copy {
    ghost id: { Self → ℕ };

    /// Returns the id of the member's own datum, whatever a container stores of it.
    fn id(&self) -> DatumId
        ensures { result ≡ id self.now };
}

/// A member that is stored as its id alone.
impl Member for DatumId {
    ghost id = { λ it. it };

    /// Returns the id itself, for a container that stores only its members' ids.
    fn id(&self) -> DatumId {
        *self
    }
}
