//! Versions of the language.

ghost use Rattle.std.specs.Prelude.{◌≡◌};
ghost use Rattle.tw_code.specs.format.Versions.{has_since, version_by, version_number};

/// The version of a program. Version 2 adds texts as subscripts and computed priorities, version 4 maps, version 5 parts of texts,
/// their order and operations on bits. There is no version 3.
#[derive(Clone, Copy, Debug)]
pub enum Version {
    One = 1,
    Two = 2,
    Four = 4,
    Five = 5,
}

impl Version {
    /// The last one, which has all that the others have.
    pub const LAST: Version = Version::Five;

    /// Returns its number.
    pub fn number(self) -> u8
        ensures { result ≡ version_number self }
    {
        self as u8
    }

    /// Returns the version with this number, or the first if there is none.
    pub fn by(number: u64) -> Version
        ensures { result ≡ version_by number }
    {
        match number {
            5 => Version::Five,
            4 => Version::Four,
            2 => Version::Two,
            _ => Version::One,
        }
    }

    /// Returns whether it has the features of another: of itself or an earlier one.
    pub fn has_since(self, brought: Version) -> bool
        ensures { result ≡ has_since self brought }
    {
        match self {
            Version::One => matches!(brought, Version::One),
            Version::Two => matches!(brought, Version::One | Version::Two),
            Version::Four => !matches!(brought, Version::Five),
            Version::Five => true,
        }
    }
}
