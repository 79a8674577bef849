//! Theorems on the definitions of this crate.

ghost use Rattle.tw_binary.specs.Versions.{KeepsVersions};

/// Proves that the programs of a version are those of each later one that have none of its features, by the same bytes.
pub fn keeps_versions()
    ensures { KeepsVersions }
{}
