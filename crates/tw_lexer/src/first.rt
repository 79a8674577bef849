//! Removes prefixes.

ghost use Rattle.std.specs.Prelude.{◌≡◌, ◌≢◌, ◌++◌, ℕ, List, MatchOption};

/// Returns the bytes of a word or line after this prefix, or `None` if they don't begin with it.
pub fn after<'a>(front: &[u8], bytes: &'a [u8]) -> Option<&'a [u8]>
    ensures { MatchOption result
        ((rest : List ℕ) → bytes.entry.now ≢ front.now ++ rest)
        (λ rest. bytes.entry.now ≡ front.now ++ rest.now) }
{
    bytes.strip_prefix(front)
}
