//! Hashes the names of a symbolic text.

use std::hash::{BuildHasher, FoldHasher, Hasher};
use tw_lexer::TextHash;

/// Makes hashers for the names of a text, each of which has read the hash of the whole text first.
///
/// So a text's writer can't choose names that collide, as with `TextHash`. A name's bytes, which are hashed one by one, take a sixth of its instructions.
#[derive(Clone, Copy)]
pub struct NameHash {
    after_text: FoldHasher,
}

impl NameHash {
    /// Returns the hash for the names of this text, which has read the whole text.
    pub fn new(text: &str) -> NameHash {
        let mut after_text = FoldHasher::default();
        after_text.write_u64(TextHash::new(text).build_hasher().finish());
        NameHash { after_text }
    }
}

impl BuildHasher for NameHash {
    type Hasher = FoldHasher;

    ghost build_hasher = { λ hash. hash.after_text };

    /// Returns a hasher for a name, which has read the whole text first.
    fn build_hasher(&self) -> FoldHasher {
        self.after_text
    }
}
