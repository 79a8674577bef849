//! Hashes the names of a text.

ghost use Rattle.std.specs.Prelude.{◌≡◌};
ghost use Rattle.std.specs.Hash.DefaultHasher.{initial, write};
ghost use Rattle.tw_lexer.specs.Hash.{after_text};

use std::hash::{BuildHasher, DefaultHasher, Hasher};

/// Makes hashers for the names of a text, each of which has read the whole text first.
///
/// Another name in the text changes how all of them are hashed, so a text's writer can't choose names that collide.
#[derive(Clone, Copy)]
pub struct TextHash {
    after_text: DefaultHasher,
}

impl TextHash {
    /// Returns the hash for the names of this text, which has read the whole text.
    pub fn new(text: &str) -> TextHash
        ensures { after_text result ≡ write initial text.now }
    {
        let mut after_text = DefaultHasher::new();
        after_text.write(text.as_bytes());
        TextHash { after_text }
    }
}

impl BuildHasher for TextHash {
    type Hasher = DefaultHasher;

    ghost build_hasher = { after_text };

    /// Returns a hasher for a name, which has read the whole text first.
    fn build_hasher(&self) -> DefaultHasher {
        self.after_text
    }
}
