//! A hasher whose key is the source.

ghost use Rattle.std.specs.Prelude.{◌≡◌};
ghost use Rattle.cxx_base.specs.KeyedHash.{IsKeyedBy, initial_hasher};

use std::hash::{BuildHasher, DefaultHasher, Hasher};

/// Makes hashers that have read a source before they read a text. So which texts fall together depends on all of the
/// source that they stand in: names that do under one key do not under that of another source. Nothing is proved of how hard
/// it is to find a source whose own names fall together under its key.
#[derive(Clone, Copy)]
pub struct KeyedHash {
    initial: DefaultHasher,
}

/// What follows a source up to the end of a word of eight bytes, so that texts are read by whole words.
const PADDING: [u8; 8] = [0; 8];

impl KeyedHash {
    /// The key is the bytes of the source.
    pub fn of_source(source: &[u8]) -> KeyedHash
        ensures { IsKeyedBy source.now result }
    {
        let mut initial = DefaultHasher::new();
        initial.write(source);
        initial.write(&PADDING[source.len() % 8..]);
        KeyedHash { initial }
    }
}

impl BuildHasher for KeyedHash {
    type Hasher = DefaultHasher;

    ghost build_hasher = { initial_hasher };

    fn build_hasher(&self) -> DefaultHasher {
        self.initial
    }
}
