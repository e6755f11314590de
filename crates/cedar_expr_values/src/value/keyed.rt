//! Hashers that begin with a key of their own. Who writes the members of a set can't foresee which of them meet in its table: the key
//! is made of all of them, where they are more than a few.

ghost use Rattle.std.specs.Hash as fed;
ghost use Rattle.std.specs.Hash.DefaultHasher as sip;

use std::hash::{BuildHasher, DefaultHasher, Hasher};

/// Makes hashers that begin with a key.
#[derive(Clone, Copy)]
pub struct Keyed {
    key: u64,
}

impl Keyed {
    // The one whose key is what this hasher comes to.
    pub(super) fn by(hasher: &DefaultHasher) -> Keyed {
        Keyed {
            key: hasher.finish(),
        }
    }
}

impl BuildHasher for Keyed {
    type Hasher = DefaultHasher;

    ghost use Rattle.std.specs.Prelude.{fold};

    ghost build_hasher = { λ k. fold sip.write sip.initial (fed.u64 k.key) };

    fn build_hasher(&self) -> DefaultHasher {
        let mut hasher = DefaultHasher::new();
        hasher.write_u64(self.key);
        hasher
    }
}
