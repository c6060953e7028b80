//! Keys of a hasher, from a random number of the caller.

ghost use Rattle.core.specs.Hash.DefaultHasher.{with_keys};

use core::hash::keyed_hasher;
use std::hash::{BuildHasher, DefaultHasher};

/// A hash builder whose two keys are a random number of the caller. An attacker who does not know the number cannot
/// choose names that collide.
#[derive(Clone, Copy)]
pub struct Keys {
    pub(crate) seed: u64,
}

impl BuildHasher for Keys {
    type Hasher = DefaultHasher;

    ghost build_hasher = { λ k. with_keys k.seed k.seed };

    fn build_hasher(&self) -> DefaultHasher {
        keyed_hasher(self.seed, self.seed)
    }
}
