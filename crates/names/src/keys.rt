//! What keeps a page from choosing which of its names meet in one bucket.

ghost use Rattle.std.specs.Prelude.{◌≡◌};
ghost use Rattle.names.specs.Keys.{made_of};

use std::hash::{BuildHasher, DefaultHasher, Hasher};
use std::io;
use std::marker::Model;
use std::random::RandomSource;

/// The keys of the hashes over an input's names and formatting elements. No result depends on them, only the time: a page that is
/// made against known keys takes time quadratic in its length.
#[derive(Clone, Copy)]
pub struct Keys {
    begun: DefaultHasher,
}

impl Model for Keys {
    ghost use Rattle.std.specs.declared.hash.DefaultHasher.{DefaultHasher as Begun};

    ghost Value = { Begun };

    ghost view = { λ keys. keys.begun };

    ghost inverse = { λ begun. record { begun = begun } };
}

impl Keys {
    /// Keys from 16 random bytes of the system, as which a program hands in its runtime, drawn once a program or once an input.
    pub fn random<R: RandomSource>(system: &R) -> io::Result<Keys> {
        let mut secret = [0; 16];
        system.fill_bytes(&mut secret)?;
        Ok(Keys::new(u128::from_le_bytes(secret)))
    }

    /// Keys from a secret of 16 random bytes.
    pub fn new(secret: u128) -> Keys
        ensures { result ≡ made_of secret }
    {
        let mut begun = DefaultHasher::new();
        begun.write_u128(secret);
        Keys { begun }
    }

    /// Keys that everybody knows, for tests.
    pub fn for_tests() -> Keys
        ensures { result ≡ made_of 0 }
    {
        Keys::new(0)
    }
}

impl BuildHasher for Keys {
    type Hasher = DefaultHasher;

    ghost build_hasher = { λ keys. keys };

    fn build_hasher(&self) -> DefaultHasher {
        self.begun
    }
}
