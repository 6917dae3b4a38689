// Which key is used for a key id.
ghost use Rattle.std.specs.Prelude.{◌≡◌};
ghost use Rattle.key_statuses.specs.Picked.{picked};

use eme_types::{KeyBytes, KeyId};

/// The session whose key is used, and the key.
#[derive(Clone, Copy, Debug, PartialEq, Eq)]
pub struct Pick {
    pub session: u32,
    pub key: KeyBytes,
}

/// What tells which key is used for a key id.
pub trait Picks {
    ghost use Rattle.std.specs.Prelude.{List, ℕ, Option};
    ghost use Rattle.eme_types.specs.declared.kid.KeyBytes.{KeyBytes};

    /// From a key id to the session and its key, if there is one.
    ghost picks: { Self → List ℕ → Option (ℕ × KeyBytes) };

    /// The pick of a key id.
    fn choose(&self, kid: &KeyId) -> Option<Pick>
        ensures { result ≡ picked (picks self.now kid.now) };
}
