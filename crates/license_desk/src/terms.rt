// Rows of the table.
ghost use Rattle.std.specs.Prelude.{◌≡◌};
ghost use Rattle.license_desk.specs.Answer.{is_reached};

use eme_types::{Items, KeyBytes, KeyId};

/// What the table says of a key id: its key, and between which moments the key may be used. Moments are milliseconds, 0 to
/// 2^53.
#[derive(Clone, Copy, Debug, PartialEq, Eq)]
pub struct Terms {
    pub key: KeyBytes,
    /// The moment from which on the key is usable.
    pub from: u64,
    /// The moment from which on it is expired, none: never.
    pub expires: Option<u64>,
}

/// Key ids, each with its terms.
pub type Rows = Items<(KeyId, Terms)>;

impl Terms {
    /// Whether the key is expired at a moment.
    pub fn is_expired(&self, moment: u64) -> bool
        ensures { result ≡ is_reached moment self.now.expires }
    {
        match self.expires {
            None => false,
            Some(last) => last <= moment,
        }
    }
}
