// Key ids, keys and their statuses.
ghost use Rattle.std.specs.Prelude.{◌≡◌, ◌<◌, ◌⊎◌, ◌↔◌, Some, refl, bytes_eq, length, IfOk, IsErrOf};
ghost use Rattle.std.specs.Ordering.{nat_cmp};
ghost use Rattle.eme_types.specs.declared.limits.TheConstants.{MAX_KID_BYTES};
ghost use Rattle.std.specs.Cmp.Lexicographic.{slice_cmp, nat_list_eq_equiv, nat_list_cmp_total, texts_ties, texts_po};
ghost use Rattle.std.specs.Cmp.{partial_equiv_from_equiv};

use crate::items::{Bytes, Copies, Items};
use crate::limits::MAX_KID_BYTES;
use std::alloc::{AllocError, Global};
use std::cmp::Ordering;
use std::hash::{Hash, Hasher};
use std::marker::Model;

/// A key id: 1 to 512 bytes, and seen as them. Key ids are ordered octet by octet, and a prefix comes before its extension.
#[derive(Drop)]
pub struct KeyId {
    bytes: Bytes,
}

impl Model for KeyId {
    ghost use Rattle.std.specs.Prelude.{ℕ, List};
    ghost use Rattle.eme_types.specs.KeyId.{IsKeyId};

    ghost Value = { List ℕ };

    ghost view = { λ k. k.bytes };

    ghost invariant = { λ k. IsKeyId k.bytes };
}

/// Why bytes are no key id.
#[derive(Clone, Copy, Debug, PartialEq, Eq)]
pub enum KeyIdFault {
    /// There is no byte, or there are more than 512.
    Length,
    OutOfMemory,
}

/// A key of AES-128.
#[derive(Clone, Copy, Debug, PartialEq, Eq)]
pub struct KeyBytes {
    pub bytes: [u8; 16],
}

/// The status of a known key id (Encrypted Media Extensions, MediaKeyStatus).
#[derive(Clone, Copy, Debug, PartialEq, Eq)]
pub enum Status {
    Usable,
    Expired,
    Released,
    /// `usable-in-future`: the start of its key set is still to come.
    UsableInFuture,
}

pub type Kids = Items<KeyId>;

/// Key ids, each with its key.
pub type KeyPairs = Items<(KeyId, KeyBytes)>;

/// Key ids, each with its status.
pub type StatusList = Items<(KeyId, Status)>;

impl KeyId {
    ghost use Rattle.eme_types.specs.KeyId.{IsKeyId};

    /// A key id of these bytes.
    pub fn new(alloc: Global, bytes: &[u8]) -> Result<KeyId, KeyIdFault>
        ensures ok { IfOk result (λ k. k ≡ bytes.now) }
        ensures length { IsErrOf result KeyIdFault.Length ↔ ((length bytes.now < 1) ⊎ (MAX_KID_BYTES < length bytes.now)) }
    {
        if bytes.is_empty() || bytes.len() > MAX_KID_BYTES {
            return Err(KeyIdFault::Length);
        }
        match Bytes::from_slice(alloc, bytes) {
            Ok(bytes) => Ok(KeyId { bytes }),
            Err(_) => Err(KeyIdFault::OutOfMemory),
        }
    }

    /// The bytes of the key id.
    pub fn bytes(&self) -> &[u8]
        ensures value { result.now ≡ self.now }
        ensures size { IsKeyId self.now }
    {
        self.bytes.as_slice()
    }
}

impl Copies for KeyId {
    fn copy(&self) -> Result<KeyId, AllocError> {
        let bytes = self.bytes.copy()?;
        Ok(KeyId { bytes })
    }
}

impl Copies for (KeyId, KeyBytes) {
    fn copy(&self) -> Result<(KeyId, KeyBytes), AllocError> {
        let kid = self.0.copy()?;
        Ok((kid, self.1))
    }
}

impl Copies for (KeyId, Status) {
    fn copy(&self) -> Result<(KeyId, Status), AllocError> {
        let kid = self.0.copy()?;
        Ok((kid, self.1))
    }
}

impl PartialEq for KeyId {
    ghost eq = { λ a b. bytes_eq a b };

    ghost laws = { partial_equiv_from_equiv nat_list_eq_equiv };

    fn eq(&self, other: &KeyId) -> bool {
        self.bytes() == other.bytes()
    }
}

impl Eq for KeyId {
    ghost laws = { nat_list_eq_equiv };
}

impl PartialOrd for KeyId {
    ghost partial_cmp = { λ a b. Some (slice_cmp nat_cmp a b) };

    ghost laws = { texts_po };

    fn partial_cmp(&self, other: &KeyId) -> Option<Ordering> {
        Some(self.cmp(other))
    }
}

impl Ord for KeyId {
    ghost cmp = { λ a b. slice_cmp nat_cmp a b };

    ghost total = { nat_list_cmp_total };

    ghost matches_partial_cmp = { λ a b. refl };

    ghost matches_eq = { λ a b. texts_ties a b };

    fn cmp(&self, other: &KeyId) -> Ordering {
        self.bytes().cmp(other.bytes())
    }
}

impl Hash for KeyId {
    ghost use Rattle.std.proofs.Common.{rules};
    ghost use Rattle.std.specs.Prelude.{[], ◌∷◌};
    ghost use Rattle.std.specs.Cmp.Rules.{hashing};
    ghost use Rattle.std.specs.Hash as fed;

    ghost hash_input = { λ k. fed.str k };

    ghost respects_eq = { Prim.search (hashing, rules) };

    fn hash<H: Hasher>(&self, state: &mut H) {
        state.write(self.bytes());
        state.write_u8(0xff);
    }
}
