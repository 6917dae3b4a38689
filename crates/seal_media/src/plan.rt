// How media are sealed.
use eme_types::{KeyBytes, Scheme};

/// How media are sealed.
#[derive(Clone, Copy, Debug, PartialEq, Eq)]
pub struct SealPlan {
    pub scheme: Scheme,
    pub kid: [u8; 16],
    pub key: KeyBytes,
    /// In `cenc` its first 8 bytes are the IV of the first sample, and the others count on from it; in `cbcs` all samples have it.
    pub iv: [u8; 16],
    /// The bytes at the start of each sample that stay clear.
    pub lead: u16,
}
