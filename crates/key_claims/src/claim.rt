// Claims, as the caller holds them, and the answers on them.
use eme_types::{Bytes, EncSample, KeyBytes};

/// A claim: a sample to be opened under the key that its session held when it was claimed.
#[derive(Drop)]
pub struct Claim {
    /// The place of its entry in the history, from 1.
    pub place: u64,
    pub worker: u8,
    pub track: u32,
    /// The place of the sample in its track, from 0.
    pub index: u32,
    pub session: u32,
    pub key: KeyBytes,
    pub sample: EncSample,
}

#[derive(Clone, Copy, Debug, PartialEq, Eq)]
pub enum ClaimFault {
    /// No claim is allowed.
    NoWork,
    OutOfMemory,
}

#[derive(Drop)]
pub enum Delivered {
    Taken,
    /// The claim is no longer live; the bytes are handed back.
    Stale(Bytes),
}

/// A sample that was published.
#[derive(Clone, Copy, Debug, PartialEq, Eq)]
pub struct Published {
    pub track: u32,
    pub index: u32,
}

/// A sample that can be published, or was, and the place of its claim.
#[derive(Clone, Copy, Debug, PartialEq, Eq)]
pub struct Ready {
    pub track: u32,
    pub index: u32,
    pub place: u64,
}

/// No such publication is allowed.
#[derive(Clone, Copy, Debug, PartialEq, Eq)]
pub struct NotReady;

/// No track may begin to wait.
#[derive(Clone, Copy, Debug, PartialEq, Eq)]
pub struct NotWaiting;
