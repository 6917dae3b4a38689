//! The plain types that the crates above share. Contracts see each list type as the list of its items.
#![tactic(auto)]

mod access;
mod call;
mod entry;
mod items;
mod kid;
mod limits;
mod media;
mod sample;
#[cfg(test)]
mod tests;

pub use access::{Capabilities, Capability, Config, Configs, Need, Texts};
pub use call::{AppCall, DomError, Effect, Effects, Event, Reason, Settled};
pub use entry::{Entry, Verdict};
pub use items::{Bytes, Copies, Items};
pub use kid::{KeyBytes, KeyId, KeyIdFault, KeyPairs, Kids, Status, StatusList};
pub use limits::{
    CLAIM_WINDOW, MAX_INIT_DATA_BYTES, MAX_KEY_SET_BYTES, MAX_KID_BYTES, MAX_LANES,
    MAX_MEDIA_BYTES, MAX_MOMENT, MAX_SAMPLE_BYTES, MAX_SAMPLES, MAX_SCRIPT_BYTES, MAX_SCRIPT_LINES,
    MAX_SESSION_KIDS, MAX_SESSIONS, MAX_TRACKS, MAX_WORKERS,
};
pub use media::{
    Fragment, Fragments, InitData, InitKind, Inits, Media, Parts, TrackIds, TrackPart, TrackTexts,
};
pub use sample::{EncSample, Iv, IvSizes, Protect, Samples, Scheme, Sub, Subs};
