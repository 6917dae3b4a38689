//! The tracks of the media with what is out of each, and the claims on their samples.
#![tactic(auto)]

mod choice;
mod claim;
mod claims;
mod feed;
mod slots;
#[cfg(test)]
mod tests;
mod track;
mod tracks;

pub use claim::{Claim, ClaimFault, Delivered, NotReady, NotWaiting, Published, Ready};
pub use tracks::Tracks;
