//! The core: a history of entries, the state after it, and the calls that add to it.
#![tactic(auto)]

mod book;
mod cdm;
mod chronicle;
mod feed;
mod law;
mod parts;
#[cfg(test)]
mod tests;

pub use cdm::{CallBack, Cdm, EvictBack, FeedBack, SettleFault};
pub use feed::fragments_fed;
pub use key_claims::{Claim, ClaimFault, Delivered, NotReady, NotWaiting, Published};
pub use key_sessions::StepFault;
pub use law::{
    claims_are_alone_in_the_window, claims_stay_open, fronts_are_legal,
    live_claims_are_of_their_samples, moment_is_of_the_last_tick, moment_is_past_each_tick,
    promises_are_owed_once, promises_are_settled_at_most_once, promises_are_settled_once,
    samples_are_fed_in_order, tracks_wait_only_for_keys, what_has_nothing_to_do_is_at_rest,
    what_is_at_rest_has_nothing_to_do, what_is_published_is_out,
};
