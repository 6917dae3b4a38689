//! The texts of Clear Key: licence requests and key sets.
#![tactic(auto)]

mod key_set;
mod request;
#[cfg(test)]
mod tests;
mod text;

pub use key_set::{KeySet, KeySetFault, read_key_set};
pub use request::request_text;
pub use text::{json_of, kid_of};
