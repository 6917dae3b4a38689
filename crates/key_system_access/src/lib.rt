//! Negotiation of the key system: which configuration is granted.
#![tactic(auto)]

mod access;
mod configs;
mod content;
#[cfg(test)]
mod tests;
mod text;

pub use access::{AccessFault, request_access};
pub use configs::{ConfigFault, read_configs};
pub use text::config_text;
