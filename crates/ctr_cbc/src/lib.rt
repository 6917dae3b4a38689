//! Counter mode and cipher block chaining with AES-128 (SP 800-38A), in place. No call allocates or can be refused.
#![tactic(auto)]

mod block;
mod chain;
mod counter;
mod law;

pub use chain::{cbc_decrypt, cbc_encrypt};
pub use counter::ctr_apply;
pub use law::{block_bytes_law, joined_chain_law, opened_again_law, short_iv_law};

#[cfg(test)]
mod tests;
