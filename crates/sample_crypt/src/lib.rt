//! Decryption of samples under the schemes `cenc` and `cbcs` (ISO/IEC 23001-7).
#![tactic(auto)]

mod chain;
mod sample;
mod stream;
#[cfg(test)]
mod tests;

pub use sample::open_sample;
