//! Which bytes of a sample are encrypted: subsamples and patterns (ISO/IEC 23001-7 sections 9.5 and 9.6).
#![tactic(auto)]

mod check;
mod law;
mod part;
mod range;
#[cfg(test)]
mod tests;
mod walk;

pub use check::{SampleFault, check_sample};
pub use law::block_law;
pub use range::ByteRange;
pub use walk::{RangeWalk, ranges};
