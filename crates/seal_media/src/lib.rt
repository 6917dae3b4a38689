//! A packager: clear media become a protected fragmented MP4 (ISO/IEC 14496-12, ISO/IEC 23001-7).
#![tactic(auto)]

mod boxes;
mod cipher;
mod fault;
mod file;
mod fragment;
mod lengths;
mod movie;
mod plan;
mod refusals;
#[cfg(test)]
mod tests;

pub use fault::SealFault;
pub use file::seal;
pub use plan::SealPlan;
