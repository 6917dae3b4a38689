//! The tool of the licence vault: a vault in a file, told by words what to do.
#![tactic(auto)]

mod call;
mod licence;
mod outcome;
mod run;
mod say;
mod serve;
#[cfg(test)]
mod tests;
mod words;

pub use eme_edge::{UsageFault, UsageKind};
pub use outcome::{VaultKind, VaultOutcome, status};
pub use run::run_vault;
