//! Initialization data: `pssh` boxes and key ids.
#![tactic(auto)]

mod fault;
mod kids;
mod pssh;
#[cfg(test)]
mod tests;

pub use fault::InitFault;
pub use kids::kids_of;
pub use pssh::{Pssh, PsshList, put_pssh, read_pssh};
