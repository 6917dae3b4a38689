//! The disk of the licence vault: what a read gives, and what a crash may leave.
#![tactic(auto)]

mod bytes;
mod calls;
mod disk;
mod host;
mod locked;
mod memory;
mod step;
#[cfg(test)]
mod tests;

pub use disk::{DiskFailed, VaultDisk};
pub use host::HostDisk;
pub use memory::MemoryDisk;
