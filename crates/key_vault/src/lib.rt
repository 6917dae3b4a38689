//! The licence vault: licences kept through crashes.
#![tactic(auto)]

mod command;
mod commit;
mod fault;
mod frame;
mod kids;
mod label;
mod laws;
mod limits;
mod open;
mod records;
mod replay;
mod serve;
mod stored;
#[cfg(test)]
mod tests;
mod vault;

pub use command::Command;
pub use fault::{OpenBack, OpenFault, VaultFault};
pub use laws::a_file_has_one_reading;
pub use limits::MAX_VAULT_BYTES;
pub use stored::VaultRecord;
pub use vault::KeyVault;
pub use vault_disk::{DiskFailed, MemoryDisk, VaultDisk};
