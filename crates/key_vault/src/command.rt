// What a vault is told to do.

use eme_types::Bytes;

/// A command of a vault.
#[derive(Drop)]
pub enum Command {
    Store { label: Bytes, licence: Bytes },
    Release { label: Bytes },
    Ack { label: Bytes },
}
