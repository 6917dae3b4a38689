// The limit of a vault.

/// Bytes of a vault's file, the closed gate at its end included.
pub const MAX_VAULT_BYTES: u64 = 16_777_216;
