// The limits of what a desk reads.

/// Bytes of a table of keys.
pub const MAX_DESK_BYTES: u64 = 1_048_576;
/// Bytes of a licence request.
pub const MAX_REQUEST_BYTES: u64 = 65_536;
