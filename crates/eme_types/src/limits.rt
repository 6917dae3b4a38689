// The limits of the profile, each said once.

/// Tracks of a media file.
pub const MAX_TRACKS: usize = 8;
/// Samples of a media file.
pub const MAX_SAMPLES: u32 = 1_048_576;
/// Bytes of all samples of a media file together.
pub const MAX_SAMPLE_BYTES: u64 = 67_108_864;
/// Bytes of a media file.
pub const MAX_MEDIA_BYTES: u64 = 67_108_864;
/// Bytes of a script file.
pub const MAX_SCRIPT_BYTES: u64 = 1_048_576;
/// Lines of a script file.
pub const MAX_SCRIPT_LINES: u32 = 4_096;
/// Lanes of a script, 0 to 7.
pub const MAX_LANES: u8 = 8;
/// Workers of a play.
pub const MAX_WORKERS: u8 = 16;
/// Samples of a track, from its published count on, that may be claimed.
pub const CLAIM_WINDOW: u32 = 16;
/// Sessions of a play.
pub const MAX_SESSIONS: usize = 64;
/// Key ids that a session knows.
pub const MAX_SESSION_KIDS: usize = 256;
/// Bytes of a key id (Encrypted Media Extensions, 'Key IDs').
pub const MAX_KID_BYTES: usize = 512;
/// Bytes of a key set.
pub const MAX_KEY_SET_BYTES: usize = 65_536;
/// Bytes of initialization data.
pub const MAX_INIT_DATA_BYTES: usize = 65_536;
/// A moment and an expiration, in milliseconds: 2^53.
pub const MAX_MOMENT: u64 = 9_007_199_254_740_992;
