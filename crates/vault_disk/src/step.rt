// What a disk in memory notes of its writes and syncs.

/// A byte that was written, or a sync that succeeded.
#[derive(Clone, Copy, Debug, PartialEq, Eq)]
pub enum Step {
    Wrote { place: usize, byte: u8 },
    Synced,
}
