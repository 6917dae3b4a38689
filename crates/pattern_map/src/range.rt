// Ranges of bytes.

/// A range of encrypted bytes of a sample, from `from` up to but not including `to`.
#[derive(Clone, Copy, Debug, PartialEq, Eq)]
pub struct ByteRange {
    pub from: usize,
    pub to: usize,
    /// A chain begins here with the IV.
    pub fresh: bool,
}
