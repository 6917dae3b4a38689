//! The outside of the programs: named files, what is said, and the words of a command line.
#![tactic(auto)]

mod calls;
mod files;
mod host;
mod memory;
mod shelf;
#[cfg(test)]
mod tests;
mod words;

pub use host::HostShelf;
pub use memory::MemoryShelf;
pub use shelf::{Shelf, ShelfFault};
pub use words::{UsageFault, UsageKind, bad_word, next_word};
