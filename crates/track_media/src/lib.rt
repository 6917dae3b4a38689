//! Media files: their tracks and fragments, or the first broken rule with its place.
#![tactic(auto)]

mod file;
mod gathering;
mod kind;
mod line;
mod list_reader;
mod mp4_reader;
#[cfg(test)]
mod mp4_tests;
mod number;
mod reader;
mod refusals;
mod room;
mod sample;
#[cfg(test)]
mod tests;
mod top;
mod words;

pub use file::parse_media;
pub use kind::{MediaFault, MediaKind};
pub use reader::{MediaReader, a_file_ends_as_its_front};
