//! The boxes of a movie and of its fragments (ISO/IEC 14496-12 section 8), read into records.
#![tactic(auto)]

mod fault;
mod kinds;
mod moof;
mod moov;
mod reading;
mod records;
mod table;
#[cfg(test)]
mod tests;

pub use fault::{FragFault, FragKind};
pub use moof::read_moof;
pub use moov::read_moov;
pub use records::{
    Moof, Movie, MovieTrack, MovieTracks, RunItem, RunItems, SampleEntries, SampleEntry, Span,
    Spans, Tfhd, Traf, Trafs, Trex, Trun, Truns,
};
