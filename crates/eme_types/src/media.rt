// Tracks, fragments and initialization data.
ghost use Rattle.std.specs.Prelude.{◌≡◌, IfOk};

use crate::items::{Bytes, Copies, Items};
use crate::sample::Samples;
use std::alloc::AllocError;

/// A type of initialization data (Encrypted Media Extensions, Initialization Data Format Registry).
#[derive(Clone, Copy, Debug, PartialEq, Eq)]
pub enum InitKind {
    Cenc,
    Keyids,
}

/// Initialization data.
#[derive(Drop)]
pub struct InitData {
    pub kind: InitKind,
    pub bytes: Bytes,
}

pub type Inits = Items<InitData>;

/// The samples of one track in one fragment.
#[derive(Drop)]
pub struct TrackPart {
    pub track: u32,
    pub samples: Samples,
}

pub type Parts = Items<TrackPart>;

/// A fragment of the media: it is fed whole.
#[derive(Drop)]
pub struct Fragment {
    pub inits: Inits,
    pub parts: Parts,
}

pub type Fragments = Items<Fragment>;

pub type TrackIds = Items<u32>;

/// What is written of each track: its id and the bytes, in track order.
pub type TrackTexts = Items<(u32, Bytes)>;

/// A media file: its tracks in order, and its fragments.
#[derive(Drop)]
pub struct Media {
    pub tracks: TrackIds,
    pub fragments: Fragments,
}

impl Copies for InitData {
    fn copy(&self) -> Result<InitData, AllocError> {
        let bytes = self.bytes.copy()?;
        Ok(InitData {
            kind: self.kind,
            bytes,
        })
    }
}

impl Copies for TrackPart {
    fn copy(&self) -> Result<TrackPart, AllocError> {
        let samples = self.samples.copy()?;
        Ok(TrackPart {
            track: self.track,
            samples,
        })
    }
}

impl Copies for Fragment {
    fn copy(&self) -> Result<Fragment, AllocError> {
        let inits = self.inits.copy()?;
        let parts = self.parts.copy()?;
        Ok(Fragment { inits, parts })
    }
}

impl Copies for Media {
    fn copy(&self) -> Result<Media, AllocError> {
        let tracks = self.tracks.copy()?;
        let fragments = self.fragments.copy()?;
        Ok(Media { tracks, fragments })
    }
}
