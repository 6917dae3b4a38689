// Marks: how far the texts of a history were told.
ghost use Rattle.std.specs.Prelude.{◌≡◌, [], IfOk, map};
ghost use Rattle.output_order.specs.News.{IsMarkOf};

use eme_types::{Items, TrackIds};
use std::alloc::{AllocError, Global};

/// How many samples are out on each track, in track order.
pub type Counts = Items<u32>;

/// The mark of a history: how many entries it has, and how many samples are out on each track.
#[derive(Drop)]
pub struct Mark {
    pub entries: u64,
    pub published: Counts,
}

impl Mark {
    /// The mark of the empty history on these tracks.
    pub fn start(alloc: Global, tracks: &TrackIds) -> Result<Mark, AllocError>
        ensures mark { IfOk result (IsMarkOf tracks.now []) }
        ensures counts { IfOk result (λ mark. mark.published ≡ map (λ _. 0) tracks.now) }
    {
        let counts: Vec<u32> = tracks.as_slice().iter().map(|_track| 0).collect(alloc)?;
        Ok(Mark {
            entries: 0,
            published: Counts::from_vec(counts),
        })
    }
}
