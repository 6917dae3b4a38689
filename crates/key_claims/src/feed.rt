// The samples of a fragment come to their tracks.
ghost use Rattle.std.specs.Prelude.{◌≡◌, ◌∷◌, [], map, IfOk, IfSome, OnOk};
ghost use Rattle.key_claims.specs.TrackValue.{fed_track};
ghost use Rattle.key_claims.specs.Feeds.{batch_part, needed_by, AreReadyFor, IsReadyFor, TookBatch};
ghost use Rattle.key_claims.specs.Changes.{feed_one, feed_all};

use crate::track::{Track, track_at};
use eme_types::{Copies, EncSample, TrackPart};
use std::alloc::{AllocError, Global};

/// Copies of the samples of one part.
#[derive(Drop)]
pub struct Batch {
    pub track: u32,
    pub samples: Vec<EncSample>,
}

fn batch_of(alloc: Global, part: &TrackPart) -> Result<Batch, AllocError>
    ensures { IfOk result (λ b. batch_part b ≡ part.now) }
{
    Ok(Batch {
        track: part.track,
        samples: EncSample::copy_all(alloc, part.samples.as_slice())?,
    })
}

/// Copies of the samples of all parts.
pub fn batches_of(alloc: Global, parts: &[TrackPart]) -> Result<Vec<Batch>, AllocError>
    ensures { IfOk result (λ batches. map batch_part batches.items ≡ parts.now) }
{
    let mut batches = Vec::new(alloc);
    for part in parts {
        batches.push(batch_of(alloc, part)?)?;
    }
    Ok(batches)
}

/// The number of samples that come to a track, if it can be counted.
fn needed(batches: &[Batch], id: u32) -> Option<usize>
    ensures { IfSome result (λ n. n ≡ needed_by id batches.now) }
{
    let mut needed = 0usize;
    for batch in batches {
        if batch.track == id {
            needed = needed.checked_add(batch.samples.len())?;
        }
    }
    Some(needed)
}

/// Room on a track for the samples that come, and for what will be out of them.
fn reserve_one(track: &mut Track, batches: &[Batch]) -> Result<(), AllocError>
    ensures same { track.new.track ≡ track.old.track }
    ensures ready { OnOk result (IsReadyFor batches.now track.new) }
{
    let more = match needed(batches, track.id()) {
        None => return Err(AllocError),
        Some(more) => more,
    };
    track.reserve(more)
}

/// Room on each track.
pub fn reserve_batches(tracks: &mut Vec<Track>, batches: &[Batch]) -> Result<(), AllocError>
    ensures same { map fed_track tracks.new.items ≡ map fed_track tracks.old.items }
    ensures ready { OnOk result (AreReadyFor batches.now tracks.new.items) }
{
    for i in 0..tracks.len() {
        let track = &mut tracks[i];
        reserve_one(track, batches)?;
    }
    Ok(())
}

fn add_batch(tracks: &mut Vec<Track>, batch: Batch)
    requires { AreReadyFor (batch ∷ []) tracks.old.items }
    ensures took { TookBatch batch tracks.old.items tracks.new.items }
    ensures fed { map fed_track tracks.new.items ≡ feed_one (map fed_track tracks.old.items) (batch_part batch) }
{
    let Batch { track, samples } = batch;
    match track_at(tracks, track) {
        None => {}
        Some(i) => {
            let track = &mut tracks[i];
            track.add(samples);
        }
    }
}

/// The samples come to their tracks.
pub fn add_batches(tracks: &mut Vec<Track>, batches: Vec<Batch>)
    requires { AreReadyFor batches.items tracks.old.items }
    ensures { map fed_track tracks.new.items ≡ feed_all (map fed_track tracks.old.items) (map batch_part batches.items) }
{
    for batch in batches {
        add_batch(tracks, batch);
    }
}
