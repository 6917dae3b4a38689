// What the limits leave.
ghost use Rattle.std.specs.Prelude.{◌≡◌, ◌-◌};
ghost use Rattle.std.specs.List.{sum_by};
ghost use Rattle.eme_types.specs.Fed.{part_samples, sample_bytes, part_bytes};
ghost use Rattle.track_media.specs.Rests.{less_room};

use eme_types::{EncSample, Fragment, TrackPart};
use sample_aux::Room;

fn without_samples(room: u32, parts: &[TrackPart]) -> u32
    ensures { result ≡ room - sum_by part_samples parts.now }
{
    let mut left = room as usize;
    for part in parts {
        left = left.saturating_sub(part.samples.len());
    }
    left as u32
}

fn without_bytes_of(room: u64, samples: &[EncSample]) -> u64
    ensures { result ≡ room - sum_by sample_bytes samples.now }
{
    let mut left = room;
    for sample in samples {
        left = left.saturating_sub(sample.bytes.len() as u64);
    }
    left
}

fn without_bytes(room: u64, parts: &[TrackPart]) -> u64
    ensures { result ≡ room - sum_by part_bytes parts.now }
{
    let mut left = room;
    for part in parts {
        left = without_bytes_of(left, part.samples.as_slice());
    }
    left
}

/// What is left behind a fragment.
pub fn less_room(room: Room, fragment: &Fragment) -> Room
    ensures { result ≡ less_room room fragment.now }
{
    let parts = fragment.parts.as_slice();
    Room {
        samples: without_samples(room.samples, parts),
        bytes: without_bytes(room.bytes, parts),
    }
}
