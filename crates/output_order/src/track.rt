// What is out on a track.
ghost use Rattle.std.specs.Prelude.{◌≡◌, ◌+◌, ◌≤◌, ◌++◌, IfOk, length, take};
ghost use Rattle.std.specs.List.{concat, sum_by};
ghost use Rattle.cdm_state.specs.Output.{out};
ghost use Rattle.output_order.specs.TrackFile.{file_of};

use cdm_state::Cdm;
use eme_types::Bytes;
use std::alloc::{AllocError, Global};

/// How many samples are out on a track, and how many bytes those beyond a front of them have.
#[derive(Clone, Copy)]
pub struct Sizes {
    pub samples: u32,
    pub bytes: u64,
}

/// The sizes of what is out on a track beyond its first samples.
pub fn sizes_beyond(cdm: &Cdm, track: u32, first: u32) -> Result<Sizes, AllocError>
    requires { first ≤ length (out cdm.now.tracks cdm.now.history track) }
    ensures samples { IfOk result (λ s. s.samples ≡ length (out cdm.now.tracks cdm.now.history track)) }
    ensures bytes { IfOk result (λ s. sum_by length (out cdm.now.tracks cdm.now.history track) ≡ sum_by length (take first (out cdm.now.tracks cdm.now.history track)) + s.bytes) }
{
    let mut bytes: u64 = 0;
    for index in first..u32::MAX {
        match cdm.output(track, index) {
            Some(sample) => {
                bytes = match bytes.checked_add(sample.len() as u64) {
                    Some(more) => more,
                    None => return Err(AllocError),
                };
            }
            None => {
                return Ok(Sizes {
                    samples: index,
                    bytes,
                });
            }
        }
    }
    // No memory holds so many samples.
    Err(AllocError)
}

/// What the file of a track has beyond its first samples, and how many samples are out.
#[derive(Drop)]
pub struct TrackBeyond {
    pub bytes: Bytes,
    pub samples: u32,
}

/// What the file of a track has beyond its first samples.
pub fn track_beyond(
    alloc: Global,
    cdm: &Cdm,
    track: u32,
    first: u32,
) -> Result<TrackBeyond, AllocError>
    requires { first ≤ length (out cdm.now.tracks cdm.now.history track) }
    ensures bytes { IfOk result (λ beyond. file_of cdm.now.tracks cdm.now.history track ≡ concat (take first (out cdm.now.tracks cdm.now.history track)) ++ beyond.bytes) }
    ensures samples { IfOk result (λ beyond. beyond.samples ≡ length (out cdm.now.tracks cdm.now.history track)) }
{
    let Sizes { samples, bytes } = sizes_beyond(cdm, track, first)?;
    let mut joined = Bytes::with_capacity(alloc, bytes as usize)?;
    for index in first..samples {
        match cdm.output(track, index) {
            Some(bytes) => joined.extend_from_slice(bytes)?,
            None => unreachable!(),
        }
    }
    Ok(TrackBeyond {
        bytes: joined,
        samples,
    })
}

/// The samples that are out on a track, joined in order. An unknown track has none.
pub fn track_bytes(alloc: Global, cdm: &Cdm, track: u32) -> Result<Bytes, AllocError>
    ensures { IfOk result (λ joined. joined ≡ file_of cdm.now.tracks cdm.now.history track) }
{
    let whole = track_beyond(alloc, cdm, track, 0)?;
    Ok(whole.bytes)
}
