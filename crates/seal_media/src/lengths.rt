// How long boxes and samples are. Sums are taken from a room, so that none can wrap.
ghost use Rattle.std.specs.Prelude.{◌≡◌, ◌+◌, ◌-◌, ◌*◌, ◌≤◌, length, sum_by, nat_lt, is_none, IfSome};
ghost use Rattle.eme_types.specs.Fed.{sample_bytes, part_bytes, part_samples};
ghost use Rattle.eme_types.specs.declared.limits.TheConstants.{MAX_TRACKS, MAX_MEDIA_BYTES};
ghost use Rattle.seal_media.specs.Lengths.{track_length, entry_length, traf_length, moof_length, moov_length, fragment_length, sealed_length};

use eme_types::{EncSample, Fragment, MAX_MEDIA_BYTES, Media, Scheme, TrackPart};

fn track_length(scheme: Scheme) -> u64
    ensures { result ≡ track_length scheme }
{
    match scheme {
        Scheme::Cenc => 290,
        Scheme::Cbcs => 307,
    }
}

fn entry_length(scheme: Scheme) -> u64
    ensures { result ≡ entry_length scheme }
{
    match scheme {
        Scheme::Cenc => 20,
        Scheme::Cbcs => 12,
    }
}

// What is left of the room behind the bytes of samples.
fn without_samples(room: u64, samples: &[EncSample]) -> u64
    ensures { result ≡ room - sum_by sample_bytes samples.now }
{
    let mut left = room;
    for sample in samples {
        left = left.saturating_sub(sample.bytes.len() as u64);
    }
    left
}

// What is left of it behind the bytes of all samples of parts.
fn without_parts(room: u64, parts: &[TrackPart]) -> u64
    ensures { result ≡ room - sum_by part_bytes parts.now }
{
    let mut left = room;
    for part in parts {
        left = without_samples(left, part.samples.as_slice());
    }
    left
}

// What is left of it behind the track fragment of a part.
fn without_traf(room: u64, scheme: Scheme, part: &TrackPart) -> u64
    ensures { result ≡ room - traf_length scheme part.now }
{
    let entries = (part.samples.len() as u64).saturating_mul(entry_length(scheme));
    room.saturating_sub(60).saturating_sub(entries)
}

// What is left of it behind the track fragments of parts.
fn without_trafs(room: u64, scheme: Scheme, parts: &[TrackPart]) -> u64
    ensures { result ≡ room - sum_by (traf_length scheme) parts.now }
{
    let mut left = room;
    for part in parts {
        left = without_traf(left, scheme, part);
    }
    left
}

// What is left of it behind the boxes of a fragment.
fn without_fragment(room: u64, scheme: Scheme, fragment: &Fragment) -> u64
    ensures { result ≡ room - fragment_length scheme fragment.now }
{
    let parts = fragment.parts.as_slice();
    let left = without_trafs(room.saturating_sub(16), scheme, parts);
    without_parts(left, parts)
}

// What is left of it behind the boxes of all fragments.
fn without_fragments(room: u64, scheme: Scheme, fragments: &[Fragment]) -> u64
    ensures { result ≡ room - sum_by (fragment_length scheme) fragments.now }
{
    let mut left = room;
    for fragment in fragments {
        left = without_fragment(left, scheme, fragment);
    }
    left
}

/// The length of the file, where it is no longer than a media file may be; none where it is.
pub(crate) fn length_of(scheme: Scheme, media: &Media) -> Option<u64>
    requires { length media.now.tracks ≤ MAX_TRACKS }
    ensures length { IfSome result (λ n. n ≡ sealed_length scheme media.now) }
    ensures none { is_none result ≡ nat_lt MAX_MEDIA_BYTES (sealed_length scheme media.now) }
{
    let movie = 68 + media.tracks.len() as u64 * track_length(scheme);
    let room = MAX_MEDIA_BYTES + 1;
    let left = without_fragments(room - movie, scheme, media.fragments.as_slice());
    if left == 0 {
        return None;
    }
    Some(room - left)
}

/// The bytes of samples.
pub(crate) fn bytes_of_samples(samples: &[EncSample]) -> u64
    requires { sum_by sample_bytes samples.now ≤ MAX_MEDIA_BYTES }
    ensures { result ≡ sum_by sample_bytes samples.now }
{
    MAX_MEDIA_BYTES - without_samples(MAX_MEDIA_BYTES, samples)
}

/// The bytes of all samples of parts.
pub(crate) fn bytes_of_parts(parts: &[TrackPart]) -> u64
    requires { sum_by part_bytes parts.now ≤ MAX_MEDIA_BYTES }
    ensures { result ≡ sum_by part_bytes parts.now }
{
    MAX_MEDIA_BYTES - without_parts(MAX_MEDIA_BYTES, parts)
}

/// The length of the `moof` of parts.
pub(crate) fn moof_length(scheme: Scheme, parts: &[TrackPart]) -> u64
    requires { moof_length scheme parts.now ≤ MAX_MEDIA_BYTES }
    ensures { result ≡ moof_length scheme parts.now }
{
    MAX_MEDIA_BYTES - without_trafs(MAX_MEDIA_BYTES, scheme, parts) + 8
}
