// A movie fragment resolved.
ghost use Rattle.std.specs.Prelude.{◌≡◌, ◌^◌, ◌≤◌, ◌++◌, length, [], ◌∷◌, filter, IfOk, OnOk, IsTrue};
ghost use Rattle.std.specs.List.{sum_by};
ghost use Rattle.std.specs.Option.{option_map};
ghost use Rattle.eme_types.specs.Fed.{has_samples, are_known, is_joined, are_well_formed, fragment_samples, fragment_bytes};
ghost use Rattle.frag_boxes.specs.Extents.{span_bytes};
ghost use Rattle.frag_boxes.specs.Tracks.{track_ids};
ghost use Rattle.sample_aux.specs.Bounds.{fragment_init_bytes, FragmentHasFewSubs};
ghost use Rattle.sample_aux.specs.Faults.{Gives};
ghost use Rattle.sample_aux.specs.Near.{IsNear, EndsNear};
ghost use Rattle.sample_aux.specs.Resolve.{track_with, entry_with, traf_resolved, trafs_resolved, met, put_part, put_left, all_joined, fragment_of, known_resolved, resolved};
ghost use Rattle.sample_aux.specs.Checked.{protected_ids};

use crate::fault::{AuxFault, AuxKind};
use crate::groups::protection_of;
use crate::inits::init_data_of;
use crate::laying::{DataCursor, base_of, runs_laid};
use crate::protection::{MovieProtection, TrackProtection, known_protection};
use crate::samples::samples_of;
use eme_types::{Fragment, Items, Parts, Samples, TrackPart};
use frag_boxes::{Moof, Movie, Traf};
use std::alloc::{AllocError, Global};

/// What the limits leave: samples, and bytes of samples.
#[derive(Clone, Copy, Debug)]
pub struct Room {
    pub samples: u32,
    pub bytes: u64,
}

fn track_with(id: u32, tracks: &[TrackProtection]) -> Option<&TrackProtection>
    ensures { option_map (λ t. t.now) result ≡ track_with id tracks.now }
{
    for track in tracks {
        if track.id == id {
            return Some(track);
        }
    }
    None
}

fn entry_with<T>(index: u32, entries: &[T]) -> Option<&T>
    ensures { option_map (λ e. e.now) result ≡ entry_with index entries.now }
{
    if index == 0 {
        None
    } else {
        entries.get((index - 1) as usize)
    }
}

/// The samples of a track fragment, and the cursor behind them. `start` is the place of the `moof`.
#[tactic(auto, unfolding(crate::specs::Resolve::traf_resolved))]
fn resolve_traf(
    alloc: Global,
    file: &[u8],
    known: &MovieProtection,
    start: u64,
    cursor: DataCursor,
    traf: &Traf,
) -> Result<(TrackPart, DataCursor), AuxFault>
    requires { IsNear (2 ^ 98) cursor.at }
    ensures gives { Gives (λ x. x) result (traf_resolved file.now known.now start cursor traf.now) }
    ensures near { IfOk result (λ x. EndsNear cursor.at x.1.at) }
{
    let fault = |kind| AuxFault {
        place: traf.tfhd.place,
        kind,
    };
    let Some(track) = track_with(traf.tfhd.track, known.tracks.as_slice()) else {
        return Err(fault(AuxKind::UnknownTrack));
    };
    let Some(trex) = track.trex else {
        return Err(fault(AuxKind::NoTrex));
    };
    let index = traf.tfhd.description.unwrap_or(trex.description);
    let Some(entry) = entry_with(index, track.entries.as_slice()) else {
        return Err(fault(AuxKind::Description));
    };
    let base = base_of(start, &traf.tfhd, cursor);
    let size = traf.tfhd.size.unwrap_or(trex.size);
    let (ranges, next) = runs_laid(alloc, file.len() as u64, size, base, traf.runs.as_slice())?;
    let protection = protection_of(alloc, file, *entry, &track.groups, traf, ranges.len())?;
    let samples = samples_of(alloc, file, traf, base, ranges.as_slice(), &protection)?;
    let part = TrackPart {
        track: track.id,
        samples,
    };
    Ok((part, next))
}

/// The samples of both, in order.
fn joined_samples(first: Samples, second: Samples) -> Result<Samples, AllocError>
    ensures { IfOk result (λ x. x ≡ first ++ second) }
{
    let mut all = first.into_vec();
    let mut more = second.into_vec();
    all.append(&mut more)?;
    Ok(Items::from_vec(all))
}

/// A part, and the new one behind it where it is of the same track; else the new one is left.
fn met(
    part: TrackPart,
    new: Option<TrackPart>,
) -> Result<(TrackPart, Option<TrackPart>), AllocError>
    ensures { IfOk result (λ x. x ≡ met part new) }
{
    match new {
        None => Ok((part, None)),
        Some(new) => {
            if part.track == new.track {
                let samples = joined_samples(part.samples, new.samples)?;
                let part = TrackPart {
                    track: part.track,
                    samples,
                };
                Ok((part, None))
            } else {
                Ok((part, Some(new)))
            }
        }
    }
}

/// The parts, and behind them the one that is left.
fn ended(parts: Parts, left: Option<TrackPart>) -> Result<Vec<TrackPart>, AllocError>
    ensures { IfOk result (λ x. x.items ≡ parts ++ put_left [] left) }
{
    let mut all = parts;
    match left {
        None => Ok(all.into_vec()),
        Some(part) => {
            all.push(part)?;
            Ok(all.into_vec())
        }
    }
}

fn put_part(
    alloc: Global,
    parts: Vec<TrackPart>,
    part: TrackPart,
) -> Result<Vec<TrackPart>, AllocError>
    ensures { IfOk result (λ x. x.items ≡ put_part parts.items part) }
{
    let mut all = Parts::new(alloc);
    let mut left = Some(part);
    for one in parts {
        let (kept, rest) = met(one, left)?;
        all.push(kept)?;
        left = rest;
    }
    ended(all, left)
}

/// The parts of all track fragments in order, joined by track.
fn resolve_trafs(
    alloc: Global,
    file: &[u8],
    known: &MovieProtection,
    start: u64,
    begin: DataCursor,
    trafs: &[Traf],
) -> Result<Vec<TrackPart>, AuxFault>
    requires { IsNear (2 ^ 64) begin.at }
    ensures { Gives (λ x. x.items) result (all_joined [] (trafs_resolved file.now known.now start begin trafs.now)) }
{
    let mut parts = Vec::new(alloc);
    let mut cursor = begin;
    for traf in trafs {
        let (part, next) = resolve_traf(alloc, file, known, start, cursor, traf)?;
        let joined = put_part(alloc, parts, part)?;
        parts = joined;
        cursor = next;
    }
    Ok(parts)
}

/// Adds a part, if it has samples.
fn keep(parts: &mut Parts, part: TrackPart) -> Result<(), AllocError>
    ensures { OnOk result (parts.new ≡ parts.old ++ filter has_samples (part ∷ [])) }
{
    if part.samples.len() == 0 {
        return Ok(());
    }
    parts.push(part)
}

fn with_samples(alloc: Global, parts: Vec<TrackPart>) -> Result<Parts, AllocError>
    ensures { IfOk result (λ x. x ≡ filter has_samples parts.items) }
{
    let mut all = Items::new(alloc);
    for part in parts {
        keep(&mut all, part)?;
    }
    Ok(all)
}

/// The samples of a movie fragment with their protection, within the room that the limits leave
/// (ISO/IEC 14496-12 section 8.8, ISO/IEC 23001-7). `movie` and `moof` are those that stand in `file`. The initialization
/// data is that of the `moof` alone.
pub fn resolve(
    alloc: Global,
    file: &[u8],
    movie: &Movie,
    moof: &Moof,
    room: Room,
) -> Result<Fragment, AuxFault>
    ensures exact { Gives (λ x. x) result (resolved file.now movie.now moof.now room) }
    ensures known { IfOk result (λ x. IsTrue (are_known (track_ids movie.now) x)) }
    ensures joined { IfOk result (λ x. IsTrue (is_joined x)) }
    ensures formed { IfOk result (λ x. IsTrue (are_well_formed x)) }
    ensures samples { IfOk result (λ x. fragment_samples x ≤ room.samples) }
    ensures bytes { IfOk result (λ x. fragment_bytes x ≤ room.bytes) }
    ensures inits { IfOk result (λ x. length x.inits ≤ 1) }

    // no more than the boxes have
    ensures init_bytes { IfOk result (λ x. fragment_init_bytes x ≤ sum_by span_bytes moof.now.psshs) }
    ensures subs { IfOk result (FragmentHasFewSubs (length file.now)) }
{
    let known = known_protection(alloc, file, movie)?;
    resolve_known(alloc, file, &known, moof, room)
}

/// The same, by what was read of the movie.
pub fn resolve_known(
    alloc: Global,
    file: &[u8],
    known: &MovieProtection,
    moof: &Moof,
    room: Room,
) -> Result<Fragment, AuxFault>
    ensures exact { Gives (λ x. x) result (known_resolved file.now known.now moof.now room) }
    ensures known { IfOk result (λ x. IsTrue (are_known (protected_ids known.now) x)) }
    ensures joined { IfOk result (λ x. IsTrue (is_joined x)) }
    ensures formed { IfOk result (λ x. IsTrue (are_well_formed x)) }
    ensures samples { IfOk result (λ x. fragment_samples x ≤ room.samples) }
    ensures bytes { IfOk result (λ x. fragment_bytes x ≤ room.bytes) }
    ensures inits { IfOk result (λ x. length x.inits ≤ 1) }

    // no more than the boxes have
    ensures init_bytes { IfOk result (λ x. fragment_init_bytes x ≤ sum_by span_bytes moof.now.psshs) }
    ensures subs { IfOk result (FragmentHasFewSubs (length file.now)) }
{
    resolve_all(alloc, file, known, moof, room)
}

/// The same, by its definition alone.
#[tactic(auto, unfolding(crate::specs::Resolve::known_resolved))]
fn resolve_all(
    alloc: Global,
    file: &[u8],
    known: &MovieProtection,
    moof: &Moof,
    room: Room,
) -> Result<Fragment, AuxFault>
    ensures { Gives (λ x. x) result (known_resolved file.now known.now moof.now room) }
{
    let begin = DataCursor {
        at: i128::from(moof.place),
        samples: room.samples,
        bytes: room.bytes,
    };
    let parts = resolve_trafs(alloc, file, known, moof.place, begin, moof.trafs.as_slice())?;
    let parts = with_samples(alloc, parts)?;
    let inits = init_data_of(alloc, file, moof.psshs.as_slice())?;
    Ok(Fragment { inits, parts })
}
