// What the boxes of a movie say of protection, read once.
ghost use Rattle.std.specs.Prelude.{◌≡◌, Ok, map, IfOk};
ghost use Rattle.sample_aux.specs.Faults.{Gives};
ghost use Rattle.sample_aux.specs.InOrder.{each_passes};
ghost use Rattle.sample_aux.specs.Checked.{entry_protection, track_protection, movie_protection, part_passes, protection_passes, movie_passes, protected_ids};
ghost use Rattle.frag_boxes.specs.Tracks.{track_ids};

use crate::checked::{entry_protection, groups_in};
use crate::fault::{AuxFault, AuxKind};
use eme_types::Items;
use frag_boxes::{Movie, MovieTrack, SampleEntry, Trex};
use prot_boxes::{Seigs, Sinf};
use std::alloc::Global;

/// What protects the samples of each sample entry, each or why it is refused.
pub type EntryProtections = Items<Result<Option<Sinf>, AuxFault>>;

/// What a track fragment looks up of its track.
#[derive(Drop)]
pub struct TrackProtection {
    pub id: u32,
    pub trex: Option<Trex>,
    pub entries: EntryProtections,
    /// The groups that the boxes of the track describe, or why they are refused.
    pub groups: Result<Seigs, AuxFault>,
}

/// What a movie fragment looks up of its movie.
#[derive(Drop)]
pub struct MovieProtection {
    pub tracks: Items<TrackProtection>,
}

/// What a definition gives, or its refusal. Want of memory alone is answered as it is.
fn settled<T>(told: Result<T, AuxFault>) -> Result<Result<T, AuxFault>, AuxFault>
    ensures { (read : _) → Gives (λ x. x) told read → Gives (λ x. x) result (Ok read) }
{
    match told {
        Ok(part) => Ok(Ok(part)),
        Err(fault) => match fault.kind {
            AuxKind::OutOfMemory => Err(fault),
            _ => Ok(Err(fault)),
        },
    }
}

fn read_entry(
    alloc: Global,
    file: &[u8],
    entry: &SampleEntry,
) -> Result<Result<Option<Sinf>, AuxFault>, AuxFault>
    ensures { Gives (λ x. x) result (Ok (entry_protection file.now entry.now)) }
{
    settled(entry_protection(alloc, file, entry))
}

fn read_entries(
    alloc: Global,
    file: &[u8],
    entries: &[SampleEntry],
) -> Result<EntryProtections, AuxFault>
    ensures { Gives (λ x. x) result (Ok (map (λ entry. entry_protection file.now entry) entries.now)) }
{
    let mut told = Items::new(alloc);
    for entry in entries {
        let one = read_entry(alloc, file, entry)?;
        told.push(one)?;
    }
    Ok(told)
}

fn read_track(alloc: Global, file: &[u8], track: &MovieTrack) -> Result<TrackProtection, AuxFault>
    ensures { Gives (λ x. x) result (Ok (track_protection file.now track.now)) }
{
    let entries = read_entries(alloc, file, track.entries.as_slice())?;
    let groups = settled(groups_in(alloc, file, track.groups.as_slice()))?;
    Ok(TrackProtection {
        id: track.id,
        trex: track.trex,
        entries,
        groups,
    })
}

/// Reads what the boxes of a movie say of protection, also where a part of it is refused.
pub fn known_protection(
    alloc: Global,
    file: &[u8],
    movie: &Movie,
) -> Result<MovieProtection, AuxFault>
    ensures { Gives (λ x. x) result (Ok (movie_protection file.now movie.now)) }
{
    let mut tracks = Items::new(alloc);
    for track in movie.tracks.as_slice() {
        let one = read_track(alloc, file, track)?;
        tracks.push(one)?;
    }
    Ok(MovieProtection { tracks })
}

fn check_part<T>(told: &Result<T, AuxFault>) -> Result<(), AuxFault>
    ensures { result ≡ part_passes told.now }
{
    match told {
        Ok(_) => Ok(()),
        Err(fault) => Err(*fault),
    }
}

fn check_entries(entries: &[Result<Option<Sinf>, AuxFault>]) -> Result<(), AuxFault>
    ensures { result ≡ each_passes part_passes entries.now }
{
    for told in entries {
        check_part(told)?;
    }
    Ok(())
}

#[tactic(auto, unfolding(crate::specs::Checked::protection_passes))]
fn check_track(track: &TrackProtection) -> Result<(), AuxFault>
    ensures { result ≡ protection_passes track.now }
{
    check_entries(track.entries.as_slice())?;
    check_part(&track.groups)
}

fn check_tracks(tracks: &[TrackProtection]) -> Result<(), AuxFault>
    ensures { result ≡ each_passes protection_passes tracks.now }
{
    for track in tracks {
        check_track(track)?;
    }
    Ok(())
}

/// Reads, for each track in order, the `sinf` boxes of its sample entries and then its group descriptions
/// (ISO/IEC 14496-12 sections 8.12 and 8.9.3), and keeps what they say.
pub fn read_protection(
    alloc: Global,
    file: &[u8],
    movie: &Movie,
) -> Result<MovieProtection, AuxFault>
    ensures exact { Gives (λ x. tt) result (movie_passes file.now movie.now) }
    ensures value { IfOk result (λ x. x ≡ movie_protection file.now movie.now) }
    ensures ids { IfOk result (λ x. protected_ids x ≡ track_ids movie.now) }
{
    let known = known_protection(alloc, file, movie)?;
    check_tracks(known.tracks.as_slice())?;
    Ok(known)
}

/// Checks a movie's protection: the same, and nothing is kept.
pub fn check_movie(alloc: Global, file: &[u8], movie: &Movie) -> Result<(), AuxFault>
    ensures exact { Gives (λ x. x) result (movie_passes file.now movie.now) }
{
    let _known = read_protection(alloc, file, movie)?;
    Ok(())
}
