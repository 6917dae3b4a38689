// A box at the top level of an MP4 file.
ghost use Rattle.std.specs.Prelude.{◌≡◌, ◌+◌, ◌<◌, ◌^◌, length};
ghost use Rattle.iso_boxes.specs.Walk.{found};
ghost use Rattle.track_media.specs.File.{GivesMedia};
ghost use Rattle.track_media.specs.Rests.{behind_movie};
ghost use Rattle.track_media.specs.Mp4.{top_box, movie_at, fragment_at, top_part_at};

use crate::kind::{MediaFault, MediaKind};
use eme_types::Fragment;
use frag_boxes::{Movie, read_moof, read_moov};
use iso_boxes::BoxRef;
use sample_aux::{MovieProtection, Room, read_protection, resolve_known};
use std::alloc::Global;

/// The types of boxes that matter at the top level.
#[derive(Clone, Copy)]
pub enum TopBox {
    Moov,
    Moof,
    Other,
}

/// A movie, and what its boxes say of protection.
#[derive(Drop)]
pub struct KnownMovie {
    pub movie: Movie,
    pub protection: MovieProtection,
}

/// What is read of one box at the top level.
#[derive(Drop)]
pub enum TopPart {
    Movie(KnownMovie),
    Fragment(Fragment),
    Other,
}

/// What a box has to know of those before it.
#[derive(Drop)]
pub struct Seen {
    pub movie: Option<KnownMovie>,
    /// What the limits leave.
    pub room: Room,
}

#[tactic(auto, unfolding(crate::specs::Mp4::top_box))]
fn top_box(kind: [u8; 4]) -> TopBox
    ensures { result ≡ top_box kind }
{
    if kind == *b"moov" {
        TopBox::Moov
    } else if kind == *b"moof" {
        TopBox::Moof
    } else {
        TopBox::Other
    }
}

#[tactic(auto, unfolding(crate::specs::Mp4::movie_at))]
fn read_movie(alloc: Global, file: &[u8], at: &BoxRef<'_>) -> Result<KnownMovie, MediaFault>
    requires { at.now.body_place + length at.now.body.now < 2 ^ 64 }
    ensures { GivesMedia result (movie_at file.now (found at.now)) }
{
    let movie = read_moov(alloc, at)?;
    let protection = read_protection(alloc, file, &movie)?;
    Ok(KnownMovie { movie, protection })
}

#[tactic(auto, unfolding(crate::specs::Mp4::fragment_at))]
fn read_fragment(
    alloc: Global,
    file: &[u8],
    movie: &KnownMovie,
    room: Room,
    at: &BoxRef<'_>,
) -> Result<Fragment, MediaFault>
    requires { at.now.body_place + length at.now.body.now < 2 ^ 64 }
    ensures { GivesMedia result (fragment_at file.now movie.now room (found at.now)) }
{
    let moof = read_moof(alloc, at)?;
    let fragment = resolve_known(alloc, file, &movie.protection, &moof, room)?;
    Ok(fragment)
}

/// Reads a box behind the movie: a fragment, or nothing.
pub fn read_behind_movie(
    alloc: Global,
    file: &[u8],
    movie: &KnownMovie,
    room: Room,
    at: &BoxRef<'_>,
) -> Result<Option<Fragment>, MediaFault>
    requires { at.now.body_place + length at.now.body.now < 2 ^ 64 }
    ensures { GivesMedia result (behind_movie file.now movie.now room (found at.now)) }
{
    match top_box(at.kind) {
        TopBox::Moov => Err(MediaFault::Refused {
            place: at.place,
            kind: MediaKind::SecondMoov,
        }),
        TopBox::Moof => {
            let fragment = read_fragment(alloc, file, movie, room, at)?;
            Ok(Some(fragment))
        }
        TopBox::Other => Ok(None),
    }
}

/// Reads a box, in the knowledge of those before it.
pub fn read_top_part(
    alloc: Global,
    file: &[u8],
    seen: &Seen,
    at: &BoxRef<'_>,
) -> Result<TopPart, MediaFault>
    requires { at.now.body_place + length at.now.body.now < 2 ^ 64 }
    ensures { GivesMedia result (top_part_at file.now seen.now (found at.now)) }
{
    let refused = |kind| MediaFault::Refused {
        place: at.place,
        kind,
    };
    match (top_box(at.kind), &seen.movie) {
        (TopBox::Moov, None) => Ok(TopPart::Movie(read_movie(alloc, file, at)?)),
        (TopBox::Moov, Some(_)) => Err(refused(MediaKind::SecondMoov)),
        (TopBox::Moof, None) => Err(refused(MediaKind::NoMoov)),
        (TopBox::Moof, Some(movie)) => {
            let fragment = read_fragment(alloc, file, movie, seen.room, at)?;
            Ok(TopPart::Fragment(fragment))
        }
        (TopBox::Other, _) => Ok(TopPart::Other),
    }
}
