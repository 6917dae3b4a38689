// A movie.
ghost use Rattle.std.specs.Prelude.{◌≡◌, ◌+◌, ◌<◌, ◌≤◌, ◌^◌, length, map, [], OnOk, IfOk, codes, is_some, find, ◌==◌};
ghost use Rattle.iso_boxes.specs.Walk.{found};
ghost use Rattle.frag_boxes.specs.Moof.{GivesBox};
ghost use Rattle.frag_boxes.specs.Moov.{among, Seen, moov_box, trak_box, tkhd_at, trak_part_at, trak_at, moov_part_at, moov_at, mvex_part_at, mvex_at, trex_of, with_trex};
ghost use Rattle.frag_boxes.specs.Tracks.{HasTracks};
ghost use Rattle.frag_boxes.specs.Places.{MovieLies};
ghost use Rattle.frag_boxes.specs.Counts.{movie_items};
ghost use Rattle.frag_boxes.specs.Extents.{movie_bytes};
ghost use Rattle.frag_boxes.specs.Gathering.{trak_added, moov_added, trex_added, whole_moov};

use crate::fault::{FragFault, FragKind};
use crate::moof::span_of;
use crate::reading::{read_tkhd, read_trex};
use crate::records::{Movie, MovieTrack, MovieTracks, Span, Spans, TrackTrex, TrackTrexes, Trex};
use crate::table::{Table, mdia_of, table_or_none};
use eme_types::{Items, MAX_TRACKS};
use iso_boxes::{BoxRef, Boxes};
use std::alloc::{AllocError, Global};

/// The types of boxes that matter in a `moov`.
#[derive(Clone, Copy)]
pub enum MoovBox {
    Trak,
    Mvex,
    Pssh,
    Other,
}

/// The types of boxes that matter in a `trak`.
#[derive(Clone, Copy)]
pub enum TrakBox {
    Tkhd,
    Mdia,
    Other,
}

/// What is read of one box of a track.
#[derive(Drop)]
pub enum TrakPart {
    Id(u32),
    Samples(Table),
    Other,
}

/// What is read of one box of a movie.
#[derive(Drop)]
pub enum MoovPart {
    Track(MovieTrack),
    Defaults(TrackTrexes),
    Pssh(Span),
    Other,
}

#[tactic(auto, unfolding(crate::specs::Moov::moov_box))]
fn moov_box(kind: [u8; 4]) -> MoovBox
    ensures { result ≡ moov_box kind }
{
    if kind == *b"trak" {
        MoovBox::Trak
    } else if kind == *b"mvex" {
        MoovBox::Mvex
    } else if kind == *b"pssh" {
        MoovBox::Pssh
    } else {
        MoovBox::Other
    }
}

#[tactic(auto, unfolding(crate::specs::Moov::trak_box))]
fn trak_box(kind: [u8; 4]) -> TrakBox
    ensures { result ≡ trak_box kind }
{
    if kind == *b"tkhd" {
        TrakBox::Tkhd
    } else if kind == *b"mdia" {
        TrakBox::Mdia
    } else {
        TrakBox::Other
    }
}

fn is_among(tracks: &[MovieTrack], id: u32) -> bool
    ensures { result ≡ among id tracks.now }
{
    for t in tracks {
        if t.id == id {
            return true;
        }
    }
    false
}

#[tactic(auto, unfolding(crate::specs::Moov::tkhd_at))]
fn tkhd_of(tracks: &[MovieTrack], at: &BoxRef<'_>) -> Result<u32, FragFault>
    ensures { GivesBox result (tkhd_at tracks.now (found at.now)) }
{
    let id = match read_tkhd(at.body) {
        Ok((id, _)) => id,
        Err(kind) => {
            return Err(FragFault {
                place: at.place,
                kind,
            });
        }
    };
    if is_among(tracks, id) {
        return Err(FragFault {
            place: at.place,
            kind: FragKind::SecondTrack,
        });
    }
    Ok(id)
}

/// What was gathered of a track.
#[derive(Drop)]
pub struct TrakParts {
    id: Option<u32>,
    table: Option<Table>,
}

impl TrakParts {
    fn add(&mut self, part: TrakPart)
        ensures { self.new ≡ trak_added self.old part }
    {
        match part {
            TrakPart::Id(id) => {
                if self.id.is_none() {
                    self.id = Some(id);
                }
            }
            TrakPart::Samples(table) => {
                if self.table.is_none() {
                    self.table = Some(table);
                }
            }
            TrakPart::Other => {}
        }
    }
}

fn read_trak_part(
    alloc: Global,
    tracks: &[MovieTrack],
    has_id: bool,
    has_media: bool,
    at: &BoxRef<'_>,
) -> Result<TrakPart, FragFault>
    requires { at.now.body_place + length at.now.body.now < 2 ^ 64 }
    ensures { GivesBox result (trak_part_at tracks.now (record { tkhd = has_id; mdia = has_media }) (found at.now)) }
{
    match trak_box(at.kind) {
        TrakBox::Tkhd => {
            if has_id {
                Ok(TrakPart::Other)
            } else {
                Ok(TrakPart::Id(tkhd_of(tracks, at)?))
            }
        }
        TrakBox::Mdia => {
            if has_media {
                Ok(TrakPart::Other)
            } else {
                Ok(TrakPart::Samples(mdia_of(alloc, at)?))
            }
        }
        TrakBox::Other => Ok(TrakPart::Other),
    }
}

fn trak_of(alloc: Global, tracks: &[MovieTrack], at: &BoxRef<'_>) -> Result<MovieTrack, FragFault>
    requires { at.now.body_place + length at.now.body.now < 2 ^ 64 }
    ensures { GivesBox result (trak_at tracks.now (found at.now)) }
{
    let mut parts = TrakParts {
        id: None,
        table: None,
    };
    let mut boxes = Boxes::new(at.body, at.body_place, false);
    while let Some(inner) = boxes.next_box()? {
        let part = read_trak_part(
            alloc,
            tracks,
            parts.id.is_some(),
            parts.table.is_some(),
            &inner,
        )?;
        parts.add(part);
    }
    match parts.id {
        Some(id) => {
            let table = table_or_none(alloc, parts.table);
            Ok(MovieTrack {
                place: at.place,
                id,
                entries: table.entries,
                trex: None,
                groups: table.groups,
            })
        }
        None => Err(FragFault {
            place: at.place,
            kind: FragKind::NoTrackId,
        }),
    }
}

/// What was gathered of a movie.
#[derive(Drop)]
pub struct MoovParts {
    tracks: MovieTracks,
    trexes: TrackTrexes,
    psshs: Spans,
}

impl MoovParts {
    fn new(alloc: Global) -> MoovParts
        ensures { result ≡ record { tracks = []; trexes = []; psshs = [] } }
    {
        MoovParts {
            tracks: Items::new(alloc),
            trexes: Items::new(alloc),
            psshs: Items::new(alloc),
        }
    }

    fn add(&mut self, part: MoovPart) -> Result<(), AllocError>
        ensures { OnOk result (self.new ≡ moov_added self.old part) }
    {
        match part {
            MoovPart::Track(track) => self.tracks.push(track),
            MoovPart::Defaults(trexes) => self.trexes.extend_from_slice(trexes.as_slice()),
            MoovPart::Pssh(span) => self.psshs.push(span),
            MoovPart::Other => Ok(()),
        }
    }
}

fn read_moov_part(
    alloc: Global,
    tracks: &[MovieTrack],
    at: &BoxRef<'_>,
) -> Result<MoovPart, FragFault>
    requires { at.now.body_place + length at.now.body.now < 2 ^ 64 }
    ensures { GivesBox result (moov_part_at tracks.now (found at.now)) }
{
    match moov_box(at.kind) {
        MoovBox::Trak => {
            if tracks.len() < MAX_TRACKS {
                Ok(MoovPart::Track(trak_of(alloc, tracks, at)?))
            } else {
                Err(FragFault {
                    place: at.place,
                    kind: FragKind::TooManyTracks,
                })
            }
        }
        MoovBox::Mvex => Ok(MoovPart::Defaults(mvex_of(alloc, at)?)),
        MoovBox::Pssh => Ok(MoovPart::Pssh(span_of(at))),
        MoovBox::Other => Ok(MoovPart::Other),
    }
}

#[tactic(auto, unfolding(crate::specs::Moov::mvex_part_at))]
fn read_mvex_part(at: &BoxRef<'_>) -> Result<Option<TrackTrex>, FragFault>
    ensures { GivesBox result (mvex_part_at (found at.now)) }
{
    if at.kind == *b"trex" {
        match read_trex(at.place, at.body) {
            Ok((trex, _)) => Ok(Some(trex)),
            Err(kind) => Err(FragFault {
                place: at.place,
                kind,
            }),
        }
    } else {
        Ok(None)
    }
}

fn push_trex(trexes: &mut TrackTrexes, trex: Option<TrackTrex>) -> Result<(), AllocError>
    ensures { OnOk result (trexes.new ≡ trex_added trexes.old trex) }
{
    match trex {
        Some(trex) => trexes.push(trex),
        None => Ok(()),
    }
}

fn mvex_of(alloc: Global, at: &BoxRef<'_>) -> Result<TrackTrexes, FragFault>
    requires { at.now.body_place + length at.now.body.now < 2 ^ 64 }
    ensures { GivesBox result (mvex_at (found at.now)) }
{
    let mut parts = Items::new(alloc);
    let mut boxes = Boxes::new(at.body, at.body_place, false);
    while let Some(inner) = boxes.next_box()? {
        let part = read_mvex_part(&inner)?;
        push_trex(&mut parts, part)?;
    }
    Ok(parts)
}

/// The first `trex` with the id of a track.
fn trex_of(trexes: &[TrackTrex], id: u32) -> Option<Trex>
    ensures { result ≡ trex_of id trexes.now }
{
    for t in trexes {
        if t.track == id {
            return Some(t.trex);
        }
    }
    None
}

fn with_trex(trexes: &[TrackTrex], track: MovieTrack) -> MovieTrack
    ensures { result ≡ with_trex trexes.now track }
{
    let trex = trex_of(trexes, track.id);
    MovieTrack {
        place: track.place,
        id: track.id,
        entries: track.entries,
        trex,
        groups: track.groups,
    }
}

fn with_trexes(
    alloc: Global,
    tracks: Vec<MovieTrack>,
    trexes: &[TrackTrex],
) -> Result<MovieTracks, AllocError>
    ensures { IfOk result (λ x. x ≡ map (with_trex trexes.now) tracks.items) }
{
    let mut out = Items::new(alloc);
    for track in tracks {
        out.push(with_trex(trexes, track))?;
    }
    Ok(out)
}

fn movie_from(alloc: Global, place: u64, parts: MoovParts) -> Result<Movie, AllocError>
    ensures { IfOk result (λ x. x ≡ whole_moov place parts) }
{
    let tracks = with_trexes(alloc, parts.tracks.into_vec(), parts.trexes.as_slice())?;
    Ok(Movie {
        place,
        tracks,
        psshs: parts.psshs,
    })
}

fn moov_of(alloc: Global, at: &BoxRef<'_>) -> Result<Movie, FragFault>
    requires { at.now.body_place + length at.now.body.now < 2 ^ 64 }
    ensures { GivesBox result (moov_at (found at.now)) }
{
    let mut parts = MoovParts::new(alloc);
    let mut boxes = Boxes::new(at.body, at.body_place, false);
    while let Some(inner) = boxes.next_box()? {
        let part = read_moov_part(alloc, parts.tracks.as_slice(), &inner)?;
        parts.add(part)?;
    }
    let movie = movie_from(alloc, at.place, parts)?;
    Ok(movie)
}

/// Reads a movie, whose type is not looked at. Of several `tkhd`, `mdia`, `minf`, `stbl` or `stsd` in one box the first is read, and
/// the others are passed over. The condition is that the place behind the box is a `u64`.
#[tactic(auto, using(crate::proofs::Few::few_in_movie, crate::proofs::Inside::movie_lies, crate::proofs::Extents::movie_takes, crate::proofs::Tracks::tracks_in_movie))]
pub fn read_moov(alloc: Global, at: &BoxRef<'_>) -> Result<Movie, FragFault>
    requires { at.now.body_place + length at.now.body.now < 2 ^ 64 }
    ensures exact { GivesBox result (moov_at (found at.now)) }

    // all its lists together
    ensures bounded { IfOk result (λ movie. movie_items movie ≤ length at.now.body.now) }

    // its spans
    ensures inside { IfOk result (MovieLies (found at.now)) }

    // what initialization data is read from
    ensures extents { IfOk result (λ movie. movie_bytes movie ≤ length at.now.body.now) }
    ensures tracks { IfOk result (λ movie. HasTracks movie) }
{
    moov_of(alloc, at)
}
