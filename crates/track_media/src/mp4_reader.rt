// The movie fragments of an MP4 file one by one.
ghost use Rattle.std.specs.Prelude.{◌≡◌, ◌++◌, map, IfOk};
ghost use Rattle.frag_boxes.specs.Tracks.{track_id};
ghost use Rattle.iso_boxes.specs.Walk.{boxes_left};
ghost use Rattle.track_media.specs.File.{GivesMedia};
ghost use Rattle.track_media.specs.Front.{mp4_front};
ghost use Rattle.track_media.specs.Reader.{Advances};
ghost use Rattle.track_media.specs.Rests.{first_inits, Finds};

use crate::kind::MediaFault;
use crate::room::less_room;
use crate::top::{KnownMovie, Seen, TopPart, read_behind_movie, read_top_part};
use eme_types::{Fragment, Inits, Items, MAX_SAMPLE_BYTES, MAX_SAMPLES, TrackIds};
use frag_boxes::MovieTrack;
use iso_boxes::Boxes;
use sample_aux::{Room, init_data_of};
use std::alloc::{AllocError, Global};
use std::marker::Model;

fn track_ids(alloc: Global, tracks: &[MovieTrack]) -> Result<TrackIds, AllocError>
    ensures { IfOk result (λ ids. ids ≡ map track_id tracks.now) }
{
    let mut ids = TrackIds::new(alloc);
    for track in tracks {
        ids.push(track.id)?;
    }
    Ok(ids)
}

/// The data of both, in order.
fn joined_inits(first: Inits, second: Inits) -> Result<Inits, AllocError>
    ensures { IfOk result (λ x. x ≡ first ++ second) }
{
    let mut all = first.into_vec();
    let mut more = second.into_vec();
    all.append(&mut more)?;
    Ok(Items::from_vec(all))
}

/// Finds the next movie fragment behind the movie.
fn find_fragment(
    alloc: Global,
    file: &[u8],
    movie: &KnownMovie,
    room: Room,
    boxes: &mut Boxes<'_>,
) -> Result<Option<Fragment>, MediaFault>
    ensures { Finds file.now movie.now room result (boxes_left boxes.old) (boxes_left boxes.new) }
{
    while let Some(at) = boxes.next_box()? {
        let read = read_behind_movie(alloc, file, movie, room, &at)?;
        if let Some(fragment) = read {
            return Ok(Some(fragment));
        }
    }
    Ok(None)
}

/// The initialization data of the movie stands before that of the first fragment.
fn with_first_inits(
    alloc: Global,
    first: bool,
    file: &[u8],
    movie: &KnownMovie,
    fragment: Fragment,
) -> Result<Fragment, AllocError>
    ensures { IfOk result (λ f. f ≡ record fragment { inits = first_inits first file.now movie.now ++ fragment.inits }) }
{
    if !first {
        return Ok(fragment);
    }
    let inits = init_data_of(alloc, file, movie.movie.psshs.as_slice())?;
    let inits = joined_inits(inits, fragment.inits)?;
    Ok(Fragment {
        inits,
        parts: fragment.parts,
    })
}

/// An MP4 file behind its movie; behind its end where it has none.
#[derive(Drop)]
pub struct Mp4Reader<'a> {
    file: &'a [u8],
    tracks: TrackIds,
    movie: Option<KnownMovie>,
    /// No fragment was given.
    first: bool,
    /// What the limits leave.
    room: Room,
    boxes: Boxes<'a>,
}

impl<'a> Model for Mp4Reader<'a> {
    ghost use Rattle.track_media.specs.Front.{Front};
    ghost use Rattle.iso_boxes.specs.Walk.{boxes_left};
    ghost use Rattle.track_media.specs.Rests.{movie_coming};

    ghost Value = { Front };

    ghost view = { λ m. record { tracks = m.tracks; coming = movie_coming m.first m.file.now m.movie m.room (boxes_left m.boxes) } };
}

impl<'a> Mp4Reader<'a> {
    /// Reads the boxes up to the movie, or to the end where there is none.
    pub fn open(alloc: Global, file: &'a [u8]) -> Result<Mp4Reader<'a>, MediaFault>
        ensures { GivesMedia result (mp4_front file.entry.now) }
    {
        let room = Room {
            samples: MAX_SAMPLES,
            bytes: MAX_SAMPLE_BYTES,
        };
        let seen = Seen { movie: None, room };
        let mut boxes = Boxes::new(file, 0, true);
        while let Some(at) = boxes.next_box()? {
            let read = read_top_part(alloc, file, &seen, &at)?;
            if let TopPart::Movie(movie) = read {
                let tracks = track_ids(alloc, movie.movie.tracks.as_slice())?;
                return Ok(Mp4Reader {
                    file,
                    tracks,
                    movie: Some(movie),
                    first: true,
                    room,
                    boxes,
                });
            }
        }
        Ok(Mp4Reader {
            file,
            tracks: TrackIds::new(alloc),
            movie: None,
            first: true,
            room,
            boxes,
        })
    }

    /// The tracks, in order.
    pub fn tracks(&self) -> &TrackIds
        ensures { result.now ≡ self.now.tracks }
    {
        &self.tracks
    }

    /// The tracks, in order, and nothing else.
    pub fn into_tracks(self) -> TrackIds
        ensures { result ≡ self.entry.tracks }
    {
        self.tracks
    }

    /// The next movie fragment.
    pub fn next_fragment(&mut self, alloc: Global) -> Result<Option<Fragment>, MediaFault>
        ensures { Advances result self.old self.new }
    {
        let Some(movie) = &self.movie else {
            return Ok(None);
        };
        let mut boxes = self.boxes.copy();
        let found = find_fragment(alloc, self.file, movie, self.room, &mut boxes)?;
        match found {
            None => {
                self.boxes = boxes;
                Ok(None)
            }
            Some(fragment) => {
                let room = less_room(self.room, &fragment);
                let fragment = with_first_inits(alloc, self.first, self.file, movie, fragment)?;
                self.boxes = boxes;
                self.room = room;
                self.first = false;
                Ok(Some(fragment))
            }
        }
    }
}
