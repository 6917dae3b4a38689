// The fragments of a media file one by one.
ghost use Rattle.std.specs.Prelude.{◌≡◌, IfOk};
ghost use Rattle.eme_types.specs.Fed.{IsFed};
ghost use Rattle.track_media.specs.File.{GivesMedia};
ghost use Rattle.track_media.specs.Front.{front, to_come, EndsAsItsFile};
ghost use Rattle.track_media.specs.Reader.{Advances};

use crate::kind::MediaFault;
use crate::list_reader::ListReader;
use crate::mp4_reader::Mp4Reader;
use eme_types::{Fragment, TrackIds};
use std::alloc::Global;
use std::marker::Model;

/// What is left of a file.
#[derive(Drop)]
enum Rest<'a> {
    List(ListReader<'a>),
    Mp4(Mp4Reader<'a>),
}

/// Reads a media file fragment by fragment. It is seen as the tracks and what comes of the file: the fragments that are still
/// to be given, and the rule that is broken behind them, if one is. The file is not copied, and the protection of its movie is
/// read once.
#[derive(Drop)]
pub struct MediaReader<'a> {
    alloc: Global,
    rest: Rest<'a>,
}

impl<'a> Model for MediaReader<'a> {
    ghost use Rattle.track_media.specs.Front.{Front, to_come};
    ghost use Rattle.eme_types.specs.Fed.{IsFed};

    ghost Value = { Front };

    ghost use Rattle.track_media.specs.RestViews.{rest_seen};

    ghost view = { λ r. rest_seen r.rest };

    ghost invariant = { λ r. IsFed (to_come (rest_seen r.rest)) };
}

impl<'a> MediaReader<'a> {
    /// Reads a file as far as its tracks are known: MP4 to the end of its first `moov`, a sample list to its first `fragment`
    /// line, both to the end where there is none. A rule that is broken before refuses the file.
    #[tactic(auto, unfolding(crate::specs::Front::front))]
    pub fn open(alloc: Global, bytes: &'a [u8]) -> Result<MediaReader<'a>, MediaFault>
        ensures value { GivesMedia result (front bytes.entry.now) }
        ensures fed { IfOk result (λ r. IsFed (to_come r)) }
    {
        match bytes.strip_prefix(b"SMPL 1\n") {
            Some(text) => {
                let rest = Rest::List(ListReader::open(alloc, text)?);
                Ok(MediaReader { alloc, rest })
            }
            None => {
                let rest = Rest::Mp4(Mp4Reader::open(alloc, bytes)?);
                Ok(MediaReader { alloc, rest })
            }
        }
    }

    /// The tracks, in order.
    pub fn tracks(&self) -> &TrackIds
        ensures value { result.now ≡ self.now.tracks }
        ensures fed { IsFed (to_come self.now) }
    {
        match &self.rest {
            Rest::List(list) => list.tracks(),
            Rest::Mp4(boxes) => boxes.tracks(),
        }
    }

    /// The tracks, in order, and nothing else.
    pub fn into_tracks(self) -> TrackIds
        ensures { result ≡ self.entry.tracks }
    {
        match self.rest {
            Rest::List(list) => list.into_tracks(),
            Rest::Mp4(boxes) => boxes.into_tracks(),
        }
    }

    /// Reads to the end of the next fragment: in MP4 the end of its `moof` and what that resolves, in a sample list the next
    /// `fragment` line or the end. None at the end. A refusal comes again at each further call.
    pub fn next_fragment(&mut self) -> Result<Option<Fragment>, MediaFault>
        ensures value { Advances result self.old self.new }

        // what comes may be fed
        ensures fed { IsFed (to_come self.old) }
    {
        let alloc = self.alloc;
        match &mut self.rest {
            Rest::List(list) => list.next_fragment(alloc),
            Rest::Mp4(boxes) => boxes.next_fragment(alloc),
        }
    }
}

/// A file is media where its front ends without a broken rule, and then those of the front; else it is refused as the front
/// ends.
pub fn a_file_ends_as_its_front()
    ensures { EndsAsItsFile }
{}
