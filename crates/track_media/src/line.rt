// One line of a sample list.
ghost use Rattle.std.specs.Prelude.{◌≡◌, length, IfOk, Ok, Err};
ghost use Rattle.track_media.specs.Text.{words_of};
ghost use Rattle.track_media.specs.ListLine.{Gives, track_line, fragment_line, init_line, verb_line, line_in, sample_line};

use crate::kind::{LineFault, MediaKind};
use crate::number::track_id;
use crate::sample::sample_line;
use crate::words::{data_in, has_empty_word, init_kind, one_word, two_words};
use eme_types::{EncSample, InitData, MAX_TRACKS, Scheme, TrackIds};
use std::alloc::Global;
use text_words::Pieces;

/// A line of a sample list.
#[derive(Drop)]
pub enum ListLine {
    Track(u32),
    Fragment,
    Init(InitData),
    /// A sample of the track with this id.
    Sample(u32, EncSample),
}

/// What a line has to know of those before it.
#[derive(Drop)]
pub struct Known {
    pub tracks: TrackIds,
    /// A fragment began.
    pub begun: bool,
    /// How many samples the limit leaves.
    pub samples: u32,
    /// How many bytes of samples the limit leaves.
    pub bytes: u64,
}

/// A scheme with its pattern, in blocks.
#[derive(Clone, Copy)]
pub struct Mode {
    pub scheme: Scheme,
    pub crypt: u8,
    pub skip: u8,
}

/// A rule on the form of a line is broken.
pub const LINE: LineFault = LineFault::Broken(MediaKind::Line);

impl Known {
    ghost use Rattle.eme_types.specs.Fed.{is_among};

    /// The track was named.
    pub fn has_track(&self, id: u32) -> bool
        ensures { result ≡ is_among self.now.tracks id }
    {
        self.tracks.as_slice().iter().any(|track| *track == id)
    }
}

#[tactic(auto, unfolding(crate::specs::ListLine::track_line))]
fn track_line(known: &Known, words: Pieces<'_>) -> Result<ListLine, LineFault>
    ensures { Gives result (track_line known.now words.entry) }
{
    let Some(word) = one_word(words) else {
        return Err(LINE);
    };
    let Some(id) = track_id(word) else {
        return Err(LINE);
    };
    if known.begun {
        return Err(LINE);
    }
    if known.has_track(id) {
        return Err(LineFault::Broken(MediaKind::TrackId));
    }
    if known.tracks.len() >= MAX_TRACKS {
        return Err(LineFault::Broken(MediaKind::TooManyTracks));
    }
    Ok(ListLine::Track(id))
}

fn fragment_line(known: &Known, mut words: Pieces<'_>) -> Result<ListLine, LineFault>
    ensures { Gives result (fragment_line words.entry) }
{
    match words.next() {
        None => Ok(ListLine::Fragment),
        Some(_) => Err(LINE),
    }
}

#[tactic(auto, unfolding(crate::specs::ListLine::init_line))]
fn init_line(alloc: Global, known: &Known, words: Pieces<'_>) -> Result<ListLine, LineFault>
    ensures { Gives result (init_line known.now words.entry) }
{
    let Some((kind, bytes)) = two_words(words) else {
        return Err(LINE);
    };
    let Some(kind) = init_kind(kind) else {
        return Err(LINE);
    };
    if !known.begun {
        return Err(LINE);
    }
    let Some(bytes) = data_in(alloc, bytes)? else {
        return Err(LineFault::Broken(MediaKind::Hex));
    };
    Ok(ListLine::Init(InitData { kind, bytes }))
}

/// By the line's first word.
#[tactic(auto, unfolding(crate::specs::ListLine::verb_line))]
fn verb_line(alloc: Global, known: &Known, mut words: Pieces<'_>) -> Result<ListLine, LineFault>
    ensures { Gives result (verb_line known.now words.entry) }
{
    let Some(verb) = words.next() else {
        return Err(LINE);
    };
    if verb == b"track".as_slice() {
        track_line(known, words)
    } else if verb == b"fragment".as_slice() {
        fragment_line(known, words)
    } else if verb == b"init".as_slice() {
        init_line(alloc, known, words)
    } else if verb == b"sample".as_slice() {
        sample_line(alloc, known, words)
    } else {
        Err(LINE)
    }
}

/// Reads a line, in the knowledge of those before it.
#[tactic(auto, unfolding(crate::specs::ListLine::line_in))]
pub fn read_line(alloc: Global, known: &Known, line: &[u8]) -> Result<ListLine, LineFault>
    ensures { Gives result (line_in known.now line.now) }
{
    if has_empty_word(line) {
        return Err(LINE);
    }
    verb_line(alloc, known, Pieces::new(line, b' '))
}
