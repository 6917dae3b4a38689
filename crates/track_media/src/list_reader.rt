// The sections of a sample list one by one.
ghost use Rattle.std.specs.Prelude.{◌≡◌, IfOk};
ghost use Rattle.eme_types.specs.FirstFault as first;
ghost use Rattle.text_words.specs.Lines.{lines_of};
ghost use Rattle.track_media.specs.File.{GivesMedia, WantsMemory};
ghost use Rattle.track_media.specs.Front.{list_front};
ghost use Rattle.track_media.specs.Reader.{Advances};
ghost use Rattle.track_media.specs.ListLine.{line_in};
ghost use Rattle.track_media.specs.SampleList.{is_fragment, placed};
ghost use Rattle.track_media.specs.Rests.{section_read, begun, IsPlaced};
ghost use Rattle.track_media.specs.SectionViews.{section_seen};

use crate::gathering::Gathered;
use crate::kind::{LineFault, MediaFault};
use crate::line::{Known, ListLine, read_line};
use eme_types::{Copies, Fragment, TrackIds};
use std::alloc::Global;
use std::marker::Model;
use text_words::next_line;

/// Reads the line at a place.
fn line_at(alloc: Global, known: &Known, place: u64, line: &[u8]) -> Result<ListLine, MediaFault>
    ensures { GivesMedia result (placed place (line_in known.now line.now)) }
{
    match read_line(alloc, known, line) {
        Ok(line) => Ok(line),
        Err(LineFault::Broken(kind)) => Err(MediaFault::Refused { place, kind }),
        Err(LineFault::OutOfMemory) => Err(MediaFault::OutOfMemory),
    }
}

/// The lines up to a `fragment` line or the end, gathered, and the text behind them with its place.
#[derive(Drop)]
pub struct Section<'a> {
    gathered: Gathered,
    /// A `fragment` line was met.
    more: bool,
    place: u64,
    text: &'a [u8],
}

fn begins_fragment(line: &ListLine) -> bool
    ensures { result ≡ is_fragment line.now }
{
    matches!(line, ListLine::Fragment)
}

/// Gathers the lines up to the next `fragment` line or the end.
fn read_section<'a>(
    alloc: Global,
    start: Gathered,
    start_place: u64,
    text: &'a [u8],
) -> Result<Section<'a>, MediaFault>
    requires { IsPlaced start_place text.now }
    ensures value { first.Gives WantsMemory section_seen result (section_read start start_place (lines_of text.entry.now)) }
    ensures placed { IfOk result (λ s. IsPlaced s.place s.text.now) }
{
    let mut gathered = start;
    let mut rest = text;
    let mut place = start_place;
    'lines: while let Some(next) = next_line(rest) {
        let line = line_at(alloc, &gathered.known, place, next.0)?;
        place = place + next.0.len() as u64 + 1;
        rest = next.1;
        if begins_fragment(&line) {
            return Ok(Section {
                gathered,
                more: true,
                place,
                text: rest,
            });
        }
        gathered.add(line)?;
    }
    Ok(Section {
        gathered,
        more: false,
        place,
        text: rest,
    })
}

/// A sample list from a `fragment` line on, or at its end.
#[derive(Drop)]
pub struct ListReader<'a> {
    known: Known,
    /// A section is still to be read.
    more: bool,
    place: u64,
    text: &'a [u8],
}

impl<'a> Model for ListReader<'a> {
    ghost use Rattle.track_media.specs.Front.{Front};
    ghost use Rattle.text_words.specs.Lines.{lines_of};
    ghost use Rattle.track_media.specs.Rests.{section_coming, IsBehindFragment};

    ghost Value = { Front };

    ghost view = { λ l. record { tracks = l.known.tracks; coming = section_coming l.more l.known l.place (lines_of l.text.now) } };

    ghost invariant = { λ l. IsBehindFragment l.known l.place l.text.now };
}

/// Behind a `fragment` line.
fn begun(known: Known) -> Known
    ensures { result ≡ begun known }
{
    Known {
        begun: true,
        ..known
    }
}

impl<'a> ListReader<'a> {
    /// Reads the lines behind the header, which has 7 bytes, up to the first `fragment` line.
    pub fn open(alloc: Global, text: &'a [u8]) -> Result<ListReader<'a>, MediaFault>
        ensures { GivesMedia result (list_front text.entry.now) }
    {
        match read_section(alloc, Gathered::new(alloc), 7, text) {
            Ok(section) => Ok(ListReader {
                known: begun(section.gathered.into_known()),
                more: section.more,
                place: section.place,
                text: section.text,
            }),
            Err(refusal) => Err(refusal),
        }
    }

    /// The tracks, in order.
    pub fn tracks(&self) -> &TrackIds
        ensures { result.now ≡ self.now.tracks }
    {
        &self.known.tracks
    }

    /// The tracks, in order, and nothing else.
    pub fn into_tracks(self) -> TrackIds
        ensures { result ≡ self.entry.tracks }
    {
        self.known.tracks
    }

    /// The next section as a fragment.
    pub fn next_fragment(&mut self, alloc: Global) -> Result<Option<Fragment>, MediaFault>
        ensures { Advances result self.old self.new }
    {
        if !self.more {
            return Ok(None);
        }
        let gathered = Gathered::section(alloc, &self.known)?;
        match read_section(alloc, gathered, self.place, self.text) {
            Ok(section) => {
                let (fragment, known) = section.gathered.into_fragment(alloc)?;
                self.known = begun(known);
                self.more = section.more;
                self.place = section.place;
                self.text = section.text;
                Ok(Some(fragment))
            }
            Err(fault) => Err(fault),
        }
    }
}
