// What is gathered of a sample list.
ghost use Rattle.std.specs.Prelude.{◌≡◌, ◌-◌, [], map, filter, position, false, IfOk, OnOk};
ghost use Rattle.eme_types.specs.Fed.{has_samples};
ghost use Rattle.track_media.specs.Gathering.{nothing, pushed, is_of, empty_part, less_room};

use crate::line::{Known, ListLine};
use eme_types::{
    Copies, EncSample, Fragment, Inits, MAX_SAMPLE_BYTES, MAX_SAMPLES, Parts, Samples, TrackIds,
    TrackPart,
};
use std::alloc::{AllocError, Global};
use std::marker::Model;

/// What the lines have to know, and the open section with one part for each track.
#[derive(Drop)]
pub struct Gathered {
    pub known: Known,
    inits: Inits,
    parts: Vec<TrackPart>,
}

impl Model for Gathered {
    ghost use Rattle.std.specs.Prelude.{[]};
    ghost use Rattle.track_media.specs.Gathering.{Gathering};

    ghost Value = { Gathering };

    ghost view = { λ g. record { known = g.known; fragments = []; inits = g.inits; parts = g.parts.items } };
}

/// The parts that have samples, in order.
fn kept(alloc: Global, parts: Vec<TrackPart>) -> Result<Parts, AllocError>
    ensures { IfOk result (λ k. k ≡ filter has_samples parts.items) }
{
    let mut kept = Parts::new(alloc);
    for part in parts {
        if part.samples.len() != 0 {
            kept.push(part)?;
        }
    }
    Ok(kept)
}

/// A part without samples for each track.
fn empty_parts(alloc: Global, tracks: &[u32]) -> Result<Vec<TrackPart>, AllocError>
    ensures { IfOk result (λ parts. parts.items ≡ map empty_part tracks.now) }
{
    let mut parts = Vec::new(alloc);
    for track in tracks {
        parts.push(TrackPart {
            track: *track,
            samples: Samples::new(alloc),
        })?;
    }
    Ok(parts)
}

/// The part of a track.
fn part_place(parts: &[TrackPart], id: u32) -> Option<usize>
    ensures { result ≡ position (is_of id) parts.now }
{
    parts.iter().position(|part| part.track == id)
}

/// Puts a sample behind those of its track.
fn push_sample(parts: &mut Vec<TrackPart>, id: u32, sample: EncSample) -> Result<(), AllocError>
    ensures { OnOk result (parts.new.items ≡ pushed id sample parts.old.items) }
{
    match part_place(parts, id) {
        Some(i) => parts[i].samples.push(sample),
        None => Ok(()),
    }
}

impl Known {
    ghost use Rattle.track_media.specs.Gathering.{less_room};

    fn take_room(&mut self, bytes: u64)
        ensures { self.new ≡ record self.old { samples = self.old.samples - 1; bytes = self.old.bytes - bytes } }
    {
        self.samples = self.samples.saturating_sub(1);
        self.bytes = self.bytes.saturating_sub(bytes);
    }
}

impl Gathered {
    ghost use Rattle.track_media.specs.Gathering.{nothing, added, open_fragment};
    ghost use Rattle.track_media.specs.SampleList.{is_fragment};
    ghost use Rattle.track_media.specs.Rests.{section_of};

    /// Nothing yet.
    pub fn new(alloc: Global) -> Gathered
        ensures { result ≡ nothing }
    {
        Gathered {
            known: Known {
                tracks: TrackIds::new(alloc),
                begun: false,
                samples: MAX_SAMPLES,
                bytes: MAX_SAMPLE_BYTES,
            },
            inits: Inits::new(alloc),
            parts: Vec::new(alloc),
        }
    }

    /// Nothing yet of the section behind a `fragment` line.
    pub fn section(alloc: Global, known: &Known) -> Result<Gathered, AllocError>
        ensures { IfOk result (λ g. g ≡ section_of known.now) }
    {
        let tracks = known.tracks.copy()?;
        let parts = empty_parts(alloc, known.tracks.as_slice())?;
        Ok(Gathered {
            known: Known {
                tracks,
                begun: known.begun,
                samples: known.samples,
                bytes: known.bytes,
            },
            inits: Inits::new(alloc),
            parts,
        })
    }

    /// What the lines behind have to know.
    pub fn into_known(self) -> Known
        ensures { result ≡ self.known }
    {
        self.known
    }

    /// The open fragment, and what the lines behind it have to know.
    pub fn into_fragment(self, alloc: Global) -> Result<(Fragment, Known), AllocError>
        ensures { IfOk result (λ x. x ≡ (open_fragment self, self.known)) }
    {
        let Gathered {
            known,
            inits,
            parts,
        } = self;
        let parts = kept(alloc, parts)?;
        Ok((Fragment { inits, parts }, known))
    }

    /// Adds a line of the section.
    pub fn add(&mut self, line: ListLine) -> Result<(), AllocError>
        requires { is_fragment line ≡ false }
        ensures { OnOk result (self.new ≡ added self.old line) }
    {
        match line {
            ListLine::Track(id) => self.known.tracks.push(id),
            ListLine::Fragment => Ok(()),
            ListLine::Init(init) => self.inits.push(init),
            ListLine::Sample(id, sample) => {
                let bytes = sample.bytes.len() as u64;
                push_sample(&mut self.parts, id, sample)?;
                self.known.take_room(bytes);
                Ok(())
            }
        }
    }
}
