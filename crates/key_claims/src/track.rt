// One track: the samples that were fed, and what is out of them.
ghost use Rattle.std.specs.Prelude.{◌≡◌, ◌≤◌, ◌<◌, ◌+◌, ◌++◌, ◌^◌, length, slice_get, MatchOption, Some, None, OnOk, map};
ghost use Rattle.key_claims.specs.TracksState.{FedTrack, track_of};
ghost use Rattle.key_claims.specs.TrackValue.{TrackValue, fed_track, left_of};
ghost use Rattle.key_claims.specs.Changes.{empty_fed, more_out, more_fed, with_waiting, find_fed, StandsAt};
ghost use Rattle.eme_types.specs.declared.sample.EncSample.{EncSample as Sample};
ghost use Rattle.key_claims.specs.Choice.{protect_at};
ghost use Rattle.cdm_world.specs.Tracks.{head};

use eme_types::{Bytes, EncSample, Protect};
use std::alloc::{AllocError, Global};
use std::marker::Model;
use task_queue::Log;

/// What is out of a fed sample.
#[derive(Drop)]
pub enum Output {
    /// The bytes of a protected sample, opened.
    Opened(Bytes),
    /// The sample is not protected: its own bytes.
    Same,
}

/// A track of the media. What is out is out in order, from the first sample, and what will be out has its room.
#[derive(Drop)]
pub struct Track {
    id: u32,
    fed: Log<EncSample>,
    outputs: Log<Output>,
    waiting: bool,
}

impl Model for Track {
    ghost use Rattle.key_claims.specs.TrackValue.{TrackValue};

    ghost Value = { TrackValue };

    ghost use Rattle.key_claims.specs.TrackKept.{value_of, IsKept};

    ghost view = { value_of };

    ghost invariant = { IsKept };
}

impl Track {
    pub fn new(alloc: Global, id: u32) -> Track
        ensures { result.track ≡ empty_fed id }
    {
        Track {
            id,
            fed: Log::new(alloc),
            outputs: Log::new(alloc),
            waiting: false,
        }
    }

    pub fn id(&self) -> u32
        ensures { result ≡ self.now.track.id }
    {
        self.id
    }

    pub fn is_waiting(&self) -> bool
        ensures { result ≡ self.now.track.waiting }
    {
        self.waiting
    }

    /// How many samples are out.
    pub fn published(&self) -> usize
        ensures items { result ≡ length self.now.track.outputs }
        ensures few { result < 2 ^ 63 }
        ensures within { length self.now.track.outputs ≤ length self.now.track.fed }
    {
        self.outputs.len()
    }

    /// How many samples were fed and are not out.
    pub fn left(&self) -> usize
        ensures { result ≡ left_of self.now.track }
    {
        self.fed.len().saturating_sub(self.outputs.len())
    }

    /// The fed sample at an index.
    pub fn sample(&self, index: usize) -> Option<&EncSample>
        ensures { MatchOption result (slice_get self.now.track.fed index ≡ None) (λ s. slice_get self.now.track.fed index ≡ Some s.now) }
    {
        let fed = self.fed.as_slice();
        if index < fed.len() {
            return Some(&fed[index]);
        }
        None
    }

    /// The head: the fed sample that is out next.
    pub fn head(&self) -> Option<&EncSample>
        ensures { MatchOption result (head (track_of self.now.track) ≡ None) (λ s. head (track_of self.now.track) ≡ Some s.now) }
    {
        self.sample(self.published())
    }

    /// What protects the sample at an index, if it is fed and protected.
    pub fn protection(&self, index: usize) -> Option<&Protect>
        ensures { MatchOption result (protect_at self.now.track.fed index ≡ None) (λ p. protect_at self.now.track.fed index ≡ Some p.now) }
    {
        let fed = self.fed.as_slice();
        if index < fed.len() {
            return fed[index].protect.as_ref();
        }
        None
    }

    /// The bytes that are out of the sample at an index.
    pub fn output(&self, index: usize) -> Option<&[u8]>
        ensures { MatchOption result (slice_get self.now.track.outputs index ≡ None) (λ x. slice_get self.now.track.outputs index ≡ Some x.now) }
    {
        let outputs = self.outputs.as_slice();
        if index >= outputs.len() {
            return None;
        }
        match &outputs[index] {
            Output::Opened(bytes) => Some(bytes.as_slice()),
            Output::Same => {
                let fed = self.fed.as_slice();
                Some(fed[index].bytes.as_slice())
            }
        }
    }

    /// Room for more samples, and for what will be out of them.
    pub fn reserve(&mut self, more: usize) -> Result<(), AllocError>
        ensures same { self.new.track ≡ self.old.track }
        ensures spare { OnOk result (more ≤ self.new.spare) }
        ensures room { OnOk result (left_of self.old.track + more ≤ self.new.room) }
    {
        let out = match self.left().checked_add(more) {
            None => return Err(AllocError),
            Some(out) => out,
        };
        self.fed.reserve(more)?;
        self.outputs.reserve(out)?;
        Ok(())
    }

    /// The samples are fed, in the room that there is for them.
    pub fn add(&mut self, samples: Vec<EncSample>)
        requires spare { length samples.items ≤ self.old.spare }
        requires room { left_of self.old.track + length samples.items ≤ self.old.room }
        ensures fed { self.new.track ≡ more_fed samples.items self.old.track }
        ensures spare { self.old.spare ≤ self.new.spare + length samples.items }
        ensures room { self.new.room ≡ self.old.room }
    {
        self.fed.put_all(samples);
    }

    /// The head is out: its opened bytes.
    pub fn put_opened(&mut self, bytes: Bytes)
        requires { length self.old.track.outputs < length self.old.track.fed }
        ensures { self.new.track ≡ more_out bytes self.old.track }
    {
        self.outputs.put(Output::Opened(bytes));
    }

    /// The head is out: its own bytes.
    pub fn put_same(&mut self)
        requires { length self.old.track.outputs < length self.old.track.fed }
        ensures { (x : Sample) → head (track_of self.old.track) ≡ Some x → self.new.track ≡ more_out x.bytes self.old.track }
    {
        self.outputs.put(Output::Same);
    }

    /// The track begins to wait for a key, or no longer waits.
    pub fn set_waiting(&mut self, waiting: bool)
        ensures { self.new ≡ record self.old { track = with_waiting waiting self.old.track } }
    {
        self.waiting = waiting;
    }
}

/// The place of the first track with the id.
pub fn track_at(tracks: &[Track], id: u32) -> Option<usize>
    ensures { MatchOption result (find_fed (map fed_track tracks.now) id ≡ None) (StandsAt (map fed_track tracks.now) id) }
{
    for (i, track) in tracks.iter().enumerate() {
        if track.id() == id {
            return Some(i);
        }
    }
    None
}
