// A track of the serial play.
ghost use Rattle.std.specs.Prelude.{◌≡◌, ◌++◌, OnOk, IfOk, IsTrue};
ghost use Rattle.std.specs.List.{list_all};
ghost use Rattle.eme_types.specs.Fed.{are_well_formed};
ghost use Rattle.eme_types.specs.WellFormed.{is_well_formed};
ghost use Rattle.cdm_state.specs.OfSamples.{part_on};
ghost use Rattle.key_sessions.specs.Keys.{pick};
ghost use Rattle.serial_play.specs.Serial.{passed};
ghost use Rattle.serial_play.specs.Answer.{Passes, new_track, fed_track, moved_track};

use crate::fed::Fed;
use eme_types::{Bytes, EncSample, Fragment, TrackPart};
use key_sessions::Sessions;
use key_statuses::Picks;
use sample_crypt::open_sample;
use std::alloc::{AllocError, Global};

/// A track of the serial play: the samples that were fed on it, how many of them are out, and the bytes of these, joined.
#[derive(Drop)]
pub struct SerialTrack<'m> {
    pub id: u32,
    pub fed: Fed<'m>,
    pub count: usize,
    pub bytes: Bytes,
}

impl<'m> SerialTrack<'m> {
    /// A track without a sample. It takes no memory.
    pub fn new(alloc: Global, id: u32) -> SerialTrack<'m>
        ensures { result ≡ new_track id }
    {
        SerialTrack {
            id,
            fed: Fed::new(alloc),
            count: 0,
            bytes: Bytes::new(alloc),
        }
    }

    /// The samples of the track in a fragment are fed.
    pub fn feed(&mut self, fragment: &'m Fragment) -> Result<(), AllocError>
        requires { IsTrue (are_well_formed fragment.now) }
        ensures { OnOk result (self.new ≡ fed_track fragment.now self.old) }
    {
        for part in fragment.parts.as_slice() {
            self.feed_part(part)?;
        }
        Ok(())
    }

    /// The samples of a part are fed, if it is of the track.
    fn feed_part(&mut self, part: &'m TrackPart) -> Result<(), AllocError>
        requires { IsTrue (list_all is_well_formed part.now.samples) }
        ensures { OnOk result (self.new ≡ record self.old { fed = self.old.fed ++ part_on self.old.id part.now }) }
    {
        if part.track != self.id {
            return Ok(());
        }
        for sample in part.samples.as_slice() {
            self.fed.push(sample)?;
        }
        Ok(())
    }

    /// The count moves to the first sample, from the count on, that is protected and has no pick, or to the end; each sample passed is out.
    pub fn advance(&mut self, alloc: Global, sessions: &Sessions) -> Result<(), AllocError>
        ensures { OnOk result (self.new ≡ moved_track (pick sessions.now.machine) self.old) }
    {
        'moves: while let Some(sample) = self.fed.get(self.count) {
            if !pass(alloc, sessions, sample, &mut self.bytes)? {
                return Ok(());
            }
            self.count += 1;
        }
        Ok(())
    }
}

/// Adds what a sample gives under the picks of the sessions: its bytes where it is clear, else what its key id's pick opens. It is told
/// whether the sample gives something.
fn pass(
    alloc: Global,
    sessions: &Sessions,
    sample: &EncSample,
    bytes: &mut Bytes,
) -> Result<bool, AllocError>
    requires { IsTrue (is_well_formed sample.now) }
    ensures { IfOk result (λ gives. Passes (passed (pick sessions.now.machine) sample.now) bytes.old gives bytes.new) }
{
    let Some(protect) = &sample.protect else {
        bytes.extend_from_slice(sample.bytes.as_slice())?;
        return Ok(true);
    };
    let Some(pick) = sessions.choose(&protect.kid) else {
        return Ok(false);
    };
    let opened = open_sample(alloc, sample, &pick.key)?;
    bytes.extend_from_slice(opened.as_slice())?;
    Ok(true)
}
