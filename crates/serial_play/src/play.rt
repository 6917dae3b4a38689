// The serial play, line by line.
ghost use Rattle.std.specs.Prelude.{◌≡◌, ℕ, List, map, slice_get, OnOk, IfOk, IsTrue};
ghost use Rattle.std.specs.List.{list_all};
ghost use Rattle.eme_types.specs.Fed.{are_well_formed};
ghost use Rattle.key_sessions.specs.Keys.{pick};
ghost use Rattle.play_parts.specs.Asks.{left_by};
ghost use Rattle.script_lang.specs.Paced.{settles};
ghost use Rattle.script_lang.specs.Script.{moment_fits, moment_after};
ghost use Rattle.script_lang.specs.declared.script.Action.TheVariants.{Feed};
ghost use Rattle.serial_play.specs.Serial.{Serial, unplayed, line_step};
ghost use Rattle.serial_play.specs.Answer.{fed_track, moved_track, new_track, Begins, Stands};

use crate::track::SerialTrack;
use crate::work::{serve, tell};
use eme_types::{Fragment, Media};
use key_sessions::Sessions;
use script_lang::Action;
use std::alloc::{AllocError, Global};

/// The serial play so far: the sessions, the tracks, and the fragments that are not fed yet.
#[derive(Drop)]
pub struct SerialPlay<'m> {
    pub sessions: Sessions,
    pub tracks: Vec<SerialTrack<'m>>,
    pub left: &'m [Fragment],
}

/// Tracks without a sample.
fn new_tracks<'m>(alloc: Global, ids: &[u32]) -> Result<Vec<SerialTrack<'m>>, AllocError>
    ensures { IfOk result (λ tracks. tracks.items ≡ map new_track ids.now) }
{
    let mut tracks = Vec::new(alloc);
    for id in ids {
        tracks.push(SerialTrack::new(alloc, *id))?;
    }
    Ok(tracks)
}

/// The samples of a fragment are fed, each on its track.
fn feed_tracks<'m>(tracks: &mut [SerialTrack<'m>], fragment: &'m Fragment) -> Result<(), AllocError>
    requires { IsTrue (are_well_formed fragment.now) }
    ensures { OnOk result (tracks.new ≡ map (fed_track fragment.now) tracks.old) }
{
    for track in tracks.iter_mut() {
        track.feed(fragment)?;
    }
    Ok(())
}

/// Each track moves.
fn advance_tracks(
    alloc: Global,
    tracks: &mut [SerialTrack<'_>],
    sessions: &Sessions,
) -> Result<(), AllocError>
    ensures { OnOk result (tracks.new ≡ map (moved_track (pick sessions.now.machine)) tracks.old) }
{
    for track in tracks.iter_mut() {
        track.advance(alloc, sessions)?;
    }
    Ok(())
}

impl<'m> SerialPlay<'m> {
    /// Before the first line.
    pub fn new(alloc: Global, media: &'m Media) -> Result<SerialPlay<'m>, AllocError>
        ensures stands { IfOk result (λ play. Stands media.now.tracks unplayed play) }
        ensures left { IfOk result (λ play. play.left.now ≡ media.now.fragments) }
    {
        let tracks = new_tracks(alloc, media.tracks.as_slice())?;
        Ok(SerialPlay {
            sessions: Sessions::new(alloc),
            tracks,
            left: media.fragments.as_slice(),
        })
    }

    /// The next fragment is fed, or none past the last.
    fn feed(&mut self) -> Result<(), AllocError>
        requires { IsTrue (list_all are_well_formed self.old.left.now) }
        ensures { OnOk result (Begins self.old Feed self.new) }
    {
        let [fragment, rest @ ..] = self.left else {
            return Ok(());
        };
        tell(&mut self.sessions, fragment)?;
        feed_tracks(self.tracks.as_mut_slice(), fragment)?;
        self.left = rest;
        Ok(())
    }

    /// Does what a line asks, but for its job and its tasks.
    fn begin(&mut self, action: &Action) -> Result<(), AllocError>
        requires formed { IsTrue (list_all are_well_formed self.old.left.now) }
        requires moment { IsTrue (moment_fits self.old.sessions.machine.moment action.now) }
        ensures { OnOk result (Begins self.old action.now self.new) }
    {
        match action {
            Action::Ask(call) => {
                self.sessions.call(call)?;
            }
            Action::Feed => self.feed()?,
            Action::Clock(moment) => self.sessions.tick(*moment)?,
            Action::Evict(label) => {
                self.sessions.evict(label.as_slice())?;
            }
            Action::Settle => {}
        }
        Ok(())
    }

    /// Does what a line asks, and at once its job and its tasks, and then each track moves. A settle does nothing.
    pub fn line(&mut self, alloc: Global, action: &Action) -> Result<(), AllocError>
        requires formed { IsTrue (list_all are_well_formed self.old.left.now) }
        requires moment { IsTrue (moment_fits self.old.sessions.machine.moment action.now) }
        ensures stands { OnOk result ((tracks : List ℕ) (s : Serial) → Stands tracks s self.old → Stands tracks (line_step action.now (slice_get self.old.left.now 0) s) self.new) }
        ensures left { OnOk result (self.new.left.now ≡ left_by self.old.left.now action.now) }
        ensures moment { OnOk result (self.new.sessions.machine.moment ≡ moment_after self.old.sessions.machine.moment action.now) }
    {
        if is_settle(action) {
            return Ok(());
        }
        self.begin(action)?;
        serve(&mut self.sessions)?;
        advance_tracks(alloc, self.tracks.as_mut_slice(), &self.sessions)?;
        Ok(())
    }
}

/// Whether an action is `settle`.
pub fn is_settle(action: &Action) -> bool
    ensures { result ≡ settles action.now }
{
    match action {
        Action::Settle => true,
        Action::Ask(_) | Action::Feed | Action::Clock(_) | Action::Evict(_) => false,
    }
}
