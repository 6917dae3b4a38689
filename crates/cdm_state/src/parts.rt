// What changes in a core, with the room that is kept for what may not fail: each claim's delivery, each fed sample's publication, each track's waiting.
ghost use Rattle.std.specs.Prelude.{◌≡◌, ◌≤◌, ◌<◌, ◌+◌, ◌==◌, ◌∷◌, ◌++◌, [], not, map, length, OnOk, OnErr, IfOk, IfSome};
ghost use Rattle.std.specs.List.{filter, sum_by};
ghost use Rattle.eme_types.specs.Fed.{part_samples};
ghost use Rattle.eme_types.specs.declared.limits.TheConstants.{MAX_SAMPLES};
ghost use Rattle.eme_types.specs.declared.call.Event.TheVariants.{Encrypted};
ghost use Rattle.key_claims.specs.TrackValue.{all_left, all_fed};
ghost use Rattle.key_claims.specs.Changes.{feed_all};
ghost use Rattle.key_claims.specs.Claims.{revoke_all};
ghost use Rattle.key_sessions.specs.LostPair.{pair_of};
ghost use Rattle.cdm_state.specs.Chronicle.{HasRoomFor};
ghost use Rattle.cdm_state.specs.Feeds.{parts_in, inits_in};

use crate::chronicle::Chronicle;
use crate::feed::{News, news_of};
use eme_types::{Entry, Event, Fragment};
use key_claims::Tracks;
use key_sessions::{Lost, Sessions, Step};
use std::alloc::{AllocError, Global};

/// The history with its effects, the sessions, the tracks with their claims, and the places of the claims that wait for their delivery.
#[derive(Drop)]
pub struct Parts {
    pub chronicle: Chronicle,
    pub sessions: Sessions,
    pub tracks: Tracks,
    pub undelivered: Vec<u64>,
}

impl Parts {
    /// Room for the entries that are owed and these more. Nothing else changes.
    pub fn reserve(&mut self, more: usize) -> Result<(), AllocError>
        ensures ok { OnOk result (HasRoomFor self.new.chronicle (length self.old.undelivered.items) self.old.tracks.tracks more) }
        ensures more { self.old.chronicle.room ≤ self.new.chronicle.room }
        ensures rest { self.new ≡ record self.old { chronicle = record self.old.chronicle { room = self.new.chronicle.room } } }
    {
        let wanted = match wanted(self.undelivered.len(), &self.tracks, more) {
            None => return Err(AllocError),
            Some(wanted) => wanted,
        };
        self.chronicle.reserve(wanted)
    }

    /// After a step of the sessions the claims under the keys that it ended are ended, and the entry stands with what the step did.
    pub fn record_step(&mut self, entry: Entry)
        requires { 0 < self.old.chronicle.room }
        ensures entries { self.new.chronicle.entries ≡ self.old.chronicle.entries ++ entry ∷ [] }
        ensures effects { self.new.chronicle.effects ≡ self.old.chronicle.effects ++ self.old.sessions.effects ∷ [] }
        ensures room { self.old.chronicle.room ≤ self.new.chronicle.room + 1 }
        ensures rest { self.new ≡ record self.old { chronicle = self.new.chronicle; sessions = record self.old.sessions { effects = []; lost = [] }; tracks = record self.old.tracks { claims = revoke_all self.old.sessions.lost self.old.tracks.claims } } }
    {
        let Step { effects, lost } = self.sessions.take_step();
        revoke_lost(&mut self.tracks, &lost);
        self.chronicle.append(entry, effects);
    }

    /// The samples of what is fed come to their tracks. The events of the initialization data are answered, with room to queue them.
    pub fn take_in(
        &mut self,
        alloc: Global,
        fragment: &Option<Fragment>,
    ) -> Result<Vec<Event>, AllocError>
        requires { all_fed self.old.tracks.tracks + sum_by part_samples (parts_in fragment.now) ≤ MAX_SAMPLES }
        ensures room { OnOk result (HasRoomFor self.new.chronicle (length self.old.undelivered.items) self.old.tracks.tracks (sum_by part_samples (parts_in fragment.now) + 1)) }
        ensures events_room { IfOk result (λ events. length events.items + length self.old.tracks.tracks ≤ self.new.sessions.room) }
        ensures events { IfOk result (λ events. events.items ≡ map Encrypted (inits_in fragment.now)) }
        ensures fed { OnOk result (self.new.tracks ≡ record self.old.tracks { tracks = feed_all self.old.tracks.tracks (parts_in fragment.now) }) }
        ensures unfed { OnErr result (self.new.tracks ≡ self.old.tracks) }
        ensures more { self.old.chronicle.room ≤ self.new.chronicle.room }
        ensures events_more { self.old.sessions.room ≤ self.new.sessions.room }
        ensures rest { self.new ≡ record self.old { chronicle = record self.old.chronicle { room = self.new.chronicle.room }; sessions = record self.old.sessions { room = self.new.sessions.room }; tracks = self.new.tracks } }
    {
        let News { samples, events } = news_of(alloc, fragment)?;
        self.reserve(sum(samples, 1)?)?;
        self.sessions
            .reserve_events(sum(events.len(), self.tracks.len())?)?;
        feed_tracks(&mut self.tracks, fragment)?;
        Ok(events)
    }
}

/// The entries that are still owed, with these more.
fn wanted(waits: usize, tracks: &Tracks, more: usize) -> Option<usize>
    ensures { IfSome result (λ n. n ≡ waits + length tracks.now.tracks + all_left tracks.now.tracks + more) }
{
    waits
        .checked_add(tracks.len())?
        .checked_add(tracks.left())?
        .checked_add(more)
}

fn sum(a: usize, b: usize) -> Result<usize, AllocError>
    ensures { IfOk result (λ n. n ≡ a + b) }
{
    match a.checked_add(b) {
        None => Err(AllocError),
        Some(n) => Ok(n),
    }
}

/// The samples come to their tracks; where nothing is fed, none.
fn feed_tracks(tracks: &mut Tracks, fragment: &Option<Fragment>) -> Result<(), AllocError>
    requires { all_fed tracks.old.tracks + sum_by part_samples (parts_in fragment.now) ≤ MAX_SAMPLES }
    ensures ok { OnOk result (tracks.new ≡ record tracks.old { tracks = feed_all tracks.old.tracks (parts_in fragment.now) }) }
    ensures err { OnErr result (tracks.new ≡ tracks.old) }
{
    match fragment {
        None => Ok(()),
        Some(fragment) => tracks.feed(fragment),
    }
}

/// The claims under the keys that a step of the sessions ended are ended.
fn revoke_lost(tracks: &mut Tracks, lost: &[Lost])
    ensures { tracks.new ≡ record tracks.old { claims = revoke_all (map pair_of lost.now) tracks.old.claims } }
{
    for key in lost {
        tracks.revoke(key.session, &key.kid);
    }
}

/// The claim with the place no longer waits for its delivery.
pub fn close_place(undelivered: &mut Vec<u64>, place: u64)
    ensures { undelivered.new.items ≡ filter (λ p. not (p == place)) undelivered.old.items }
{
    undelivered.retain(|other| *other != place);
}
