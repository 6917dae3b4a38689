// The tracks of the media, and the calls that feed, claim and publish their samples.
ghost use Rattle.std.specs.Prelude.{◌≡◌, ◌≤◌, ◌<◌, ◌+◌, [], ◌∷◌, ◌++◌, true, map, length, slice_get, slice_index_or, MatchOption, IfOk, OnOk, OnErr, IsErrOf, Some, None, IsTrue, is_some};
ghost use Rattle.std.specs.List.{filter};
ghost use Rattle.eme_types.specs.Fed.{fragment_samples, are_distinct};
ghost use Rattle.eme_types.specs.declared.limits.TheConstants.{MAX_SAMPLES};
ghost use Rattle.eme_types.specs.declared.sample.EncSample.{EncSample as Sample};
ghost use Rattle.cdm_world.specs.Tracks.{head};
ghost use Rattle.key_claims.specs.TracksState.{FedTrack, track_of};
ghost use Rattle.key_claims.specs.TrackValue.{TrackValue, fed_track, resumed_value, left_of, all_left, all_fed};
ghost use Rattle.key_claims.specs.Claims.{is_other, revoked};
ghost use Rattle.key_claims.specs.Changes.{empty_fed, changed_at, more_out, with_waiting, feed_all, find_fed, outputs_of, head_of, waits, resumed_one};
ghost use Rattle.key_claims.specs.Choice.{protect_at, NoWork, NoneReady, NoneIs, has_clear_head, is_unkeyed, rests, AllRest, IsUnrested, IsNext};
ghost use Rattle.key_claims.specs.Contract.{AreBelow, HoldsWork, Claims as Claimed, Delivers, IsReadyNow, Publishes, PublishesReady, PassesClear, BeginsToWait, IsBusy};
ghost use Rattle.key_claims.specs.Kept.{AreSound};
ghost use Rattle.key_claims.specs.Fits.{MayDeliver};
ghost use Rattle.sample_crypt.specs.Decryption.{decryption};

use crate::choice::{
    Work, find_clear, find_ready, find_unkeyed, find_unrested, find_work, has_pick,
};
use crate::claim::{Claim, ClaimFault, Delivered, NotReady, NotWaiting, Published, Ready};
use crate::claims::Claims;
use crate::feed::{add_batches, batches_of, reserve_batches};
use crate::slots::Held;
use crate::track::{Track, track_at};
use eme_types::{Bytes, Copies, EncSample, Fragment, KeyId, TrackIds};
use key_statuses::Picks;
use std::alloc::{AllocError, Global};
use std::marker::Model;

/// The tracks in order, and the claims on their samples.
#[derive(Drop)]
pub struct Tracks {
    alloc: Global,
    tracks: Vec<Track>,
    claims: Claims,
}

impl Model for Tracks {
    ghost use Rattle.key_claims.specs.TracksState.{TracksState};

    ghost Value = { TracksState };

    ghost use Rattle.key_claims.specs.Kept.{state_of, IsKept};

    ghost view = { state_of };

    ghost invariant = { IsKept };
}

impl Tracks {
    /// Tracks without a sample.
    pub fn new(alloc: Global, ids: &TrackIds) -> Result<Tracks, AllocError>
        requires { IsTrue (are_distinct ids.now) }
        ensures { IfOk result (λ t. t ≡ record { tracks = map empty_fed ids.now; claims = [] }) }
    {
        Ok(Tracks {
            alloc,
            tracks: empty_tracks(alloc, ids.as_slice())?,
            claims: Claims::new(alloc),
        })
    }

    /// The number of tracks.
    pub fn len(&self) -> usize
        ensures count { result ≡ length self.now.tracks }
        ensures sound { AreSound self.now }
    {
        self.tracks.len()
    }

    /// How many fed samples are not out.
    pub fn left(&self) -> usize
        ensures { result ≡ all_left self.now.tracks }
    {
        all_left_of(&self.tracks)
    }

    /// The samples of a fragment come to their tracks, with room for what will be out of them.
    pub fn feed(&mut self, fragment: &Fragment) -> Result<(), AllocError>
        requires { all_fed self.old.tracks + fragment_samples fragment.now ≤ MAX_SAMPLES }
        ensures ok { OnOk result (self.new ≡ record self.old { tracks = feed_all self.old.tracks fragment.now.parts }) }
        ensures err { OnErr result (self.new ≡ self.old) }
    {
        let batches = batches_of(self.alloc, fragment.parts.as_slice())?;
        reserve_batches(&mut self.tracks, &batches)?;
        add_batches(&mut self.tracks, batches);
        Ok(())
    }

    /// A claim on the first sample that can be claimed. Its place is that of its entry in the history.
    pub fn claim<P: Picks>(
        &mut self,
        worker: u8,
        place: u64,
        sessions: &P,
    ) -> Result<Claim, ClaimFault>
        requires { AreBelow place self.old.claims }
        ensures ok { IfOk result (λ c. Claimed (P.picks sessions.now) self.old worker place c self.new) }
        ensures err { OnErr result (self.new ≡ self.old) }
        ensures no_work { IsErrOf result ClaimFault.NoWork → NoWork (P.picks sessions.now) self.old.claims self.old.tracks }
    {
        match find_work(sessions, &self.claims, &self.tracks) {
            None => Err(ClaimFault::NoWork),
            Some(work) => {
                hold_work(&mut self.claims, &self.tracks[work.at], work, worker, place)
            }
        }
    }

    /// The clear bytes of a claim come back.
    pub fn deliver(&mut self, claim: Claim, clear: Bytes) -> Delivered
        requires in_hand { MayDeliver self.old claim }
        requires clear { clear ≡ decryption claim.sample claim.key }
        ensures { Delivers self.old claim.place clear result self.new }
    {
        match self.claims.deliver(claim.place, clear) {
            None => Delivered::Taken,
            Some(back) => Delivered::Stale(back),
        }
    }

    /// A claim is given up.
    pub fn give_up(&mut self, claim: Claim)
        ensures { self.new ≡ record self.old { claims = filter (is_other claim.place) self.old.claims } }
    {
        self.claims.end(claim.place);
    }

    /// A session lost its key under an id: the claims under it are ended.
    pub fn revoke(&mut self, session: u32, kid: &KeyId)
        ensures { self.new ≡ record self.old { claims = revoked session kid.now self.old.claims } }
    {
        self.claims.revoke(session, kid);
    }

    /// What `publish` would put out.
    pub fn ready(&self) -> Option<Ready>
        ensures { MatchOption result (NoneReady self.now.claims self.now.tracks) (IsReadyNow self.now) }
    {
        match find_ready(&self.claims, &self.tracks) {
            None => None,
            Some((at, place)) => {
                let next = next_of(&self.tracks, at);
                Some(Ready {
                    track: next.track,
                    index: next.index,
                    place,
                })
            }
        }
    }

    /// The first track whose next sample was delivered under a claim that is not ended puts it out.
    pub fn publish(&mut self) -> Result<Published, NotReady>
        ensures ok { IfOk result (λ p. Publishes self.old p self.new) }
        ensures err { OnErr result (self.new ≡ self.old) }
        ensures not_ready { OnErr result (NoneReady self.old.claims self.old.tracks) }
    {
        let ready = self.publish_ready()?;
        Ok(Published {
            track: ready.track,
            index: ready.index,
        })
    }

    /// As `publish`, and it tells the place of the claim too.
    pub fn publish_ready(&mut self) -> Result<Ready, NotReady>
        ensures ok { IfOk result (λ r. PublishesReady self.old r self.new) }
        ensures err { OnErr result (self.new ≡ self.old) }
        ensures not_ready { OnErr result (NoneReady self.old.claims self.old.tracks) }
    {
        match find_ready(&self.claims, &self.tracks) {
            None => Err(NotReady),
            Some((at, place)) => {
                let next = next_of(&self.tracks, at);
                let clear = self.claims.take(place);
                put_opened(&mut self.tracks, at, clear);
                Ok(Ready {
                    track: next.track,
                    index: next.index,
                    place,
                })
            }
        }
    }

    /// The first track whose next sample is unprotected puts it out.
    pub fn pass_clear(&mut self) -> Result<Published, NotReady>
        ensures ok { IfOk result (λ p. PassesClear self.old p self.new) }
        ensures err { OnErr result (self.new ≡ self.old) }
        ensures not_ready { OnErr result (NoneIs has_clear_head self.old.tracks) }
    {
        match find_clear(&self.tracks) {
            None => Err(NotReady),
            Some(at) => {
                let next = next_of(&self.tracks, at);
                put_same(&mut self.tracks, at);
                Ok(next)
            }
        }
    }

    /// The first track whose head has neither a claim nor a pick begins to wait.
    pub fn wait_for_key<P: Picks>(&mut self, sessions: &P) -> Result<u32, NotWaiting>
        ensures ok { IfOk result (λ t. BeginsToWait (P.picks sessions.now) self.old t self.new) }
        ensures err { OnErr result (self.new ≡ self.old) }
        ensures not_waiting { OnErr result (NoneIs (is_unkeyed (P.picks sessions.now) self.old.claims) self.old.tracks) }
    {
        match find_unkeyed(sessions, &self.claims, &self.tracks) {
            None => Err(NotWaiting),
            Some(at) => {
                let track = self.tracks[at].id();
                begin_to_wait(&mut self.tracks, at);
                Ok(track)
            }
        }
    }

    /// The waiting tracks whose head has a pick no longer wait.
    pub fn resume<P: Picks>(&mut self, sessions: &P)
        ensures { self.new ≡ record self.old { tracks = map (resumed_one (P.picks sessions.now)) self.old.tracks } }
    {
        resume_all(sessions, &mut self.tracks);
    }

    /// The bytes that are out of the sample at an index of a track.
    pub fn output(&self, track: u32, index: u32) -> Option<&[u8]>
        ensures { MatchOption result (slice_get (outputs_of (find_fed self.now.tracks track)) index ≡ None) (λ x. slice_get (outputs_of (find_fed self.now.tracks track)) index ≡ Some x.now) }
    {
        match track_at(&self.tracks, track) {
            None => None,
            Some(i) => self.tracks[i].output(index as usize),
        }
    }

    /// The head of a track: its fed sample that is out next. None where the track is unknown or all that was fed is out.
    pub fn head(&self, track: u32) -> Option<&EncSample>
        ensures { MatchOption result (head_of (find_fed self.now.tracks track) ≡ None) (λ s. head_of (find_fed self.now.tracks track) ≡ Some s.now) }
    {
        match track_at(&self.tracks, track) {
            None => None,
            Some(i) => self.tracks[i].head(),
        }
    }

    /// Whether the track waits for a key.
    pub fn waiting(&self, track: u32) -> bool
        ensures { result ≡ waits (find_fed self.now.tracks track) }
    {
        match track_at(&self.tracks, track) {
            None => false,
            Some(i) => self.tracks[i].is_waiting(),
        }
    }

    /// The first track that has not published all that was fed and is not waiting at a head without a pick.
    pub fn unrested<P: Picks>(&self, sessions: &P) -> Option<u32>
        ensures { MatchOption result (AllRest (rests (P.picks sessions.now)) self.now.tracks) (IsBusy (P.picks sessions.now) self.now.tracks) }
    {
        match find_unrested(sessions, &self.tracks) {
            None => None,
            Some(at) => Some(self.tracks[at].id()),
        }
    }
}

fn empty_tracks(alloc: Global, ids: &[u32]) -> Result<Vec<Track>, AllocError>
    ensures { IfOk result (λ tracks. map fed_track tracks.items ≡ map empty_fed ids.now) }
{
    let mut tracks = Vec::new(alloc);
    for id in ids {
        tracks.push(Track::new(alloc, *id))?;
    }
    Ok(tracks)
}

fn all_left_of(tracks: &Vec<Track>) -> usize
    requires { all_fed (map fed_track tracks.now.items) ≤ MAX_SAMPLES }
    ensures { result ≡ all_left (map fed_track tracks.now.items) }
{
    let mut all = 0usize;
    for track in tracks {
        all += track.left();
    }
    all
}

/// The claim on the sample of a track: it is kept, and answered with a copy of the sample.
fn hold_work(
    claims: &mut Claims,
    track: &Track,
    work: Work,
    worker: u8,
    place: u64,
) -> Result<Claim, ClaimFault>
    requires few { length track.now.track.fed ≤ MAX_SAMPLES }
    requires protected { is_some (protect_at track.now.track.fed work.index) ≡ true }
    ensures ok { IfOk result (λ c. HoldsWork claims.old track.now.track work worker place c claims.new) }
    ensures err { OnErr result (claims.new ≡ claims.old) }
    ensures memory { IsErrOf result ClaimFault.NoWork → ⊥ }
{
    let Some(sample) = track.sample(work.index) else {
        unreachable!()
    };
    let Some(protect) = &sample.protect else {
        unreachable!()
    };
    let copied = match sample.copy() {
        Err(_) => return Err(ClaimFault::OutOfMemory),
        Ok(copied) => copied,
    };
    let held = Held {
        place,
        worker,
        track: track.id(),
        index: work.index as u32,
        key: work.key,
    };
    if claims.hold(held, work.session, &protect.kid).is_err() {
        return Err(ClaimFault::OutOfMemory);
    }
    Ok(Claim {
        place,
        worker,
        track: held.track,
        index: held.index,
        session: work.session,
        key: work.key,
        sample: copied,
    })
}

/// The sample of the track at a place of the list that is out next.
fn next_of(tracks: &Vec<Track>, at: usize) -> Published
    requires within { at < length tracks.now.items }
    requires few { all_fed (map fed_track tracks.now.items) ≤ MAX_SAMPLES }
    ensures { IsNext (map fed_track tracks.now.items) at result.track result.index }
{
    let track = &tracks[at];
    Published {
        track: track.id(),
        index: track.published() as u32,
    }
}

/// The next sample of the track at a place of the list is out, opened.
fn put_opened(tracks: &mut Vec<Track>, at: usize, clear: Option<Bytes>)
    requires within { at < length tracks.old.items }
    requires fed { (d : TrackValue) → length (slice_index_or tracks.old.items at d).track.outputs < length (slice_index_or tracks.old.items at d).track.fed }
    ensures { MatchOption clear (tracks.new.items ≡ tracks.old.items) (λ bytes. map fed_track tracks.new.items ≡ changed_at (map fed_track tracks.old.items) at (more_out bytes)) }
{
    match clear {
        None => {}
        Some(bytes) => {
            let track = &mut tracks[at];
            track.put_opened(bytes);
        }
    }
}

/// The next sample of the track at a place of the list is out as it is.
fn put_same(tracks: &mut Vec<Track>, at: usize)
    requires within { at < length tracks.old.items }
    requires fed { (d : TrackValue) → length (slice_index_or tracks.old.items at d).track.outputs < length (slice_index_or tracks.old.items at d).track.fed }
    ensures { (x : Sample) → ((d : FedTrack) → head (track_of (slice_index_or (map fed_track tracks.old.items) at d)) ≡ Some x) → map fed_track tracks.new.items ≡ changed_at (map fed_track tracks.old.items) at (more_out x.bytes) }
{
    let track = &mut tracks[at];
    track.put_same();
}

/// The track at a place of the list begins to wait.
fn begin_to_wait(tracks: &mut Vec<Track>, at: usize)
    requires { at < length tracks.old.items }
    ensures { map fed_track tracks.new.items ≡ changed_at (map fed_track tracks.old.items) at (with_waiting true) }
{
    let track = &mut tracks[at];
    track.set_waiting(true);
}

/// The track no longer waits, if its head has a pick.
fn resume_one<P: Picks>(sessions: &P, track: &mut Track)
    ensures { track.new ≡ resumed_value (P.picks sessions.now) track.old }
{
    if has_pick(sessions, track) {
        track.set_waiting(false);
    }
}

/// The waiting tracks whose head has a pick no longer wait.
fn resume_all<P: Picks>(sessions: &P, tracks: &mut Vec<Track>)
    ensures { tracks.new.items ≡ map (resumed_value (P.picks sessions.now)) tracks.old.items }
{
    for track in tracks.iter_mut() {
        resume_one(sessions, track);
    }
}
