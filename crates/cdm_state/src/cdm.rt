// The history, and the state after it.
ghost use Rattle.std.specs.Prelude.{◌≡◌, ◌<◌, ◌≤◌, ◌-◌, [], OnErr, IsErrOf, IfOk, ◌↔◌, IsTrue, ◌≢◌, MatchOption, Some, None, length};
ghost use Rattle.std.specs.Prelude.{slice_get, map, ◌⊎◌, if◌then◌else◌};
ghost use Rattle.eme_types.specs.Fed.{are_distinct};
ghost use Rattle.eme_types.specs.declared.limits.TheConstants.{MAX_TRACKS};
ghost use Rattle.sample_crypt.specs.Decryption.{decryption};
ghost use Rattle.cdm_world.specs.Tracks.{find_track, is_waiting};
ghost use Rattle.cdm_state.specs.History.{world, IsLegal, MayFeedNext};
ghost use Rattle.cdm_state.specs.Settlements.{effects_in};
ghost use Rattle.cdm_state.specs.Output.{out};
ghost use Rattle.cdm_state.specs.Contract.{IsOpen};
ghost use Rattle.cdm_state.specs.Does.{CallDoes, JobDoes, TaskDoes, TickDoes, FeedDoes, EvictDoes, ClaimDoes, DeliverDoes, GiveUpDoes, PublishDoes, PassClearDoes, WaitDoes, SettleDoes};
ghost use Rattle.cdm_state.specs.Run.{Run};
ghost use Rattle.cdm_state.specs.Later.{waits_later, protect_later};
ghost use Rattle.cdm_state.specs.Feeds.{fragments_fed};
ghost use Rattle.std.specs.List.{sum_by};
ghost use Rattle.key_sessions.specs.Keys.{pick};
ghost use Rattle.key_claims.specs.Changes.{resumed_one};
ghost use Rattle.key_claims.specs.Choice.{NoWork};
ghost use Rattle.key_claims.specs.Contract.{AreBelow, Claims as Taken};
ghost use Rattle.cdm_state.specs.Claims.{HasKid};

use crate::chronicle::Chronicle;
use crate::feed::queue_events;
use crate::parts::{Parts, close_place};
use eme_types::{
    AppCall, Bytes, Copies, Effect, EncSample, Entry, Event, Fragment, KeyId, Protect, TrackIds,
    Verdict,
};
use key_claims::{Claim, ClaimFault, Delivered, NotReady, NotWaiting, Published, Tracks};
use key_sessions::{Sessions, StepFault};
use std::alloc::{AllocError, Global};
use std::marker::Model;

/// A call that wanted memory, with the call handed back.
#[derive(Drop)]
pub struct CallBack {
    pub call: AppCall,
    pub error: AllocError,
}

/// A feed that wanted memory, with the fragment handed back.
#[derive(Drop)]
pub struct FeedBack {
    pub fragment: Option<Fragment>,
    pub error: AllocError,
}

/// An eviction that wanted memory, with the label handed back.
#[derive(Drop)]
pub struct EvictBack {
    pub label: Bytes,
    pub error: AllocError,
}

/// Why the core has not settled.
#[derive(Clone, Copy, Debug, PartialEq, Eq)]
pub enum SettleFault {
    /// A job is queued.
    Job,
    /// No job and a task is queued.
    Task,
    /// Nothing is queued, and this is the first track that is not at rest.
    Track(u32),
    OutOfMemory,
}

/// The core: its tracks, and the history of all that was done. It is seen as these two.
#[derive(Drop)]
pub struct Cdm {
    alloc: Global,
    ids: TrackIds,
    parts: Parts,
}

impl Model for Cdm {
    ghost use Rattle.cdm_state.specs.Run.{Run};

    ghost Value = { Run };

    ghost use Rattle.cdm_state.specs.Kept.{run_of, Kept};

    ghost view = { run_of };

    ghost invariant = { Kept };
}

impl Cdm {
    /// The empty history on these tracks.
    pub fn new(alloc: Global, tracks: &TrackIds) -> Result<Cdm, AllocError>
        requires few { length tracks.now ≤ MAX_TRACKS }
        requires distinct { IsTrue (are_distinct tracks.now) }
        ensures { IfOk result (λ c. c ≡ record { tracks = tracks.now; history = [] }) }
    {
        let ids = tracks.copy()?;
        let states = Tracks::new(alloc, tracks)?;
        let mut parts = Parts {
            chronicle: Chronicle::new(alloc),
            sessions: Sessions::new(alloc),
            tracks: states,
            undelivered: Vec::new(alloc),
        };
        parts.reserve(0)?;
        parts.sessions.reserve_events(parts.tracks.len())?;
        Ok(Cdm { alloc, ids, parts })
    }

    /// The entries, in order.
    pub fn history(&self) -> &[Entry]
        ensures items { result.now ≡ self.now.history }
        ensures legal { IsLegal self.now.tracks self.now.history }
    {
        self.parts.chronicle.entries()
    }

    /// The track ids that were given to `new`, in order.
    pub fn tracks(&self) -> &TrackIds
        ensures { result.now ≡ self.now.tracks }
    {
        &self.ids
    }

    /// How many fragments were fed.
    pub fn fragments(&self) -> u64
        ensures { result ≡ sum_by fragments_fed self.now.history }
    {
        self.parts.chronicle.fragments()
    }

    /// What the entry at a place, from 1, did that the application can see.
    pub fn effects(&self, place: u64) -> Option<&[Effect]>
        ensures none { (result ≡ None) ↔ ((place < 1) ⊎ (length self.now.history < place)) }
        ensures some { MatchOption result (Unit {0}) (λ x. slice_get (effects_in self.now.tracks self.now.history) (place - 1) ≡ Some x.now) }
    {
        if place == 0 {
            return None;
        }
        let at = (place - 1) as usize;
        let effects = self.parts.chronicle.effects();
        if at < effects.len() {
            return Some(effects[at].as_slice());
        }
        None
    }

    /// The bytes that are out of the sample at an index of a track.
    pub fn output(&self, track: u32, index: u32) -> Option<&[u8]>
        ensures { MatchOption result (slice_get (out self.now.tracks self.now.history track) index ≡ None) (λ x. slice_get (out self.now.tracks self.now.history track) index ≡ Some x.now) }
    {
        self.parts.tracks.output(track, index)
    }

    /// Whether the track waits for a key.
    pub fn waiting(&self, track: u32) -> bool
        ensures { IsTrue result ↔ is_waiting (find_track (world self.now.tracks self.now.history).tracks track) }
    {
        self.parts.tracks.waiting(track)
    }

    /// Whether the track waits, and a session that is not closed holds the key of its head with the status
    /// `usable-in-future` (Encrypted Media Extensions, MediaKeyStatus).
    pub fn waits_later(&self, track: u32) -> bool
        ensures { result ≡ waits_later (world self.now.tracks self.now.history) track }
    {
        if !self.parts.tracks.waiting(track) {
            return false;
        }
        match self.parts.tracks.head(track) {
            None => false,
            Some(sample) => protect_later(&self.parts.sessions, &sample.protect),
        }
    }

    /// A call of the application, and the number of its promise.
    pub fn call(&mut self, lane: u8, line: u32, call: AppCall) -> Result<u64, CallBack>
        ensures { CallDoes lane line call self.old result self.new }
    {
        if self.parts.reserve(1).is_err() {
            return Err(CallBack {
                call,
                error: AllocError,
            });
        }
        match self.parts.sessions.call(&call) {
            Err(error) => Err(CallBack { call, error }),
            Ok(promise) => {
                self.parts.record_step(Entry::Call { lane, line, call });
                Ok(promise)
            }
        }
    }

    /// The front job runs.
    pub fn job(&mut self) -> Result<(), StepFault>
        ensures { JobDoes self.old result self.new }
    {
        if !self.parts.sessions.job_left() {
            return Err(StepFault::Empty);
        }
        self.parts.reserve(1)?;
        self.parts.sessions.job()?;
        self.parts.record_step(Entry::Job);
        Ok(())
    }

    /// The front task runs.
    pub fn task(&mut self) -> Result<(), StepFault>
        ensures { TaskDoes self.old result self.new }
    {
        if !self.parts.sessions.task_left() {
            return Err(StepFault::Empty);
        }
        self.parts.reserve(1)?;
        // The front task may be `Resume`, after which every track may begin to wait.
        let awake = self.parts.tracks.len();
        self.parts.sessions.reserve_events(awake)?;
        let resume = self.parts.sessions.task()?;
        resume_if(resume, &self.parts.sessions, &mut self.parts.tracks);
        self.parts.record_step(Entry::Task);
        Ok(())
    }

    /// The moment is set, in milliseconds.
    pub fn tick(&mut self, line: u32, moment: u64) -> Result<(), AllocError>
        requires { (world self.old.tracks self.old.history).machine.moment ≤ moment }
        ensures { TickDoes line moment self.old result self.new }
    {
        self.parts.reserve(1)?;
        self.parts.sessions.tick(moment)?;
        self.parts.record_step(Entry::Tick { line, moment });
        Ok(())
    }

    /// A fragment is fed, or none is left.
    pub fn feed(&mut self, line: u32, fragment: Option<Fragment>) -> Result<(), FeedBack>
        requires { MayFeedNext self.old.tracks self.old.history fragment }
        ensures { FeedDoes line fragment self.old result self.new }
    {
        let events = match self.parts.take_in(self.alloc, &fragment) {
            Err(error) => return Err(FeedBack { fragment, error }),
            Ok(events) => events,
        };
        queue_events(&mut self.parts.sessions, events);
        self.parts
            .chronicle
            .append_unseen(Entry::Feed { line, fragment });
        Ok(())
    }

    /// The CDM ends the session with the label, if it is neither closing nor closed. It answers whether it was.
    pub fn evict(&mut self, line: u32, label: Bytes) -> Result<bool, EvictBack>
        ensures { EvictDoes line label self.old result self.new }
    {
        if self.parts.reserve(1).is_err() {
            return Err(EvictBack {
                label,
                error: AllocError,
            });
        }
        match self.parts.sessions.evict(label.as_slice()) {
            Err(error) => Err(EvictBack { label, error }),
            Ok(evicted) => {
                self.parts.record_step(Entry::Evict { line, label });
                Ok(evicted)
            }
        }
    }

    /// The first track that has a sample to claim gives the one of least index.
    pub fn claim(&mut self, worker: u8) -> Result<Claim, ClaimFault>
        ensures { ClaimDoes worker self.old result self.new }
    {
        if self.parts.reserve(2).is_err() {
            return Err(ClaimFault::OutOfMemory);
        }
        if self.parts.undelivered.reserve(1).is_err() {
            return Err(ClaimFault::OutOfMemory);
        }
        let place = self.parts.chronicle.next_place();
        let taken = claim_sample(&mut self.parts.tracks, &self.parts.sessions, worker, place);
        let (claim, kid) = match taken {
            Err(fault) => return Err(fault),
            Ok(taken) => taken,
        };
        self.parts.undelivered.push_reserved(place);
        self.parts.chronicle.append_unseen(Entry::Claim {
            worker,
            track: claim.track,
            index: claim.index,
            session: claim.session,
            kid,
        });
        Ok(claim)
    }

    /// The clear bytes of a claim come back.
    pub fn deliver(&mut self, claim: Claim, clear: Bytes) -> Delivered
        requires open_ { IsOpen self.old claim }
        requires clear { clear ≡ decryption claim.sample claim.key }
        ensures { DeliverDoes claim.place clear self.old result self.new }
    {
        let place = claim.place;
        close_place(&mut self.parts.undelivered, place);
        match self.parts.tracks.deliver(claim, clear) {
            Delivered::Taken => {
                self.parts.chronicle.append_unseen(Entry::Deliver {
                    place,
                    verdict: Verdict::Taken,
                });
                Delivered::Taken
            }
            Delivered::Stale(back) => {
                self.parts.chronicle.append_unseen(Entry::Deliver {
                    place,
                    verdict: Verdict::Stale,
                });
                Delivered::Stale(back)
            }
        }
    }

    /// A claim is given up.
    pub fn give_up(&mut self, claim: Claim)
        requires { IsOpen self.old claim }
        ensures { GiveUpDoes claim.place self.old result self.new }
    {
        let place = claim.place;
        close_place(&mut self.parts.undelivered, place);
        self.parts.tracks.give_up(claim);
        self.parts.chronicle.append_unseen(Entry::GiveUp { place });
    }

    /// The first track whose next sample was delivered under a live claim gives it out.
    pub fn publish(&mut self) -> Result<Published, NotReady>
        ensures { PublishDoes self.old result self.new }
    {
        let ready = self.parts.tracks.publish_ready()?;
        let (track, index, place) = (ready.track, ready.index, ready.place);
        self.parts.chronicle.append_unseen(Entry::Publish {
            track,
            index,
            place,
        });
        Ok(Published { track, index })
    }

    /// The first track whose next sample is unprotected gives it out.
    pub fn pass_clear(&mut self) -> Result<Published, NotReady>
        ensures { PassClearDoes self.old result self.new }
    {
        let next = self.parts.tracks.pass_clear()?;
        self.parts.chronicle.append_unseen(Entry::PassClear {
            track: next.track,
            index: next.index,
        });
        Ok(next)
    }

    /// The first track whose head has neither a live claim nor a pick begins to wait.
    pub fn wait_for_key(&mut self) -> Result<u32, NotWaiting>
        ensures { WaitDoes self.old result self.new }
    {
        let track = self.parts.tracks.wait_for_key(&self.parts.sessions)?;
        self.parts
            .sessions
            .queue_event(Event::WaitingForKey { track });
        self.parts
            .chronicle
            .append_unseen(Entry::WaitForKey { track });
        Ok(track)
    }

    /// All has settled.
    pub fn settle(&mut self, line: u32) -> Result<(), SettleFault>
        ensures { SettleDoes line self.old result self.new }
    {
        if self.parts.sessions.job_left() {
            return Err(SettleFault::Job);
        }
        if self.parts.sessions.task_left() {
            return Err(SettleFault::Task);
        }
        match self.parts.tracks.unrested(&self.parts.sessions) {
            Some(track) => return Err(SettleFault::Track(track)),
            None => {}
        }
        if self.parts.reserve(1).is_err() {
            return Err(SettleFault::OutOfMemory);
        }
        self.parts.chronicle.append_unseen(Entry::Settle { line });
        Ok(())
    }
}

/// The waiting tracks are looked at again, if it is asked for.
fn resume_if(asked: bool, sessions: &Sessions, tracks: &mut Tracks)
    ensures { tracks.new ≡ record tracks.old { tracks = if asked then map (resumed_one (pick sessions.now.machine)) tracks.old.tracks else tracks.old.tracks } }
{
    if asked {
        tracks.resume(sessions);
    }
}

/// Whether a sample is protected, and a session that is not closed holds its key, usable later.
fn protect_later(sessions: &Sessions, protect: &Option<Protect>) -> bool
    ensures { result ≡ protect_later sessions.now.machine protect.now }
{
    match protect {
        None => false,
        Some(protect) => sessions.later(&protect.kid),
    }
}

/// A copy of a sample's key id.
fn kid_of(sample: &EncSample) -> Result<KeyId, AllocError>
    requires { sample.now.protect ≢ None }
    ensures { IfOk result (HasKid sample.now) }
{
    match &sample.protect {
        None => unreachable!(),
        Some(protect) => protect.kid.copy(),
    }
}

/// A claim, with its key id. Nothing has changed where it is refused.
fn claim_sample(
    tracks: &mut Tracks,
    sessions: &Sessions,
    worker: u8,
    place: u64,
) -> Result<(Claim, KeyId), ClaimFault>
    requires { AreBelow place tracks.old.claims }
    ensures ok { IfOk result (λ r. Taken (pick sessions.now.machine) tracks.old worker place r.0 tracks.new × HasKid r.0.sample r.1) }
    ensures err { OnErr result (tracks.new ≡ tracks.old) }
    ensures no_work { IsErrOf result ClaimFault.NoWork → NoWork (pick sessions.now.machine) tracks.old.claims tracks.old.tracks }
{
    let claim = tracks.claim(worker, place, sessions)?;
    match kid_of(&claim.sample) {
        Ok(kid) => Ok((claim, kid)),
        Err(_) => {
            tracks.give_up(claim);
            Err(ClaimFault::OutOfMemory)
        }
    }
}
