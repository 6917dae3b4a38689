// Which track, sample and claim a call takes: the first track in order, the least index.
ghost use Rattle.std.specs.Prelude.{◌≡◌, map, None, MatchOption, IfSome, is_some};
ghost use Rattle.key_statuses.specs.Picked.{picked};
ghost use Rattle.cdm_world.specs.Tracks.{has_pick as picks_head, head};
ghost use Rattle.key_claims.specs.TracksState.{track_of};
ghost use Rattle.key_claims.specs.TrackValue.{fed_track};
ghost use Rattle.key_claims.specs.Choice.{claim_pick, NoWorkOn, IsWorkOn, NoWork, IsWork, has_clear_head as clear_head, is_unkeyed as unkeyed, IsFirst, NoneIs, ready_on as ready_claim_on, IsReady, NoneReady, rests, AllRest, IsUnrested};

use crate::claims::Claims;
use crate::track::Track;
use eme_types::{CLAIM_WINDOW, KeyBytes, KeyId};
use key_statuses::{Pick, Picks};

/// A sample that can be claimed: its track's place in the list, its index, and the pick of its key id.
#[derive(Clone, Copy, Debug, PartialEq, Eq)]
pub struct Work {
    pub at: usize,
    pub index: usize,
    pub session: u32,
    pub key: KeyBytes,
}

fn is_picked<P: Picks>(sessions: &P, kid: &KeyId) -> bool
    ensures { result ≡ is_some (P.picks sessions.now kid.now) }
{
    sessions.choose(kid).is_some()
}

/// The pick for a sample, if it is fed, protected and not claimed.
fn claimable<P: Picks>(sessions: &P, claims: &Claims, track: &Track, index: usize) -> Option<Pick>
    ensures { result ≡ picked (claim_pick (P.picks sessions.now) claims.now track.now.track index) }
{
    match track.protection(index) {
        None => None,
        Some(protect) => {
            if claims.is_on(track.id(), index) {
                return None;
            }
            sessions.choose(&protect.kid)
        }
    }
}

/// The sample of least index that can be claimed on the track at a place.
fn work_on<P: Picks>(sessions: &P, claims: &Claims, track: &Track, at: usize) -> Option<Work>
    ensures work { MatchOption result (NoWorkOn (P.picks sessions.now) claims.now track.now.track) (IsWorkOn (P.picks sessions.now) claims.now track.now.track) }
    ensures at { IfSome result (λ w. w.at ≡ at) }
{
    if track.is_waiting() {
        return None;
    }
    let from = track.published();
    let end = from.saturating_add(CLAIM_WINDOW as usize);
    for index in from..end {
        match claimable(sessions, claims, track, index) {
            None => {}
            Some(pick) => {
                return Some(Work {
                    at,
                    index,
                    session: pick.session,
                    key: pick.key,
                });
            }
        }
    }
    None
}

/// The first sample that can be claimed.
pub fn find_work<P: Picks>(sessions: &P, claims: &Claims, tracks: &[Track]) -> Option<Work>
    ensures { MatchOption result (NoWork (P.picks sessions.now) claims.now (map fed_track tracks.now)) (IsWork (P.picks sessions.now) claims.now (map fed_track tracks.now)) }
{
    for (at, track) in tracks.iter().enumerate() {
        match work_on(sessions, claims, track, at) {
            None => {}
            Some(work) => return Some(work),
        }
    }
    None
}

/// The place of the claim on the head whose clear bytes are there, if the head is fed.
fn ready_on(claims: &Claims, track: &Track) -> Option<u64>
    ensures { result ≡ ready_claim_on claims.now track.now.track }
{
    if track.left() == 0 {
        return None;
    }
    claims.ready(track.id(), track.published())
}

/// The first track whose head has a claim with clear bytes, and the place of that claim.
pub fn find_ready(claims: &Claims, tracks: &[Track]) -> Option<(usize, u64)>
    ensures { MatchOption result (NoneReady claims.now (map fed_track tracks.now)) (λ r. IsReady claims.now (map fed_track tracks.now) r.0 r.1) }
{
    for (at, track) in tracks.iter().enumerate() {
        match ready_on(claims, track) {
            None => {}
            Some(place) => return Some((at, place)),
        }
    }
    None
}

fn has_clear_head(track: &Track) -> bool
    ensures { result ≡ clear_head track.now.track }
{
    match track.head() {
        None => false,
        Some(sample) => sample.protect.is_none(),
    }
}

/// The first track whose head is fed and unprotected.
pub fn find_clear(tracks: &[Track]) -> Option<usize>
    ensures { MatchOption result (NoneIs clear_head (map fed_track tracks.now)) (IsFirst clear_head (map fed_track tracks.now)) }
{
    for (at, track) in tracks.iter().enumerate() {
        if has_clear_head(track) {
            return Some(at);
        }
    }
    None
}

fn is_unkeyed<P: Picks>(sessions: &P, claims: &Claims, track: &Track) -> bool
    ensures { result ≡ unkeyed (P.picks sessions.now) claims.now track.now.track }
{
    if track.is_waiting() {
        return false;
    }
    let at = track.published();
    match track.protection(at) {
        None => false,
        Some(protect) => {
            if claims.is_on(track.id(), at) {
                return false;
            }
            !is_picked(sessions, &protect.kid)
        }
    }
}

/// The first track that is not waiting, and whose head is protected and has neither a claim nor a pick.
pub fn find_unkeyed<P: Picks>(sessions: &P, claims: &Claims, tracks: &[Track]) -> Option<usize>
    ensures { MatchOption result (NoneIs (unkeyed (P.picks sessions.now) claims.now) (map fed_track tracks.now)) (IsFirst (unkeyed (P.picks sessions.now) claims.now) (map fed_track tracks.now)) }
{
    for (at, track) in tracks.iter().enumerate() {
        if is_unkeyed(sessions, claims, track) {
            return Some(at);
        }
    }
    None
}

fn is_at_rest<P: Picks>(sessions: &P, track: &Track) -> bool
    ensures { result ≡ rests (P.picks sessions.now) track.now.track }
{
    match track.head() {
        None => true,
        Some(sample) => match &sample.protect {
            None => false,
            Some(protect) => {
                if !track.is_waiting() {
                    return false;
                }
                !is_picked(sessions, &protect.kid)
            }
        },
    }
}

/// The first track that is not at rest.
pub fn find_unrested<P: Picks>(sessions: &P, tracks: &[Track]) -> Option<usize>
    ensures { MatchOption result (AllRest (rests (P.picks sessions.now)) (map fed_track tracks.now)) (IsUnrested (rests (P.picks sessions.now)) (map fed_track tracks.now)) }
{
    for (at, track) in tracks.iter().enumerate() {
        if !is_at_rest(sessions, track) {
            return Some(at);
        }
    }
    None
}

/// Whether the head is fed and protected, and its key id has a pick.
pub fn has_pick<P: Picks>(sessions: &P, track: &Track) -> bool
    ensures { result ≡ picks_head (P.picks sessions.now) (head (track_of track.now.track)) }
{
    match track.head() {
        None => false,
        Some(sample) => match &sample.protect {
            None => false,
            Some(protect) => is_picked(sessions, &protect.kid),
        },
    }
}
