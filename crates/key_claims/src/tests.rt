// Claims, deliveries and publications by example.
ghost use Rattle.std.specs.Prelude.{◌≡◌, ◌≢◌, ◌+◌, ◌≤◌, ◌<◌, [], IfOk, IsTrue, true, length};
ghost use Rattle.eme_types.specs.WellFormed.{is_well_formed};
ghost use Rattle.sample_crypt.specs.Decryption.{decryption};
ghost use Rattle.key_claims.specs.declared.claim.Claim.{Claim as Held};
ghost use Rattle.key_claims.specs.Contract.{AreBelow};
ghost use Rattle.key_claims.specs.Fits.{MayDeliver};
ghost use Rattle.key_claims.specs.TrackValue.{all_fed};

use crate::{Claim, ClaimFault, Delivered, NotReady, NotWaiting, Published, Ready, Tracks};
use eme_types::{
    Bytes, EncSample, Fragment, Inits, Iv, KeyBytes, KeyId, Parts, Protect, Samples, Scheme, Subs,
    TrackIds, TrackPart,
};
use key_statuses::{Pick, Picks};
use sample_crypt::open_sample;
use std::alloc::{AllocError, Global};
use std::test::Fail;

const KEY_ID: [u8; 2] = [1, 2];

/// The ciphertext and the plaintext of block 1 of SP 800-38A section F.5.1.
const SEALED: u128 = 0x874d6191b620e3261bef6864990db6ce;

const PLAIN: u128 = 0x6bc1bee22e409f96e93d7e117393172a;

/// A session that holds a key under one id.
#[derive(Drop)]
struct OneKey {
    session: u32,
    kid: KeyId,
    key: KeyBytes,
}

impl Picks for OneKey {
    ghost use Rattle.std.specs.Prelude.{bytes_eq, if◌then◌else◌, Some, None};

    ghost picks = { λ k kid. if bytes_eq kid k.kid then Some (k.session, k.key) else None };

    fn choose(&self, kid: &KeyId) -> Option<Pick> {
        if kid.bytes() == self.kid.bytes() {
            return Some(Pick {
                session: self.session,
                key: self.key,
            });
        }
        None
    }
}

/// Session 7 holds the key of section F.5.1 under the id.
fn key_under(alloc: Global, kid: &[u8]) -> Result<OneKey, Fail> {
    Ok(OneKey {
        session: 7,
        kid: KeyId::new(alloc, kid)?,
        key: KeyBytes {
            bytes: 0x2b7e151628aed2a6abf7158809cf4f3c_u128.to_be_bytes(),
        },
    })
}

fn sealed_sample(alloc: Global) -> Result<EncSample, Fail> {
    Ok(EncSample {
        protect: Some(Protect {
            scheme: Scheme::Cenc,
            kid: KeyId::new(alloc, &KEY_ID)?,
            iv: Iv::Sixteen(0xf0f1f2f3f4f5f6f7f8f9fafbfcfdfeff_u128.to_be_bytes()),
            crypt: 0,
            skip: 0,
            subs: Subs::new(alloc),
        }),
        bytes: Bytes::from_slice(alloc, &SEALED.to_be_bytes())?,
    })
}

fn sealed_samples(alloc: Global, count: usize) -> Result<Samples, Fail>
    ensures { IfOk result (λ samples. length samples ≡ count) }
{
    let mut samples = Samples::new(alloc);
    for _ in 0..count {
        samples.push(sealed_sample(alloc)?)?;
    }
    Ok(samples)
}

fn clear_samples(alloc: Global) -> Result<Samples, Fail>
    ensures { IfOk result (λ samples. length samples ≡ 1) }
{
    let mut samples = Samples::new(alloc);
    samples.push(EncSample {
        protect: None,
        bytes: Bytes::from_slice(alloc, b"abc")?,
    })?;
    Ok(samples)
}

fn no_samples(alloc: Global) -> Result<Tracks, AllocError>
    ensures fed { IfOk result (λ t. all_fed t.tracks ≡ 0) }
    ensures claims { IfOk result (λ t. t.claims ≡ []) }
{
    let mut ids = TrackIds::new(alloc);
    ids.push(1)?;
    ids.push(2)?;
    Tracks::new(alloc, &ids)
}

/// Track 1 with so many sealed samples, and track 2 with a clear one.
fn two_tracks(alloc: Global, count: usize) -> Result<Tracks, Fail>
    requires { count ≤ 17 }
    ensures { IfOk result (λ t. t.claims ≡ []) }
{
    let mut tracks = no_samples(alloc)?;
    let mut parts = Parts::new(alloc);
    parts.push(TrackPart {
        track: 1,
        samples: sealed_samples(alloc, count)?,
    })?;
    parts.push(TrackPart {
        track: 2,
        samples: clear_samples(alloc)?,
    })?;
    tracks.feed(&Fragment {
        inits: Inits::new(alloc),
        parts,
    })?;
    Ok(tracks)
}

/// A claim under a place that is above those of all claims. It can be delivered, and so can the older ones.
fn claim_at(tracks: &mut Tracks, place: u64, key: &OneKey) -> Result<Claim, ClaimFault>
    requires { AreBelow place tracks.old.claims }
    ensures below { AreBelow (place + 1) tracks.new.claims }
    ensures given { IfOk result (λ c. MayDeliver tracks.new c) }
    ensures place { IfOk result (λ c. c.place ≡ place) }
    ensures older { (held : Held) → held.place < place → MayDeliver tracks.old held → MayDeliver tracks.new held }
{
    // What is said of the length says that the ids of the tracks differ.
    tracks.len();
    tracks.claim(3, place, key)
}

fn is_formed(sample: &EncSample) -> bool
    ensures { result ≡ true → IsTrue (is_well_formed sample.now) }
{
    match &sample.protect {
        None => true,
        Some(protect) => protect.scheme == Scheme::Cenc && protect.subs.len() == 0,
    }
}

fn opened(alloc: Global, claim: &Claim) -> Result<Bytes, Fail>
    ensures { IfOk result (λ bytes. bytes ≡ decryption claim.now.sample claim.now.key) }
{
    if is_formed(&claim.sample) {
        Ok(open_sample(alloc, &claim.sample, &claim.key)?)
    } else {
        Err(Fail::new("a sample of another form"))
    }
}

/// The sample of a claim is opened and delivered: whether it is taken. What is handed back is its clear bytes. Claims at other places can still be delivered.
fn is_taken(tracks: &mut Tracks, alloc: Global, claim: Claim) -> Result<bool, Fail>
    requires { MayDeliver tracks.old claim }
    ensures { (held : Held) → held.place ≢ claim.place → MayDeliver tracks.old held → MayDeliver tracks.new held }
{
    let clear = opened(alloc, &claim)?;
    match tracks.deliver(claim, clear) {
        Delivered::Taken => Ok(true),
        Delivered::Stale(back) => {
            if back.as_slice() != PLAIN.to_be_bytes().as_slice() {
                return Err(Fail::new("other bytes are handed back"));
            }
            Ok(false)
        }
    }
}

#[test]
fn a_claimed_sample_is_out_once_it_is_delivered(rt: HostRuntime) -> Result<(), Fail> {
    let alloc = rt.alloc();
    let key = key_under(alloc, &KEY_ID)?;
    let mut tracks = two_tracks(alloc, 1)?;
    assert_eq!(rt; (tracks.len(), tracks.left()), (2, 2));
    let claim = claim_at(&mut tracks, 5, &key)?;
    assert_eq!(rt; (claim.place, claim.worker, claim.session), (5, 3, 7));
    assert_eq!(rt; (claim.track, claim.index), (1, 0));
    assert_eq!(rt; (tracks.ready(), tracks.publish()), (None, Err(NotReady)));
    assert!(rt; is_taken(&mut tracks, alloc, claim)?);
    assert_eq!(rt;
        tracks.ready(),
        Some(Ready {
            track: 1,
            index: 0,
            place: 5,
        })
    );
    assert_eq!(rt; tracks.publish(), Ok(Published { track: 1, index: 0 }));
    assert_eq!(rt; tracks.output(1, 0), Some(PLAIN.to_be_bytes().as_slice()));
    assert_eq!(rt; tracks.output(1, 1), None);
    assert_eq!(rt; tracks.left(), 1);
    Ok(())
}

/// Whether a claim that is given before a revocation is taken after it. Just then its sample can be published.
fn is_taken_after(alloc: Global, session: u32, kid: &[u8]) -> Result<bool, Fail> {
    let key = key_under(alloc, &KEY_ID)?;
    let mut tracks = two_tracks(alloc, 1)?;
    let claim = claim_at(&mut tracks, 1, &key)?;
    tracks.revoke(session, &KeyId::new(alloc, kid)?);
    let taken = is_taken(&mut tracks, alloc, claim)?;
    if tracks.publish().is_ok() != taken {
        return Err(Fail::new("another publication"));
    }
    Ok(taken)
}

#[test]
fn a_revocation_ends_the_claims_under_its_key(rt: HostRuntime) -> Result<(), Fail> {
    for (session, kid, taken) in [
        (7, [1, 2].as_slice(), false),
        (8, [1, 2].as_slice(), true),
        (7, [1].as_slice(), true),
    ] {
        assert_eq!(rt;
            is_taken_after(rt.alloc(), session, kid)?,
            taken,
            "session {session}"
        );
    }
    Ok(())
}

#[test]
fn a_claim_that_is_given_up_is_given_again(rt: HostRuntime) -> Result<(), Fail> {
    let alloc = rt.alloc();
    let key = key_under(alloc, &KEY_ID)?;
    let mut tracks = two_tracks(alloc, 1)?;
    let claim = claim_at(&mut tracks, 1, &key)?;
    tracks.give_up(claim);
    let again = claim_at(&mut tracks, 2, &key)?;
    assert_eq!(rt; (again.place, again.track, again.index), (2, 1, 0));
    Ok(())
}

/// How many claims are given, at most so many. They are on the samples of track 1 in order.
fn claims_given(tracks: &mut Tracks, key: &OneKey, most: u64) -> Result<u64, Fail>
    requires { tracks.old.claims ≡ [] }
{
    for given in 0..most {
        match claim_at(tracks, given, key) {
            Ok(claim) => {
                if claim.track != 1 || claim.index as u64 != given {
                    return Err(Fail::new("a claim on another sample"));
                }
            }
            Err(ClaimFault::NoWork) => return Ok(given),
            Err(fault) => return Err(Fail::from(fault)),
        }
    }
    Ok(most)
}

#[test]
fn sixteen_samples_of_a_track_are_claimed(rt: HostRuntime) -> Result<(), Fail> {
    let alloc = rt.alloc();
    let key = key_under(alloc, &KEY_ID)?;
    let mut tracks = two_tracks(alloc, 17)?;
    assert_eq!(rt; claims_given(&mut tracks, &key, 20)?, 16);
    Ok(())
}

#[test]
fn samples_are_published_in_order(rt: HostRuntime) -> Result<(), Fail> {
    let alloc = rt.alloc();
    let key = key_under(alloc, &KEY_ID)?;
    let mut tracks = two_tracks(alloc, 2)?;
    let first = claim_at(&mut tracks, 1, &key)?;
    let second = claim_at(&mut tracks, 2, &key)?;
    assert!(rt; is_taken(&mut tracks, alloc, second)?);
    assert_eq!(rt; tracks.ready(), None);
    assert!(rt; is_taken(&mut tracks, alloc, first)?);
    assert_eq!(rt; tracks.publish(), Ok(Published { track: 1, index: 0 }));
    assert_eq!(rt;
        head_bytes(&tracks, 1),
        Some(SEALED.to_be_bytes().as_slice())
    );
    assert_eq!(rt; tracks.publish(), Ok(Published { track: 1, index: 1 }));
    assert_eq!(rt; head_bytes(&tracks, 1), None);
    Ok(())
}

#[test]
fn a_sealed_head_without_a_key_waits(rt: HostRuntime) -> Result<(), Fail> {
    let alloc = rt.alloc();
    let key = key_under(alloc, &KEY_ID)?;
    let other = key_under(alloc, b"\x01")?;
    let mut tracks = two_tracks(alloc, 1)?;
    assert_eq!(rt; tracks.wait_for_key(&key), Err(NotWaiting));
    assert_eq!(rt; tracks.wait_for_key(&other), Ok(1));
    assert_eq!(rt; (tracks.waiting(1), tracks.waiting(2)), (true, false));
    assert_eq!(rt; tracks.unrested(&other), Some(2));
    tracks.resume(&other);
    assert!(rt; tracks.waiting(1));
    tracks.resume(&key);
    assert!(rt; !tracks.waiting(1));
    Ok(())
}

/// The bytes of a track's head.
fn head_bytes(tracks: &Tracks, track: u32) -> Option<&[u8]> {
    match tracks.head(track) {
        None => None,
        Some(sample) => Some(sample.bytes.as_slice()),
    }
}

#[test]
fn a_clear_head_passes(rt: HostRuntime) -> Result<(), Fail> {
    let alloc = rt.alloc();
    let other = key_under(alloc, b"\x01")?;
    let mut tracks = two_tracks(alloc, 0)?;
    assert_eq!(rt; tracks.unrested(&other), Some(2));
    for (track, head) in [(1, None), (2, Some(b"abc".as_slice())), (3, None)] {
        assert_eq!(rt; head_bytes(&tracks, track), head, "track {track}");
    }
    assert_eq!(rt; tracks.pass_clear(), Ok(Published { track: 2, index: 0 }));
    assert_eq!(rt; head_bytes(&tracks, 2), None);
    assert_eq!(rt; tracks.pass_clear(), Err(NotReady));
    assert_eq!(rt; tracks.output(2, 0), Some(b"abc".as_slice()));
    assert_eq!(rt; tracks.unrested(&other), None);
    Ok(())
}
