//! Plays over lanes and workers. More plays stand in `examples`.
ghost use Rattle.std.specs.Prelude.{◌≤◌};

mod meeting;

use crate::play_together;
use cdm_state::Cdm;
use decrypt_workers::FreeGate;
use eme_types::{Entry, Verdict};
use meeting::{Delay, Meeting, many_certificates, many_samples};
use output_order::track_bytes;
use script_lang::read_script;
use std::alloc::Global;
use std::sync::Wait;
use std::test::Fail;
use std::thread::Threads;
use track_media::parse_media;

const ONE_SESSION: &str =
    "EMES 1\n0 create a temporary\n0 request a keyids text:{\"kids\":[\"AAECAwQFBgcICQoLDA0ODw\"]}\n0 settle\n0 update a text:{\"keys\":[{\"kty\":\"oct\",\"kid\":\"AAECAwQFBgcICQoLDA0ODw\",\"k\":\"K34VFiiu0qar9xWICc9PPA\"}],\"type\":\"temporary\"}\n0 feed\n";

// The sessions of the lanes 1 and 7 are their own; the key is that of lane 0.
const THREE_LANES: &str =
    "EMES 1\n1 create b temporary\n0 create a temporary\n7 create c temporary\n0 request a keyids text:{\"kids\":[\"AAECAwQFBgcICQoLDA0ODw\"]}\n1 certificate hex:00\n0 settle\n7 certificate hex:00\n0 update a text:{\"keys\":[{\"kty\":\"oct\",\"kid\":\"AAECAwQFBgcICQoLDA0ODw\",\"k\":\"K34VFiiu0qar9xWICc9PPA\"}],\"type\":\"temporary\"}\n7 certificate hex:01\n";

// The protected sample is the first block of SP 800-38A section F.5.1.
const TWO_TRACKS: &str =
    "SMPL 1\ntrack 1\ntrack 2\nfragment\nsample 1 clear 616263\nsample 2 cenc 000102030405060708090a0b0c0d0e0f f0f1f2f3f4f5f6f7f8f9fafbfcfdfeff - 874d6191b620e3261bef6864990db6ce\n";

// The first sample has no key; behind it the workers hold claims on the others while lane 0 settles and evicts.
const EVICTED: &str =
    "EMES 1\n0 create a temporary\n0 request a keyids text:{\"kids\":[\"AAECAwQFBgcICQoLDA0ODw\"]}\n0 settle\n0 update a text:{\"keys\":[{\"kty\":\"oct\",\"kid\":\"AAECAwQFBgcICQoLDA0ODw\",\"k\":\"K34VFiiu0qar9xWICc9PPA\"}],\"type\":\"temporary\"}\n0 feed\n0 settle\n0 evict a\n";

const BEHIND_A_HEAD: &str =
    "SMPL 1\ntrack 1\nfragment\nsample 1 cenc ffffffffffffffffffffffffffffffff f0f1f2f3f4f5f6f7f8f9fafbfcfdfeff - 874d6191b620e3261bef6864990db6ce\nsample 1 cenc 000102030405060708090a0b0c0d0e0f f0f1f2f3f4f5f6f7f8f9fafbfcfdfeff - 874d6191b620e3261bef6864990db6ce\nsample 1 cenc 000102030405060708090a0b0c0d0e0f f0f1f2f3f4f5f6f7f8f9fafbfcfdfeff - 874d6191b620e3261bef6864990db6ce\n";

const OPENED: [u8; 16] = [
    0x6b, 0xc1, 0xbe, 0xe2, 0x2e, 0x40, 0x9f, 0x96, 0xe9, 0x3d, 0x7e, 0x11, 0x73, 0x93, 0x17, 0x2a,
];

/// How many calls of the lane there are.
fn calls_of(cdm: &Cdm, i: u8) -> u64 {
    let mut count: u64 = 0;
    for entry in cdm.history() {
        if let Entry::Call { lane, .. } = entry {
            if *lane == i {
                count = count.saturating_add(1);
            }
        }
    }
    count
}

/// Whether the play gives out both tracks and makes so many calls of the lanes 0, 1 and 7.
fn plays<R: Threads + Wait + Sync>(
    rt: &R,
    alloc: Global,
    text: &str,
    workers: u8,
    calls: (u64, u64, u64),
) -> Result<bool, Fail>
    requires { workers ≤ 16 }
{
    let script = read_script(alloc, text.as_bytes())?;
    let media = parse_media(alloc, TWO_TRACKS.as_bytes())?;
    let cdm = play_together(rt, alloc, &script, media, workers, &FreeGate)?;
    let passed = track_bytes(alloc, &cdm, 1)?;
    let opened = track_bytes(alloc, &cdm, 2)?;
    let whole = passed.as_slice() == b"abc".as_slice() && opened.as_slice() == OPENED.as_slice();
    let made = (calls_of(&cdm, 0), calls_of(&cdm, 1), calls_of(&cdm, 7));
    Ok(whole && made == calls)
}

#[test]
fn tracks_are_the_same_with_any_workers(rt: HostRuntime) -> Result<(), Fail> {
    let alloc = rt.alloc();
    let none = plays(&rt, alloc, ONE_SESSION, 0, (3, 0, 0))?;
    let one = plays(&rt, alloc, ONE_SESSION, 1, (3, 0, 0))?;
    let two = plays(&rt, alloc, ONE_SESSION, 2, (3, 0, 0))?;
    let four = plays(&rt, alloc, ONE_SESSION, 4, (3, 0, 0))?;
    assert!(rt; none && one && two && four);
    Ok(())
}

#[test]
fn lanes_make_their_calls(rt: HostRuntime) -> Result<(), Fail> {
    let alloc = rt.alloc();
    let none = plays(&rt, alloc, THREE_LANES, 0, (3, 2, 3))?;
    let two = plays(&rt, alloc, THREE_LANES, 2, (3, 2, 3))?;
    assert!(rt; none && two);
    Ok(())
}

/// Whether the claim at the place is one of worker 1 or 2.
fn is_of_worker(history: &[Entry], place: u64) -> bool {
    for (i, entry) in history.iter().enumerate() {
        if let Entry::Claim { worker, .. } = entry {
            if (i as u64).saturating_add(1) == place {
                return *worker > 0;
            }
        }
    }
    false
}

/// Whether a claim of worker 1 or 2 was published.
fn is_published(history: &[Entry]) -> bool {
    for entry in history {
        if let Entry::Publish { place, .. } = entry {
            if is_of_worker(history, *place) {
                return true;
            }
        }
    }
    false
}

/// Whether in a play both workers stood at the gate at the same moment, and a claim of theirs was published.
fn both_take_part<R: Threads + Wait + Sync>(
    rt: &R,
    alloc: Global,
    script: &str,
    list: &str,
) -> Result<bool, Fail> {
    let script = read_script(alloc, script.as_bytes())?;
    let media = parse_media(alloc, list.as_bytes())?;
    let gate = Meeting::new();
    let cdm = play_together(rt, alloc, &script, media, 2, &gate)?;
    Ok(gate.has_met() && is_published(cdm.history()))
}

#[test]
fn workers_take_part(rt: HostRuntime) -> Result<(), Fail> {
    let alloc = rt.alloc();
    let script = many_certificates(alloc, ONE_SESSION)?;
    let list = many_samples(alloc)?;
    for _ in 0..64u32 {
        if both_take_part(&rt, alloc, script.as_str(), list.as_str())? {
            return Ok(());
        }
    }
    Err(Fail::from("no play had both workers at the gate"))
}

/// How many claims of workers were delivered too late behind an eviction.
fn late_behind_eviction(history: &[Entry]) -> u64 {
    let mut evicted = false;
    let mut late: u64 = 0;
    for entry in history {
        match entry {
            Entry::Evict { .. } => evicted = true,
            Entry::Deliver {
                place,
                verdict: Verdict::Stale,
            } => {
                if evicted && is_of_worker(history, *place) {
                    late = late.saturating_add(1);
                }
            }
            _ => {}
        }
    }
    late
}

/// Whether in a play an eviction ended a claim that a worker held. Nothing may come out.
fn ends_held_claims<R: Threads + Wait + Sync>(rt: &R, alloc: Global) -> Result<bool, Fail> {
    let script = read_script(alloc, EVICTED.as_bytes())?;
    let media = parse_media(alloc, BEHIND_A_HEAD.as_bytes())?;
    let cdm = play_together(rt, alloc, &script, media, 2, &Delay)?;
    let nothing = track_bytes(alloc, &cdm, 1)?;
    if nothing.len() > 0 {
        return Err(Fail::from("a sample came out"));
    }
    Ok(late_behind_eviction(cdm.history()) > 0)
}

#[test]
fn evictions_end_claims_of_workers(rt: HostRuntime) -> Result<(), Fail> {
    for _ in 0..64u32 {
        if ends_held_claims(&rt, rt.alloc())? {
            return Ok(());
        }
    }
    Err(Fail::from("no worker held a claim at the eviction"))
}
