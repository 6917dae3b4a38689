// Plays of texts, the text of `inspect`, and the demonstration file. More plays stand in `examples`.
use crate::{demo_input, inspect_text, play, play_alone};
use cdm_state::Cdm;
use decrypt_workers::FreeGate;
use eme_types::Media;
use output_order::{log_text, summary_text, track_bytes};
use script_lang::read_script;
use std::alloc::Global;
use std::process::Abort;
use std::test::Fail;
use track_media::parse_media;

const ONE_SESSION: &str =
    "EMES 1\n0 create a temporary\n0 request a keyids text:{\"kids\":[\"AAECAwQFBgcICQoLDA0ODw\"]}\n0 settle\n0 update a text:{\"keys\":[{\"kty\":\"oct\",\"kid\":\"AAECAwQFBgcICQoLDA0ODw\",\"k\":\"K34VFiiu0qar9xWICc9PPA\"}],\"type\":\"temporary\"}\n0 feed\n";

// The protected sample is the first block of SP 800-38A section F.5.1.
const ONE_SAMPLE: &str =
    "SMPL 1\ntrack 1\nfragment\nsample 1 cenc 000102030405060708090a0b0c0d0e0f f0f1f2f3f4f5f6f7f8f9fafbfcfdfeff - 874d6191b620e3261bef6864990db6ce\n";

const TWO_TRACKS: &str =
    "SMPL 1\ntrack 1\ntrack 2\nfragment\nsample 1 clear 616263\nsample 2 cenc 000102030405060708090a0b0c0d0e0f f0f1f2f3f4f5f6f7f8f9fafbfcfdfeff - 874d6191b620e3261bef6864990db6ce\n";

const LOG: &str =
    "1 call 0 2\n  promise 1 resolved\n2 call 0 3\n3 job\n4 task\n  promise 2 resolved\n5 task\n  event message 1 1 license-request {\"kids\":[\"AAECAwQFBgcICQoLDA0ODw\"],\"type\":\"temporary\"}\n6 settle 4\n7 call 0 5\n8 feed 6 1\n9 job\n10 task\n  statuses 1 000102030405060708090a0b0c0d0e0f=usable\n  promise 3 resolved\n11 task\n  event keystatuseschange 1\n12 task\n13 clear 1 0\n14 claim 0 2 0 1 000102030405060708090a0b0c0d0e0f\n15 deliver 14 taken\n16 publish 2 0 14\n17 settle 0\n";

const SUMMARY: &str =
    "entries 17\npromises 3 resolved 3 rejected 0\ntrack 1 samples 1 bytes 3 waiting no\ntrack 2 samples 1 bytes 16 waiting no\n";

// The session of `ONE_SESSION` with a licence that has a start, and the log where the script ends before it.
const LATER: &str =
    "EMES 1\n0 create a temporary\n0 request a keyids text:{\"kids\":[\"AAECAwQFBgcICQoLDA0ODw\"]}\n0 settle\n0 update a text:{\"keys\":[{\"kty\":\"oct\",\"kid\":\"AAECAwQFBgcICQoLDA0ODw\",\"k\":\"K34VFiiu0qar9xWICc9PPA\"}],\"type\":\"temporary\",\"from\":500}\n0 feed\n0 settle\n";

const LATER_LOG: &str =
    "1 call 0 2\n  promise 1 resolved\n2 call 0 3\n3 job\n4 task\n  promise 2 resolved\n5 task\n  event message 1 1 license-request {\"kids\":[\"AAECAwQFBgcICQoLDA0ODw\"],\"type\":\"temporary\"}\n6 settle 4\n7 call 0 5\n8 feed 6 1\n9 job\n10 task\n  statuses 1 000102030405060708090a0b0c0d0e0f=usable-in-future\n  promise 3 resolved\n11 task\n  event keystatuseschange 1\n12 task\n13 wait 1\n14 task\n  event waitingforkey 1\n15 settle 7\n16 settle 0\n";

// The same where the script goes on past the start.
const IN_TIME: &str =
    "EMES 1\n0 create a temporary\n0 request a keyids text:{\"kids\":[\"AAECAwQFBgcICQoLDA0ODw\"]}\n0 settle\n0 update a text:{\"keys\":[{\"kty\":\"oct\",\"kid\":\"AAECAwQFBgcICQoLDA0ODw\",\"k\":\"K34VFiiu0qar9xWICc9PPA\"}],\"type\":\"temporary\",\"from\":500}\n0 feed\n0 settle\n0 clock 500\n";

const IN_TIME_LOG: &str =
    "1 call 0 2\n  promise 1 resolved\n2 call 0 3\n3 job\n4 task\n  promise 2 resolved\n5 task\n  event message 1 1 license-request {\"kids\":[\"AAECAwQFBgcICQoLDA0ODw\"],\"type\":\"temporary\"}\n6 settle 4\n7 call 0 5\n8 feed 6 1\n9 job\n10 task\n  statuses 1 000102030405060708090a0b0c0d0e0f=usable-in-future\n  promise 3 resolved\n11 task\n  event keystatuseschange 1\n12 task\n13 wait 1\n14 task\n  event waitingforkey 1\n15 settle 7\n16 tick 8 500\n17 task\n  statuses 1 000102030405060708090a0b0c0d0e0f=usable\n18 task\n  event keystatuseschange 1\n19 task\n20 claim 0 1 0 1 000102030405060708090a0b0c0d0e0f\n21 deliver 20 taken\n22 publish 1 0 20\n23 settle 0\n";

// A session that is evicted, and then asked to close.
const EVICTED: &str =
    "EMES 1\n0 create a temporary\n0 request a keyids text:{\"kids\":[\"AAECAwQFBgcICQoLDA0ODw\"]}\n0 settle\n0 update a text:{\"keys\":[{\"kty\":\"oct\",\"kid\":\"AAECAwQFBgcICQoLDA0ODw\",\"k\":\"K34VFiiu0qar9xWICc9PPA\"}],\"type\":\"temporary\"}\n0 settle\n0 evict a\n0 close a\n";

const EVICTED_LOG: &str =
    "1 call 0 2\n  promise 1 resolved\n2 call 0 3\n3 job\n4 task\n  promise 2 resolved\n5 task\n  event message 1 1 license-request {\"kids\":[\"AAECAwQFBgcICQoLDA0ODw\"],\"type\":\"temporary\"}\n6 settle 4\n7 call 0 5\n8 job\n9 task\n  statuses 1 000102030405060708090a0b0c0d0e0f=usable\n  promise 3 resolved\n10 task\n  event keystatuseschange 1\n11 task\n12 settle 6\n13 evict 7\n14 call 0 8\n  promise 4 resolved\n15 task\n  statuses 1\n  closed 1 resource-evicted\n16 task\n  event keystatuseschange 1\n17 task\n18 settle 0\n";

const OPENED: [u8; 16] = [
    0x6b, 0xc1, 0xbe, 0xe2, 0x2e, 0x40, 0x9f, 0x96, 0xe9, 0x3d, 0x7e, 0x11, 0x73, 0x93, 0x17, 0x2a,
];

fn says(rt: &impl Abort, alloc: Global, cdm: &Cdm, log: &str, summary: &str) -> Result<(), Fail> {
    let told = log_text(alloc, cdm)?;
    assert_eq!(rt; told.as_slice(), log.as_bytes());
    let told = summary_text(alloc, cdm)?;
    assert_eq!(rt; told.as_slice(), summary.as_bytes());
    Ok(())
}

fn gives(rt: &impl Abort, alloc: Global, cdm: &Cdm, track: u32, clear: &[u8]) -> Result<(), Fail> {
    let passed = track_bytes(alloc, cdm, track)?;
    assert_eq!(rt; passed.as_slice(), clear);
    Ok(())
}

fn tells(rt: &impl Abort, alloc: Global, cdm: &Cdm) -> Result<(), Fail> {
    says(rt, alloc, cdm, LOG, SUMMARY)?;
    gives(rt, alloc, cdm, 1, b"abc".as_slice())?;
    gives(rt, alloc, cdm, 2, OPENED.as_slice())
}

#[test]
fn a_clear_track_passes_beside_an_opened_one(rt: HostRuntime) -> Result<(), Fail> {
    let alloc = rt.alloc();
    let script = read_script(alloc, ONE_SESSION.as_bytes())?;
    let media = parse_media(alloc, TWO_TRACKS.as_bytes())?;
    let cdm = play_alone(alloc, &script, media)?;
    tells(&rt, alloc, &cdm)
}

#[test]
fn one_lane_without_workers_is_played_alone(rt: HostRuntime) -> Result<(), Fail> {
    let alloc = rt.alloc();
    let script = read_script(alloc, ONE_SESSION.as_bytes())?;
    let media = parse_media(alloc, TWO_TRACKS.as_bytes())?;
    let cdm = play(&rt, alloc, &script, media, 0, &FreeGate)?;
    tells(&rt, alloc, &cdm)
}

#[test]
fn keys_are_usable_later_and_a_session_is_evicted(rt: HostRuntime) -> Result<(), Fail> {
    let alloc = rt.alloc();
    for (script, media, log, summary, opened) in [
        (
            LATER,
            ONE_SAMPLE,
            LATER_LOG,
            "entries 16\npromises 3 resolved 3 rejected 0\ntrack 1 samples 0 bytes 0 waiting later\n",
            b"".as_slice(),
        ),
        (
            IN_TIME,
            ONE_SAMPLE,
            IN_TIME_LOG,
            "entries 23\npromises 3 resolved 3 rejected 0\ntrack 1 samples 1 bytes 16 waiting no\n",
            OPENED.as_slice(),
        ),
        (
            EVICTED,
            "SMPL 1\n",
            EVICTED_LOG,
            "entries 18\npromises 4 resolved 4 rejected 0\n",
            b"".as_slice(),
        ),
    ] {
        let script = read_script(alloc, script.as_bytes())?;
        let media = parse_media(alloc, media.as_bytes())?;
        let cdm = play(&rt, alloc, &script, media, 0, &FreeGate)?;
        says(&rt, alloc, &cdm, log, summary)?;
        gives(&rt, alloc, &cdm, 1, opened)?;
    }
    Ok(())
}

fn inspects(rt: &impl Abort, alloc: Global, list: &str, text: &str) -> Result<(), Fail> {
    let media = parse_media(alloc, list.as_bytes())?;
    let told = inspect_text(alloc, &media)?;
    assert_eq!(rt; told.as_slice(), text.as_bytes());
    Ok(())
}

#[test]
fn media_is_inspected(rt: HostRuntime) -> Result<(), Fail> {
    for (list, text) in [
        ("SMPL 1\n", "fragments 0 tracks 0\n"),
        (
            ONE_SAMPLE,
            "fragment 1 track 1 samples 1 protected 1 bytes 16\nfragments 1 tracks 1\n",
        ),
        (
            TWO_TRACKS,
            "fragment 1 track 1 samples 1 protected 0 bytes 3\nfragment 1 track 2 samples 1 protected 1 bytes 16\nfragments 1 tracks 2\n",
        ),
        (
            "SMPL 1\nfragment\ninit cenc 0aff\ninit keyids -\n",
            "fragment 1 init cenc 0aff\nfragment 1 init keyids -\nfragments 1 tracks 0\n",
        ),
    ] {
        inspects(&rt, rt.alloc(), list, text)?;
    }
    Ok(())
}

// FNV-1a of 64 bits.
fn fnv(bytes: &[u8]) -> u64 {
    let mut hash: u64 = 0xcbf2_9ce4_8422_2325;
    for byte in bytes {
        hash = (hash ^ u64::from(*byte)).wrapping_mul(0x100_0000_01b3);
    }
    hash
}

fn samples_of(media: &Media, track: u32) -> usize {
    let mut count: usize = 0;
    for fragment in media.fragments.as_slice() {
        for part in fragment.parts.as_slice() {
            if part.track == track {
                count = count.saturating_add(part.samples.len());
            }
        }
    }
    count
}

#[test]
fn the_demonstration_is_read(rt: HostRuntime) -> Result<(), Fail> {
    let alloc = rt.alloc();
    let demo = demo_input(alloc, 1)?;
    // Lengths and hashes are those of a transcription of the published xoshiro256++ and SplitMix64.
    assert_eq!(rt; demo.script.len(), 747);
    assert_eq!(rt; fnv(demo.script.as_slice()), 0x1b3f_fb71_e73d_e941);
    assert_eq!(rt; demo.media.len(), 18_460_579);
    assert_eq!(rt; fnv(demo.media.as_slice()), 0xea27_9d7a_068e_727e);
    let script = read_script(alloc, demo.script.as_slice())?;
    assert_eq!(rt; script.len(), 10);
    let media = parse_media(alloc, demo.media.as_slice())?;
    assert_eq!(rt; media.tracks.as_slice(), [1, 2].as_slice());
    assert_eq!(rt; media.fragments.len(), 256);
    assert_eq!(rt; samples_of(&media, 1), 8192);
    assert_eq!(rt; samples_of(&media, 2), 8192);
    Ok(())
}
