// What only a shelf in memory shows: calls that fail by their number. What the built program shows stands in checks/ and examples/.
use crate::{
    FreeGate, Outcome, SealKind, UsageFault, UsageKind, fault_text, run_player, run_quiet, status,
};
use eme_edge::MemoryShelf;
use std::alloc::{AllocError, Global};
use std::sync::Wait;
use std::test::Fail;
use std::thread::Threads;

const SCRIPT: &[u8] =
    b"EMES 1\n0 create a temporary\n0 request a keyids text:{\"kids\":[\"AAECAwQFBgcICQoLDA0ODw\"]}\n0 settle\n0 update a text:{\"keys\":[{\"kty\":\"oct\",\"kid\":\"AAECAwQFBgcICQoLDA0ODw\",\"k\":\"K34VFiiu0qar9xWICc9PPA\"}],\"type\":\"temporary\"}\n0 feed\n";

const MEDIA: &[u8] =
    b"SMPL 1\ntrack 1\nfragment\nsample 1 cenc 000102030405060708090a0b0c0d0e0f f0f1f2f3f4f5f6f7f8f9fafbfcfdfeff - 874d6191b620e3261bef6864990db6ce\n";

const LOG: &[u8] =
    b"1 call 0 2\n  promise 1 resolved\n2 call 0 3\n3 job\n4 task\n  promise 2 resolved\n5 task\n  event message 1 1 license-request {\"kids\":[\"AAECAwQFBgcICQoLDA0ODw\"],\"type\":\"temporary\"}\n6 settle 4\n7 call 0 5\n8 feed 6 1\n9 job\n10 task\n  statuses 1 000102030405060708090a0b0c0d0e0f=usable\n  promise 3 resolved\n11 task\n  event keystatuseschange 1\n12 task\n13 claim 0 1 0 1 000102030405060708090a0b0c0d0e0f\n14 deliver 13 taken\n15 publish 1 0 13\n16 settle 0\n";

// NIST SP 800-38A, appendix F.5.1
const CLEAR: [u8; 16] = [
    0x6b, 0xc1, 0xbe, 0xe2, 0x2e, 0x40, 0x9f, 0x96, 0xe9, 0x3d, 0x7e, 0x11, 0x73, 0x93, 0x17, 0x2a,
];

const SUMMARY: &[u8] =
    b"entries 16\npromises 3 resolved 3 rejected 0\ntrack 1 samples 1 bytes 16 waiting no\n";

const INSPECTION: &[u8] =
    b"fragment 1 track 1 samples 1 protected 1 bytes 16\nfragments 1 tracks 1\n";

const PLAY: &str = "play s m out --workers 0";

const INSPECT: &str = "inspect m";

// What a file holds of the text that it is to hold.
#[derive(Clone, Copy, Debug, PartialEq, Eq)]
enum Held {
    Nothing,
    Front(usize),
    Whole,
    Other,
}

fn held_of(found: &[u8], text: &[u8]) -> Held {
    if found == text {
        return Held::Whole;
    }
    if text.starts_with(found) {
        return Held::Front(found.len());
    }
    Held::Other
}

fn file_held(shelf: &MemoryShelf, name: &str, text: &[u8]) -> Held {
    match shelf.file(name) {
        None => Held::Nothing,
        Some(found) => held_of(found, text),
    }
}

// A kind of call of the shelf.
#[derive(Clone, Copy, Debug, PartialEq, Eq)]
enum Call {
    Read,
    Start,
    Append,
    Say,
}

fn fail(shelf: &mut MemoryShelf, call: Call, k: u64) -> Result<(), AllocError> {
    match call {
        Call::Read => shelf.fail_read(k),
        Call::Start => shelf.fail_start(k),
        Call::Append => shelf.fail_append(k),
        Call::Say => shelf.fail_say(k),
    }
}

// What a command left: its outcome, the log, the file of track 1, what was said, and the faults of the shelf.
#[derive(Clone, Copy, Debug, PartialEq, Eq)]
struct Left {
    outcome: Outcome,
    log: Held,
    track: Held,
    said: Held,
    faults: u128,
}

fn words_of(alloc: Global, line: &str) -> Result<Vec<String>, AllocError> {
    let mut words = Vec::new(alloc);
    for word in line.split(' ') {
        words.push(String::from_str(alloc, word)?)?;
    }
    Ok(words)
}

fn run_line<R: Threads + Wait + Sync>(
    rt: &R,
    shelf: &mut MemoryShelf,
    alloc: Global,
    line: &str,
) -> Result<Outcome, AllocError> {
    let words = words_of(alloc, line)?;
    Ok(run_player(rt, alloc, words.as_slice(), shelf, &FreeGate))
}

// Runs the line on a shelf with the script `s` and the media `m`.
fn run_on<R: Threads + Wait + Sync>(
    rt: &R,
    shelf: &mut MemoryShelf,
    alloc: Global,
    line: &str,
    text: &[u8],
) -> Result<Left, AllocError> {
    shelf.put_file("s", SCRIPT)?;
    shelf.put_file("m", MEDIA)?;
    let outcome = run_line(rt, shelf, alloc, line)?;
    Ok(Left {
        outcome,
        log: file_held(shelf, "out.log", LOG),
        track: file_held(shelf, "out.1", &CLEAR),
        said: held_of(shelf.said(), text),
        faults: shelf.faults(),
    })
}

// The same where the k-th of these calls fails.
fn run_failing<R: Threads + Wait + Sync>(
    rt: &R,
    alloc: Global,
    line: &str,
    text: &[u8],
    call: Call,
    k: u64,
) -> Result<Left, AllocError> {
    let mut shelf = MemoryShelf::new(alloc);
    fail(&mut shelf, call, k)?;
    run_on(rt, &mut shelf, alloc, line, text)
}

const UNREAD: Left = Left {
    outcome: Outcome::ReadFault,
    log: Held::Nothing,
    track: Held::Nothing,
    said: Held::Front(0),
    faults: 1,
};

// A size test, the bytes and the end of each file are three reads. A seventh read of a play, and a fourth of an inspection, are not made.
#[test]
fn each_failing_read_is_a_read_fault(rt: HostRuntime) -> Result<(), Fail> {
    for k in 1..7 {
        let left = run_failing(&rt, rt.alloc(), PLAY, SUMMARY, Call::Read, k)?;
        assert_eq!(rt; left, UNREAD);
    }
    for k in 1..4 {
        let left = run_failing(&rt, rt.alloc(), INSPECT, INSPECTION, Call::Read, k)?;
        assert_eq!(rt; left, UNREAD);
    }
    Ok(())
}

#[test]
fn each_failing_write_is_a_write_fault(rt: HostRuntime) -> Result<(), Fail> {
    for (line, text, call, k, log, track, said) in [
        // a failing append or say keeps the first half of its piece
        (
            PLAY,
            SUMMARY,
            Call::Start,
            1,
            Held::Nothing,
            Held::Nothing,
            0,
        ),
        (PLAY, SUMMARY, Call::Start, 2, Held::Whole, Held::Nothing, 0),
        (
            PLAY,
            SUMMARY,
            Call::Append,
            1,
            Held::Front(220),
            Held::Nothing,
            0,
        ),
        (
            PLAY,
            SUMMARY,
            Call::Append,
            2,
            Held::Whole,
            Held::Front(8),
            0,
        ),
        (PLAY, SUMMARY, Call::Say, 1, Held::Whole, Held::Whole, 41),
        (
            INSPECT,
            INSPECTION,
            Call::Say,
            1,
            Held::Nothing,
            Held::Nothing,
            35,
        ),
    ] {
        let left = run_failing(&rt, rt.alloc(), line, text, call, k)?;
        let said = Held::Front(said);
        let (outcome, faults) = (Outcome::WriteFault, 1);
        assert_eq!(rt;
            left,
            Left {
                outcome,
                log,
                track,
                said,
                faults
            }
        );
    }
    Ok(())
}

// Also the test that a command whose memory is ample does not answer want of it. No further call is made.
#[test]
fn a_command_without_a_fault_is_done(rt: HostRuntime) -> Result<(), Fail> {
    for (line, text, call, k, outcome, held) in [
        (PLAY, SUMMARY, Call::Read, 7, Outcome::Played, Held::Whole),
        (PLAY, SUMMARY, Call::Start, 3, Outcome::Played, Held::Whole),
        (PLAY, SUMMARY, Call::Append, 3, Outcome::Played, Held::Whole),
        (
            INSPECT,
            INSPECTION,
            Call::Read,
            4,
            Outcome::Done,
            Held::Nothing,
        ),
    ] {
        let left = run_failing(&rt, rt.alloc(), line, text, call, k)?;
        let (log, track) = (held, held);
        let (said, faults) = (Held::Whole, 0);
        assert_eq!(rt;
            left,
            Left {
                outcome,
                log,
                track,
                said,
                faults
            }
        );
    }
    Ok(())
}

fn plays_by<R: Threads + Wait + Sync>(
    rt: &R,
    alloc: Global,
    line: &str,
) -> Result<(Outcome, Held), AllocError> {
    let mut shelf = MemoryShelf::new(alloc);
    let left = run_on(rt, &mut shelf, alloc, line, SUMMARY)?;
    Ok((left.outcome, left.track))
}

#[test]
fn workers_write_the_same_track(rt: HostRuntime) -> Result<(), Fail> {
    for line in [
        "play s m out",
        "play s m out --workers 1",
        "play s m out --workers 16",
    ] {
        assert_eq!(rt;
            plays_by(&rt, rt.alloc(), line)?,
            (Outcome::Played, Held::Whole)
        );
    }
    Ok(())
}

// Words on a shelf without files: where they are in their grammar a file is not found.
#[test]
fn the_number_of_workers_is_read(rt: HostRuntime) -> Result<(), Fail> {
    for (line, place, kind) in [
        ("play s m out --workers", 6, UsageKind::MissingWord),
        ("play s m out --workers 17", 6, UsageKind::BadNumber),
        ("play s m out --workers 17 x", 6, UsageKind::BadNumber),
        ("play s m out --workers 00", 6, UsageKind::BadNumber),
        ("play s m out --workers +1", 6, UsageKind::BadNumber),
        ("play s m out --workers 4x", 6, UsageKind::BadNumber),
        ("play s m out --workers 16 x", 7, UsageKind::ExtraWord),
        ("play s m out --worker 4", 5, UsageKind::ExtraWord),
    ] {
        let mut shelf = MemoryShelf::new(rt.alloc());
        let outcome = run_line(&rt, &mut shelf, rt.alloc(), line)?;
        assert_eq!(rt; outcome, Outcome::Usage(UsageFault { place, kind }));
    }
    for line in [
        "play s m out",
        "play s m out --workers 0",
        "play s m out --workers 16",
    ] {
        let mut shelf = MemoryShelf::new(rt.alloc());
        let outcome = run_line(&rt, &mut shelf, rt.alloc(), line)?;
        assert_eq!(rt; outcome, Outcome::ReadFault);
    }
    Ok(())
}

#[test]
fn a_quiet_call_does_not_play(rt: HostRuntime) -> Result<(), Fail> {
    let words = words_of(rt.alloc(), PLAY)?;
    let outcome = run_quiet(
        rt.alloc(),
        words.as_slice(),
        &mut MemoryShelf::new(rt.alloc()),
    );
    let (place, kind) = (1, UsageKind::UnknownCommand);
    assert_eq!(rt; outcome, Outcome::Usage(UsageFault { place, kind }));
    assert_eq!(rt; status(&outcome), 2);
    let told = fault_text(rt.alloc(), &outcome)?;
    assert_eq!(rt;
        told.as_slice(),
        b"usage: word 1: UnknownCommand\n".as_slice()
    );
    Ok(())
}

#[test]
fn no_word_is_no_command(rt: HostRuntime) {
    let (place, kind) = (1, UsageKind::MissingCommand);
    let none = Outcome::Usage(UsageFault { place, kind });
    let mut shelf = MemoryShelf::new(rt.alloc());
    assert_eq!(rt; run_quiet(rt.alloc(), &[], &mut shelf), none);
    assert_eq!(rt;
        run_player(&rt, rt.alloc(), &[], &mut shelf, &FreeGate),
        none
    );
}

// The block of CLEAR under cbcs with the key and the IV of NIST SP 800-38A, appendix F.2.1.
const BLOCK: &[u8] =
    b"SMPL 1\ntrack 1\nfragment\nsample 1 clear 6bc1bee22e409f96e93d7e117393172a\n";

const CIPHERTEXT: [u8; 16] = [
    0x76, 0x49, 0xab, 0xac, 0x81, 0x19, 0xb2, 0x46, 0xce, 0xe9, 0x8e, 0x9b, 0x12, 0xe9, 0x19, 0x7d,
];

// The scheme, the key id, the key and the IV.
const PLAN: &str =
    "cbcs 000102030405060708090a0b0c0d0e0f 2b7e151628aed2a6abf7158809cf4f3c 000102030405060708090a0b0c0d0e0f";

// Seals the block with a lead, where the k-th append fails and leaves half of its bytes, and answers how the output ends.
fn seal_with<R: Threads + Wait + Sync>(
    rt: &R,
    alloc: Global,
    media: &str,
    lead: &str,
    k: u64,
) -> Result<(Outcome, Held), AllocError> {
    let mut shelf = MemoryShelf::new(alloc);
    shelf.put_file("b", BLOCK)?;
    shelf.put_file("m", MEDIA)?;
    shelf.fail_append(k)?;
    let line = format!(in alloc; "seal {media} {PLAN} {lead} out")?;
    let outcome = run_line(rt, &mut shelf, alloc, line.as_str())?;
    let last = if lead == "0" { CIPHERTEXT } else { CLEAR };
    let held = match shelf.file("out") {
        None => Held::Nothing,
        Some(found) if found.ends_with(&last) => Held::Whole,
        Some(found) => Held::Front(found.len()),
    };
    Ok((outcome, held))
}

#[test]
fn what_is_sealed_is_written(rt: HostRuntime) -> Result<(), Fail> {
    for (media, lead, k, outcome, held) in [
        ("b", "0", 2, Outcome::Done, Held::Whole),
        ("b", "20", 2, Outcome::Done, Held::Whole),
        ("b", "0", 1, Outcome::WriteFault, Held::Front(239)),
        (
            "m",
            "0",
            1,
            Outcome::SealRefused(SealKind::Protected),
            Held::Nothing,
        ),
    ] {
        let left = seal_with(&rt, rt.alloc(), media, lead, k)?;
        assert_eq!(rt; left, (outcome, held));
        let told = fault_text(rt.alloc(), &left.0)?;
        assert_eq!(rt;
            told.as_slice() == b"seal: Protected\n".as_slice(),
            media == "m"
        );
    }
    assert_eq!(rt; status(&Outcome::SealRefused(SealKind::Protected)), 9);
    Ok(())
}
