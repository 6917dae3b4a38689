//! A table of lines: calls of a core, each with what it answers, and the small functions that carry a line out.
mod rows;

ghost use Rattle.std.specs.Prelude.{◌≡◌, ◌≢◌, ◌≤◌, ◌*◌, [], ◌∷◌, IfOk, OnOk, MatchOption, IsTrue, length};
ghost use Rattle.std.specs.List.{sum_by, list_all};
ghost use Rattle.eme_types.specs.Fed.{sample_bytes};
ghost use Rattle.eme_types.specs.WellFormed.{is_well_formed};
ghost use Rattle.cdm_state.specs.History.{MayFeed};
ghost use Rattle.cdm_state.specs.Moment.{tick_to, last_moment};
ghost use Rattle.cdm_state.specs.Contract.{IsOpen};
ghost use Rattle.key_claims.specs.declared.claim.Claim.{Claim as Held};

use crate::{
    Cdm, Claim, ClaimFault, Delivered, NotReady, NotWaiting, Published, SettleFault, StepFault,
    moment_is_of_the_last_tick,
};
use eme_types::{
    AppCall, Bytes, Effect, EncSample, Entry, Event, Fragment, Inits, Iv, KeyId, Parts, Protect,
    Samples, Scheme, Settled, StatusList, Subs, TrackIds, TrackPart,
};
use rows::{
    BACK, CLAIMED_AGAIN, CLOSED, CLOSED_TWICE, EVICTED, EVICTED_BEFORE_ITS_JOB, EXPIRED, FULL,
    GRANTED, GRANTED_UNTIL_1000, IN_ORDER, LATER, ONE_MORE, OPENED, PAST_ITS_TIME, REFUSED,
    REMOVED, REPLACED, SAME, SECOND, TAKEN, UPDATED, WITHOUT_A_KEY,
};
use sample_crypt::open_sample;
use std::alloc::{AllocError, Global};
use std::str::from_utf8;
use std::test::Fail;

const KEY_ID: [u8; 16] = [0, 1, 2, 3, 4, 5, 6, 7, 8, 9, 10, 11, 12, 13, 14, 15];

/// The counter, the ciphertext and the plaintext of SP 800-38A section F.5.1, block 1.
const COUNTER: [u8; 16] = [
    0xf0, 0xf1, 0xf2, 0xf3, 0xf4, 0xf5, 0xf6, 0xf7, 0xf8, 0xf9, 0xfa, 0xfb, 0xfc, 0xfd, 0xfe, 0xff,
];

const SEALED: [u8; 16] = [
    0x87, 0x4d, 0x61, 0x91, 0xb6, 0x20, 0xe3, 0x26, 0x1b, 0xef, 0x68, 0x64, 0x99, 0x0d, 0xb6, 0xce,
];

/// The key of that section for the key id, as a member of a key set.
const KEY: &str =
    "{\"kty\":\"oct\",\"kid\":\"AAECAwQFBgcICQoLDA0ODw\",\"k\":\"K34VFiiu0qar9xWICc9PPA\"}";

/// Another key for the same id.
const OTHER: &str =
    "{\"kty\":\"oct\",\"kid\":\"AAECAwQFBgcICQoLDA0ODw\",\"k\":\"AAAAAAAAAAAAAAAAAAAAAA\"}";

fn sealed_sample(alloc: Global) -> Result<EncSample, Fail>
    ensures formed { IfOk result (λ sample. IsTrue (is_well_formed sample)) }
    ensures bytes { IfOk result (λ sample. length sample.bytes ≡ 16) }
{
    Ok(EncSample {
        protect: Some(Protect {
            scheme: Scheme::Cenc,
            kid: KeyId::new(alloc, &KEY_ID)?,
            iv: Iv::Sixteen(COUNTER),
            crypt: 0,
            skip: 0,
            subs: Subs::new(alloc),
        }),
        bytes: Bytes::from_slice(alloc, &SEALED)?,
    })
}

fn clear_sample(alloc: Global) -> Result<EncSample, Fail>
    ensures formed { IfOk result (λ sample. IsTrue (is_well_formed sample)) }
    ensures bytes { IfOk result (λ sample. length sample.bytes ≡ 3) }
{
    Ok(EncSample {
        protect: None,
        bytes: Bytes::from_slice(alloc, b"abc")?,
    })
}

/// Unprotected samples, and then protected ones.
fn samples(alloc: Global, clear: usize, count: usize) -> Result<Samples, Fail>
    ensures formed { IfOk result (λ samples. IsTrue (list_all is_well_formed samples)) }
    ensures count { IfOk result (λ samples. length samples ≡ count) }
    ensures bytes { IfOk result (λ samples. sum_by sample_bytes samples ≤ 16 * count) }
{
    let mut samples = Samples::new(alloc);
    for n in 0..count {
        let sample = if n < clear {
            clear_sample(alloc)?
        } else {
            sealed_sample(alloc)?
        };
        samples.push(sample)?;
    }
    Ok(samples)
}

fn fragment(alloc: Global, samples: Samples) -> Result<Fragment, Fail>
    requires formed { IsTrue (list_all is_well_formed samples) }
    requires few { length samples ≤ 17 }
    requires small { sum_by sample_bytes samples ≤ 272 }
    ensures { IfOk result (λ f. MayFeed (1 ∷ []) [] f) }
{
    let mut parts = Parts::new(alloc);
    parts.push(TrackPart { track: 1, samples })?;
    Ok(Fragment {
        inits: Inits::new(alloc),
        parts,
    })
}

fn one_track(alloc: Global) -> Result<Cdm, Fail>
    ensures { IfOk result (λ cdm. cdm ≡ record { tracks = 1 ∷ []; history = [] }) }
{
    let mut ids = TrackIds::new(alloc);
    ids.push(1)?;
    Ok(Cdm::new(alloc, &ids)?)
}

/// A core with one track, to which these samples were fed.
fn fed(alloc: Global, clear: usize, count: usize) -> Result<Cdm, Fail>
    requires { count ≤ 17 }
{
    let mut cdm = one_track(alloc)?;
    let given = fragment(alloc, samples(alloc, clear, count)?)?;
    match cdm.feed(6, Some(given)) {
        Ok(()) => Ok(cdm),
        Err(back) => Err(Fail::from(back.error)),
    }
}

/// The first word, and the rest.
fn cut(text: &str) -> (&str, &str) {
    match text.split_once(' ') {
        Some(parts) => parts,
        None => (text, ""),
    }
}

/// A key set: the key of the samples, another key, first another and then that one, that key until or from a moment, or as it stands there.
fn key_set(alloc: Global, name: &str) -> Result<Bytes, Fail> {
    let text = match name {
        "same" => format!(in alloc; "{{\"keys\":[{KEY}]}}")?,
        "other" => format!(in alloc; "{{\"keys\":[{OTHER}]}}")?,
        "both" => format!(in alloc; "{{\"keys\":[{OTHER},{KEY}]}}")?,
        "until 1000" => format!(in alloc; "{{\"keys\":[{KEY}],\"expires\":1000}}")?,
        "from 10" => format!(in alloc; "{{\"keys\":[{KEY}],\"from\":10}}")?,
        text => String::from_str(alloc, text)?,
    };
    Ok(Bytes::from_slice(alloc, text.as_str().as_bytes())?)
}

/// The call of a line: the verb, the label, and initialization data or a key set.
fn call_of(alloc: Global, line: &str) -> Result<AppCall, Fail> {
    let (verb, words) = cut(line);
    let (name, data) = cut(words);
    let label = Bytes::from_slice(alloc, name.as_bytes())?;
    match verb {
        "create" => Ok(AppCall::Create {
            label,
            kind: Bytes::from_slice(alloc, b"temporary")?,
        }),
        "request" => Ok(AppCall::Request {
            label,
            kind: Bytes::from_slice(alloc, b"keyids")?,
            init: Bytes::from_slice(alloc, data.as_bytes())?,
        }),
        "update" => Ok(AppCall::Update {
            label,
            response: key_set(alloc, data)?,
        }),
        "close" => Ok(AppCall::Close { label }),
        _ => Ok(AppCall::Remove { label }),
    }
}

fn ask(alloc: Global, cdm: &mut Cdm, line: &str) -> Result<String, Fail>
    ensures { OnOk result ((c : Held) → IsOpen cdm.old c → IsOpen cdm.new c) }
{
    let call = call_of(alloc, line)?;
    match cdm.call(0, 2, call) {
        Ok(promise) => Ok(format!(in alloc; "promise {promise}")?),
        Err(back) => Err(Fail::from(back.error)),
    }
}

/// Whether a session was evicted.
fn evict(alloc: Global, cdm: &mut Cdm, label: &str) -> Result<String, Fail>
    ensures { OnOk result ((c : Held) → IsOpen cdm.old c → IsOpen cdm.new c) }
{
    let label = Bytes::from_slice(alloc, label.as_bytes())?;
    match cdm.evict(7, label) {
        Ok(evicted) => Ok(format!(in alloc; "{evicted}")?),
        Err(back) => Err(Fail::from(back.error)),
    }
}

/// What a step of the queues answered.
fn stepped(alloc: Global, answer: Result<(), StepFault>) -> Result<String, Fail> {
    match answer {
        Ok(()) => Ok(String::from_str(alloc, "done")?),
        Err(StepFault::Empty) => Ok(String::from_str(alloc, "none")?),
        Err(fault) => Err(Fail::from(fault)),
    }
}

fn job(alloc: Global, cdm: &mut Cdm) -> Result<String, Fail>
    ensures { (c : Held) → IsOpen cdm.old c → IsOpen cdm.new c }
{
    stepped(alloc, cdm.job())
}

fn task(alloc: Global, cdm: &mut Cdm) -> Result<String, Fail>
    ensures { (c : Held) → IsOpen cdm.old c → IsOpen cdm.new c }
{
    stepped(alloc, cdm.task())
}

fn after(moment: u64, entry: &Entry) -> u64
    ensures { result ≡ tick_to moment entry.now }
{
    match entry {
        Entry::Tick { moment, .. } => *moment,
        _ => moment,
    }
}

/// The moment of the last tick.
fn moment_of(history: &[Entry]) -> u64
    ensures { result ≡ last_moment history.now }
{
    let mut moment = 0;
    for entry in history {
        moment = after(moment, entry);
    }
    moment
}

fn clock(alloc: Global, cdm: &mut Cdm, moment: u64) -> Result<String, Fail>
    ensures { (c : Held) → IsOpen cdm.old c → IsOpen cdm.new c }
{
    moment_is_of_the_last_tick();
    if moment < moment_of(cdm.history()) {
        return Ok(String::from_str(alloc, "past")?);
    }
    cdm.tick(5, moment)?;
    Ok(String::from_str(alloc, "done")?)
}

/// What came out.
fn shown(alloc: Global, answer: Result<Published, NotReady>) -> Result<String, Fail> {
    match answer {
        Ok(out) => {
            let track = out.track;
            let index = out.index;
            Ok(format!(in alloc; "sample {index} of {track}")?)
        }
        Err(NotReady) => Ok(String::from_str(alloc, "not ready")?),
    }
}

fn publish(alloc: Global, cdm: &mut Cdm) -> Result<String, Fail>
    ensures { (c : Held) → IsOpen cdm.old c → IsOpen cdm.new c }
{
    shown(alloc, cdm.publish())
}

fn pass(alloc: Global, cdm: &mut Cdm) -> Result<String, Fail>
    ensures { (c : Held) → IsOpen cdm.old c → IsOpen cdm.new c }
{
    shown(alloc, cdm.pass_clear())
}

/// Which track began to wait.
fn waited(alloc: Global, answer: Result<u32, NotWaiting>) -> Result<String, Fail> {
    match answer {
        Ok(track) => Ok(format!(in alloc; "track {track}")?),
        Err(NotWaiting) => Ok(String::from_str(alloc, "not waiting")?),
    }
}

fn wait(alloc: Global, cdm: &mut Cdm) -> Result<String, Fail>
    ensures { (c : Held) → IsOpen cdm.old c → IsOpen cdm.new c }
{
    waited(alloc, cdm.wait_for_key())
}

/// What is left to do.
fn settled(alloc: Global, answer: Result<(), SettleFault>) -> Result<String, Fail> {
    match answer {
        Ok(()) => Ok(String::from_str(alloc, "done")?),
        Err(SettleFault::Job) => Ok(String::from_str(alloc, "job")?),
        Err(SettleFault::Task) => Ok(String::from_str(alloc, "task")?),
        Err(SettleFault::Track(track)) => Ok(format!(in alloc; "track {track}")?),
        Err(fault) => Err(Fail::from(fault)),
    }
}

fn settle(alloc: Global, cdm: &mut Cdm) -> Result<String, Fail>
    ensures { (c : Held) → IsOpen cdm.old c → IsOpen cdm.new c }
{
    settled(alloc, cdm.settle(9))
}

/// The bytes that are out of a sample, and whether the track waits, for a key that is usable later or not.
fn output(alloc: Global, cdm: &Cdm, index: u32) -> Result<String, Fail> {
    let mut text = String::new(alloc);
    match cdm.output(1, index) {
        None => text.push_str("nothing")?,
        Some(bytes) => {
            for byte in bytes {
                write!(&mut text, "{byte:02x}")?;
            }
        }
    }
    if cdm.waiting(1) {
        text.push_str(", waiting")?;
    }
    if cdm.waits_later(1) {
        text.push_str(" for later")?;
    }
    Ok(text)
}

fn reported(alloc: Global, session: u32, list: &StatusList) -> Result<String, AllocError> {
    let mut text = format!(in alloc; "statuses {session}")?;
    for (kid, status) in list.as_slice() {
        text.push_str(" ")?;
        for byte in kid.bytes() {
            write!(&mut text, "{byte:02x}")?;
        }
        write!(&mut text, "={status:?}")?;
    }
    Ok(text)
}

fn settled_as(alloc: Global, promise: u64, how: &Settled) -> Result<String, AllocError> {
    match how {
        Settled::Resolved => format!(in alloc; "promise {promise} resolved"),
        Settled::Rejected(error) => format!(in alloc; "promise {promise} rejected {error:?}"),
        _ => format!(in alloc; "promise {promise} resolved with a value"),
    }
}

fn fired(alloc: Global, event: &Event) -> Result<String, AllocError> {
    match event {
        Event::KeyStatuses { session } => format!(in alloc; "keystatuseschange {session}"),
        Event::WaitingForKey { track } => format!(in alloc; "waitingforkey {track}"),
        _ => String::from_str(alloc, "event"),
    }
}

fn effect(alloc: Global, effect: &Effect) -> Result<String, AllocError> {
    match effect {
        Effect::Statuses { session, list } => reported(alloc, *session, list),
        Effect::Closed { session, reason } => { format!(in alloc; "closed {session} {reason:?}") }
        Effect::Promise { promise, how } => settled_as(alloc, *promise, how),
        Effect::Fired { event } => fired(alloc, event),
    }
}

/// What the last entry did that the application can see.
fn done(alloc: Global, cdm: &Cdm) -> Result<String, Fail> {
    let mut text = String::new(alloc);
    if let Some(effects) = cdm.effects(cdm.history().len() as u64) {
        for it in effects {
            if !text.is_empty() {
                text.push_str("; ")?;
            }
            text.push_str(effect(alloc, it)?.as_str())?;
        }
    }
    if text.is_empty() {
        text.push_str("nothing")?;
    }
    Ok(text)
}

/// Does what a line says that neither gives nor takes a claim.
fn step(alloc: Global, cdm: &mut Cdm, line: &str) -> Result<String, Fail>
    ensures { OnOk result ((c : Held) → IsOpen cdm.old c → IsOpen cdm.new c) }
{
    match cut(line) {
        ("job", _) => job(alloc, cdm),
        ("task", _) => task(alloc, cdm),
        ("clock", moment) => clock(alloc, cdm, moment.parse::<u64>()?),
        ("evict", label) => evict(alloc, cdm, label),
        ("publish", _) => publish(alloc, cdm),
        ("pass", _) => pass(alloc, cdm),
        ("wait", _) => wait(alloc, cdm),
        ("settle", _) => settle(alloc, cdm),
        ("output", index) => output(alloc, cdm, index.parse::<u32>()?),
        ("done", _) => done(alloc, cdm),
        _ => ask(alloc, cdm, line),
    }
}

/// A claim of a worker, if one is given.
fn claim(alloc: Global, cdm: &mut Cdm, worker: u8) -> Result<(Option<Claim>, String), Fail>
    ensures { IfOk result (λ r. MatchOption r.0 (Unit {0}) (λ c. IsOpen cdm.new c)) }
{
    match cdm.claim(worker) {
        Ok(claim) => {
            let track = claim.track;
            let index = claim.index;
            let session = claim.session;
            let place = claim.place;
            let first = claim.key.bytes[0];
            let text = format!(in alloc;
                "sample {index} of {track} under {session} with {first:02x} at {place}"
            )?;
            Ok((Some(claim), text))
        }
        Err(ClaimFault::NoWork) => Ok((None, String::from_str(alloc, "no work")?)),
        Err(fault) => Err(Fail::from(fault)),
    }
}

/// Whether the claim is taken, with the sample opened under its key.
fn is_taken(alloc: Global, cdm: &mut Cdm, claim: Claim) -> Result<bool, Fail>
    requires { IsOpen cdm.old claim }
    ensures { (c : Held) → c.place ≢ claim.place → IsOpen cdm.old c → IsOpen cdm.new c }
{
    let clear = open_sample(alloc, &claim.sample, &claim.key)?;
    match cdm.deliver(claim, clear) {
        Delivered::Taken => Ok(true),
        Delivered::Stale(_) => Ok(false),
    }
}

fn deliver(alloc: Global, cdm: &mut Cdm, held: Option<Claim>) -> Result<String, Fail>
    requires { MatchOption held (Unit {0}) (λ c. IsOpen cdm.old c) }
{
    let Some(claim) = held else {
        return Ok(String::from_str(alloc, "no claim")?);
    };
    let text = if is_taken(alloc, cdm, claim)? {
        "taken"
    } else {
        "stale"
    };
    Ok(String::from_str(alloc, text)?)
}

fn give_up(alloc: Global, cdm: &mut Cdm, held: Option<Claim>) -> Result<String, Fail>
    requires { MatchOption held (Unit {0}) (λ c. IsOpen cdm.old c) }
{
    let Some(claim) = held else {
        return Ok(String::from_str(alloc, "no claim")?);
    };
    cdm.give_up(claim);
    Ok(String::from_str(alloc, "done")?)
}

/// Calls that make so many sessions.
fn many_sessions(alloc: Global, cdm: &mut Cdm, count: u32) -> Result<String, Fail> {
    for _ in 0..count {
        ask(alloc, cdm, "create a")?;
    }
    Ok(String::from_str(alloc, "done")?)
}

/// An update of 256 key ids of three bytes each.
fn many_keys(alloc: Global) -> Result<String, AllocError> {
    let mut line = String::from_str(alloc, "update a {\"keys\":[")?;
    for n in 0..256u32 {
        if n > 0 {
            line.push_str(",")?;
        }
        write!(
            &mut line,
            "{{\"kty\":\"oct\",\"kid\":\"AA{n:02x}\",\"k\":\"AAAAAAAAAAAAAAAAAAAAAA\"}}"
        )?;
    }
    line.push_str("]}")?;
    Ok(line)
}

/// Whether no claim is given.
fn is_out_of_work(cdm: &mut Cdm) -> Result<bool, Fail>
    ensures { (c : Held) → IsOpen cdm.old c → IsOpen cdm.new c }
{
    match cdm.claim(1) {
        Err(ClaimFault::NoWork) => Ok(true),
        Err(fault) => Err(Fail::from(fault)),
        Ok(_) => Ok(false),
    }
}

/// Claims so many samples and delivers them, the last first. Whether no further one is given, and none is out before the first is delivered.
fn claimed_and_delivered(alloc: Global, cdm: &mut Cdm, count: u32) -> Result<bool, Fail>
    ensures { OnOk result ((c : Held) → IsOpen cdm.old c → IsOpen cdm.new c) }
{
    if count == 0 {
        return is_out_of_work(cdm);
    }
    let claim = cdm.claim(1)?;
    let rest = claimed_and_delivered(alloc, cdm, count - 1)?;
    let early = publish(alloc, cdm)?;
    let taken = is_taken(alloc, cdm, claim)?;
    let all = taken && rest && early.as_str() == "not ready";
    Ok(all)
}

/// So many claims, the last delivered first.
fn many_claims(alloc: Global, cdm: &mut Cdm, count: u32) -> Result<String, Fail> {
    let text = if claimed_and_delivered(alloc, cdm, count)? {
        "done"
    } else {
        "otherwise"
    };
    Ok(String::from_str(alloc, text)?)
}

/// Does what a line says, and tells which claim is held after it.
fn act(
    alloc: Global,
    cdm: &mut Cdm,
    held: Option<Claim>,
    line: &str,
) -> Result<(Option<Claim>, String), Fail>
    requires { MatchOption held (Unit {0}) (λ c. IsOpen cdm.old c) }
    ensures { IfOk result (λ r. MatchOption r.0 (Unit {0}) (λ c. IsOpen cdm.new c)) }
{
    match line {
        "claim" => claim(alloc, cdm, 1),
        "deliver" => Ok((None, deliver(alloc, cdm, held)?)),
        "give up" => Ok((None, give_up(alloc, cdm, held)?)),
        "64 sessions" => Ok((None, many_sessions(alloc, cdm, 64)?)),
        "256 keys" => Ok((None, ask(alloc, cdm, many_keys(alloc)?.as_str())?)),
        "16 claims" => Ok((None, many_claims(alloc, cdm, 16)?)),
        _ => {
            let text = step(alloc, cdm, line)?;
            Ok((held, text))
        }
    }
}

/// The first line that does not answer what stands behind its arrow, with its answer.
fn differing(alloc: Global, cdm: &mut Cdm, rows: &[u8]) -> Result<String, Fail> {
    let mut held = None;
    for row in from_utf8(rows)?.lines() {
        if let Some((line, want)) = row.split_once(" -> ") {
            let (now, text) = act(alloc, cdm, held, line)?;
            held = now;
            if text.as_str() != want {
                return Ok(format!(in alloc; "{line} -> {text}")?);
            }
        }
    }
    Ok(String::new(alloc))
}

/// The first line of some texts that does not answer what stands behind its arrow, with its answer.
fn first_differing(alloc: Global, cdm: &mut Cdm, texts: &[&[u8]]) -> Result<String, Fail> {
    for rows in texts {
        let wrong = differing(alloc, cdm, rows)?;
        if !wrong.is_empty() {
            return Ok(wrong);
        }
    }
    Ok(String::new(alloc))
}

/// The same in a core with one track, to which these samples were fed.
fn played(alloc: Global, clear: usize, count: usize, texts: &[&[u8]]) -> Result<String, Fail>
    requires { count ≤ 17 }
{
    let mut cdm = fed(alloc, clear, count)?;
    first_differing(alloc, &mut cdm, texts)
}

#[test]
fn claims_are_taken_just_where_their_key_was_held_all_along(rt: HostRuntime) -> Result<(), Fail> {
    for rows in [
        TAKEN,
        SAME,
        BACK,
        REPLACED,
        CLOSED,
        REMOVED,
        EVICTED,
        LATER,
        SECOND,
        CLAIMED_AGAIN,
    ] {
        assert_eq!(rt; played(rt.alloc(), 0, 1, &[GRANTED, rows])?.as_str(), "");
    }
    assert_eq!(rt;
        played(rt.alloc(), 0, 1, &[GRANTED_UNTIL_1000, EXPIRED])?.as_str(),
        ""
    );
    Ok(())
}

#[test]
fn samples_are_out_in_order(rt: HostRuntime) -> Result<(), Fail> {
    assert_eq!(rt;
        played(rt.alloc(), 0, 17, &[GRANTED, IN_ORDER])?.as_str(),
        ""
    );
    assert_eq!(rt; played(rt.alloc(), 1, 2, &[WITHOUT_A_KEY])?.as_str(), "");
    Ok(())
}

#[test]
fn the_application_sees_what_was_done(rt: HostRuntime) -> Result<(), Fail> {
    for rows in [CLOSED_TWICE, EVICTED_BEFORE_ITS_JOB, UPDATED, FULL] {
        assert_eq!(rt; played(rt.alloc(), 0, 1, &[OPENED, rows])?.as_str(), "");
    }
    assert_eq!(rt;
        played(rt.alloc(), 0, 1, &[GRANTED_UNTIL_1000, PAST_ITS_TIME])?.as_str(),
        ""
    );
    assert_eq!(rt; played(rt.alloc(), 0, 1, &[REFUSED])?.as_str(), "");
    assert_eq!(rt; played(rt.alloc(), 0, 1, &[ONE_MORE])?.as_str(), "");
    Ok(())
}

#[test]
fn a_core_knows_its_tracks_and_entries(rt: HostRuntime) -> Result<(), Fail> {
    let cdm = fed(rt.alloc(), 0, 1)?;
    assert_eq!(rt; cdm.tracks().as_slice(), [1].as_slice());
    assert_eq!(rt; cdm.history().len(), 1);
    assert!(rt; cdm.effects(0).is_none() && cdm.effects(2).is_none());
    Ok(())
}
