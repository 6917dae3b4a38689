//! News of a small play, told behind each entry.
ghost use Rattle.std.specs.Prelude.{◌≡◌, ◌≤◌, [], ◌∷◌, IfOk, OnOk, None, length};
ghost use mathlib.Core.List.{IsPrefix};
ghost use Rattle.eme_types.specs.declared.limits.TheConstants.{MAX_SAMPLES, MAX_SAMPLE_BYTES};
ghost use Rattle.cdm_state.specs.History.{MayFeed, fed_samples, fed_bytes};
ghost use Rattle.output_order.specs.News.{IsMarkOf, IsMark};

use crate::{Mark, log_text, news_since, track_bytes};
use cdm_state::Cdm;
use eme_types::{
    AppCall, Bytes, EncSample, Fragment, InitData, InitKind, Inits, Parts, Samples, TrackIds,
    TrackPart,
};
use std::alloc::{AllocError, Global};
use std::process::Abort;
use std::test::Fail;

const LOG: &str =
    "1 feed 1 1\n2 feed 2 2\n3 task\n  event encrypted keyids -\n4 task\n  event encrypted cenc 0aff\n5 call 0 3\n  promise 1 resolved false\n6 clear 7 0\n7 clear 7 1\n8 clear 3 0\n9 feed 4 -\n10 settle 5\n";

/// What was told so far of a core with the tracks 7 and 3.
#[derive(Drop)]
struct Told {
    mark: Mark,
    log: Bytes,
    of_7: Bytes,
    of_3: Bytes,
}

fn clear_sample(alloc: Global, bytes: &[u8]) -> Result<EncSample, AllocError>
    ensures clear { IfOk result (λ s. s.protect ≡ None) }
    ensures bytes { IfOk result (λ s. s.bytes ≡ bytes.now) }
{
    Ok(EncSample {
        protect: None,
        bytes: Bytes::from_slice(alloc, bytes)?,
    })
}

/// Two samples of track 7, one of track 3, and initialization data.
fn samples(alloc: Global) -> Result<Fragment, AllocError>
    ensures { IfOk result (λ f. MayFeed (7 ∷ 3 ∷ []) [] f) }
{
    let mut of_7 = Samples::new(alloc);
    of_7.push(clear_sample(alloc, b"ab")?)?;
    of_7.push(clear_sample(alloc, b"c")?)?;
    let mut of_3 = Samples::new(alloc);
    of_3.push(clear_sample(alloc, b"xyz")?)?;
    let mut parts = Parts::new(alloc);
    parts.push(TrackPart {
        track: 7,
        samples: of_7,
    })?;
    parts.push(TrackPart {
        track: 3,
        samples: of_3,
    })?;
    let mut inits = Inits::new(alloc);
    inits.push(InitData {
        kind: InitKind::Keyids,
        bytes: Bytes::new(alloc),
    })?;
    Ok(Fragment { inits, parts })
}

/// Initialization data without a sample.
fn init(alloc: Global) -> Result<Fragment, AllocError>
    ensures { IfOk result (λ f. f.parts ≡ []) }
{
    let mut inits = Inits::new(alloc);
    inits.push(InitData {
        kind: InitKind::Cenc,
        bytes: Bytes::from_slice(alloc, &[0x0a, 0xff])?,
    })?;
    Ok(Fragment {
        inits,
        parts: Parts::new(alloc),
    })
}

fn feed_samples(alloc: Global, cdm: &mut Cdm) -> Result<(), AllocError>
    requires { cdm.old ≡ record { tracks = 7 ∷ 3 ∷ []; history = [] } }
    ensures grows { (cdm.new.tracks ≡ cdm.old.tracks) × IsPrefix cdm.old.history cdm.new.history }
    ensures few { OnOk result ((fed_samples cdm.new.history ≤ MAX_SAMPLES) × (fed_bytes cdm.new.history ≤ MAX_SAMPLE_BYTES)) }
{
    let fragment = samples(alloc)?;
    match cdm.feed(1, Some(fragment)) {
        Ok(()) => Ok(()),
        Err(back) => Err(back.error),
    }
}

fn feed_init(alloc: Global, cdm: &mut Cdm) -> Result<(), AllocError>
    requires few { (fed_samples cdm.old.history ≤ MAX_SAMPLES) × (fed_bytes cdm.old.history ≤ MAX_SAMPLE_BYTES) }
    ensures grows { (cdm.new.tracks ≡ cdm.old.tracks) × IsPrefix cdm.old.history cdm.new.history }
{
    let fragment = init(alloc)?;
    match cdm.feed(2, Some(fragment)) {
        Ok(()) => Ok(()),
        Err(back) => Err(back.error),
    }
}

fn task(cdm: &mut Cdm) -> bool
    ensures { (cdm.new.tracks ≡ cdm.old.tracks) × IsPrefix cdm.old.history cdm.new.history }
{
    cdm.task().is_ok()
}

fn ask(alloc: Global, cdm: &mut Cdm) -> bool
    ensures { (cdm.new.tracks ≡ cdm.old.tracks) × IsPrefix cdm.old.history cdm.new.history }
{
    let call = AppCall::Certificate {
        cert: Bytes::new(alloc),
    };
    cdm.call(0, 3, call).is_ok()
}

fn pass(cdm: &mut Cdm) -> bool
    ensures { (cdm.new.tracks ≡ cdm.old.tracks) × IsPrefix cdm.old.history cdm.new.history }
{
    cdm.pass_clear().is_ok()
}

fn feed_nothing(cdm: &mut Cdm) -> bool
    ensures { (cdm.new.tracks ≡ cdm.old.tracks) × IsPrefix cdm.old.history cdm.new.history }
{
    cdm.feed(4, None).is_ok()
}

fn settle(cdm: &mut Cdm) -> bool
    ensures { (cdm.new.tracks ≡ cdm.old.tracks) × IsPrefix cdm.old.history cdm.new.history }
{
    cdm.settle(5).is_ok()
}

/// Does what a word says; answers whether it was done.
fn step(alloc: Global, cdm: &mut Cdm, word: &str) -> bool
    ensures { (cdm.new.tracks ≡ cdm.old.tracks) × IsPrefix cdm.old.history cdm.new.history }
{
    match word {
        "task" => task(cdm),
        "ask" => ask(alloc, cdm),
        "pass" => pass(cdm),
        "feed" => feed_nothing(cdm),
        _ => settle(cdm),
    }
}

/// What was told is the whole.
fn is_all(rt: &impl Abort, alloc: Global, cdm: &Cdm, told: &Told) -> Result<(), Fail> {
    let log = log_text(alloc, cdm)?;
    assert_eq!(rt; told.log.as_slice(), log.as_slice());
    let of_7 = track_bytes(alloc, cdm, 7)?;
    assert_eq!(rt; told.of_7.as_slice(), of_7.as_slice());
    let of_3 = track_bytes(alloc, cdm, 3)?;
    assert_eq!(rt; told.of_3.as_slice(), of_3.as_slice());
    Ok(())
}

/// Tells the news behind what was told.
fn tell(rt: &impl Abort, alloc: Global, cdm: &Cdm, told: &mut Told) -> Result<(), Fail>
    requires { IsMark cdm.now.tracks cdm.now.history told.old.mark }
    ensures { OnOk result (IsMarkOf cdm.now.tracks cdm.now.history told.new.mark) }
{
    let news = news_since(alloc, cdm, &told.mark)?;
    told.log.extend_from_slice(news.log.as_slice())?;
    let [(first, of_7), (second, of_3)] = news.tracks.as_slice() else {
        return Err(Fail::from("another number of tracks"));
    };
    assert_eq!(rt; (*first, *second), (7, 3));
    told.of_7.extend_from_slice(of_7.as_slice())?;
    told.of_3.extend_from_slice(of_3.as_slice())?;
    told.mark = news.mark;
    is_all(rt, alloc, cdm, told)
}

/// The play, told behind each entry.
fn play(rt: &impl Abort, alloc: Global, cdm: &mut Cdm, told: &mut Told) -> Result<(), Fail>
    requires core { cdm.old ≡ record { tracks = 7 ∷ 3 ∷ []; history = [] } }
    requires mark { IsMarkOf (7 ∷ 3 ∷ []) [] told.old.mark }
    ensures { OnOk result (IsMarkOf cdm.new.tracks cdm.new.history told.new.mark) }
{
    feed_samples(alloc, cdm)?;
    tell(rt, alloc, cdm, told)?;
    feed_init(alloc, cdm)?;
    tell(rt, alloc, cdm, told)?;
    for word in [
        "task", "task", "ask", "pass", "pass", "pass", "feed", "settle",
    ] {
        let done = step(alloc, cdm, word);
        assert!(rt; done);
        tell(rt, alloc, cdm, told)?;
    }
    Ok(())
}

fn untold(alloc: Global, tracks: &TrackIds) -> Result<Told, AllocError>
    ensures { IfOk result (λ told. IsMarkOf tracks.now [] told.mark) }
{
    Ok(Told {
        mark: Mark::start(alloc, tracks)?,
        log: Bytes::new(alloc),
        of_7: Bytes::new(alloc),
        of_3: Bytes::new(alloc),
    })
}

/// Behind the mark of the whole history nothing is news.
fn nothing_is_news(rt: &impl Abort, alloc: Global, cdm: &Cdm, mark: &Mark) -> Result<(), Fail>
    requires { IsMark cdm.now.tracks cdm.now.history mark.now }
{
    let news = news_since(alloc, cdm, mark)?;
    assert_eq!(rt; news.log.len(), 0);
    for (_, more) in news.tracks.as_slice() {
        assert_eq!(rt; more.len(), 0);
    }
    Ok(())
}

#[test]
fn news_join_to_the_whole(rt: HostRuntime) -> Result<(), Fail> {
    let alloc = rt.alloc();
    let mut tracks = TrackIds::new(alloc);
    tracks.push(7)?;
    tracks.push(3)?;
    let mut told = untold(alloc, &tracks)?;
    let mut cdm = Cdm::new(alloc, &tracks)?;
    play(&rt, alloc, &mut cdm, &mut told)?;
    assert_eq!(rt; told.log.as_slice(), LOG.as_bytes());
    assert_eq!(rt; told.of_7.as_slice(), b"abc".as_slice());
    assert_eq!(rt; told.of_3.as_slice(), b"xyz".as_slice());
    assert_eq!(rt; told.mark.entries, 10);
    assert_eq!(rt; told.mark.published.as_slice(), [2, 1].as_slice());
    nothing_is_news(&rt, alloc, &cdm, &told.mark)
}
