//! Schedules: a core that is lent does, in the order of the words of a text, what a script's lines ask and the steps between them.
ghost use Rattle.std.specs.Prelude.{◌≡◌, ◌≢◌, IfOk, OnOk, MatchOption, IsTrue};
ghost use Rattle.eme_types.specs.Fed.{IsFed};
ghost use Rattle.cdm_state.specs.Contract.{IsOpen};
ghost use Rattle.cdm_state.specs.History.{MayFeedNext};
ghost use Rattle.cdm_state.specs.Moment.{tick_to, last_moment};
ghost use Rattle.key_claims.specs.declared.claim.Claim.{Claim as Held};

use cdm_state::{Cdm, Claim, ClaimFault, Delivered, moment_is_of_the_last_tick};
use eme_types::{AppCall, Bytes, Copies, Entry, Fragment, Media};
use sample_crypt::open_sample;
use script_lang::{Action, Line};
use std::alloc::{AllocError, Global};
use std::test::Fail;

/// The claims of two workers; words speak of the one.
#[derive(Drop)]
struct Hands {
    one: Option<Claim>,
    other: Option<Claim>,
}

/// The first fragment, where none was fed.
fn first_fragment(cdm: &Cdm, media: &Media) -> Result<Option<Fragment>, AllocError>
    requires fed { IsFed media.now }
    requires tracks { cdm.now.tracks ≡ media.now.tracks }
    ensures { IfOk result (λ given. MayFeedNext cdm.now.tracks cdm.now.history given) }
{
    if cdm.fragments() > 0 {
        return Ok(None);
    }
    match media.fragments.as_slice() {
        [] => Ok(None),
        [first, ..] => Ok(Some(first.copy()?)),
    }
}

fn feed(cdm: &mut Cdm, line: u32, given: Option<Fragment>) -> bool
    requires { MayFeedNext cdm.old.tracks cdm.old.history given }
    ensures tracks { cdm.new.tracks ≡ cdm.old.tracks }
    ensures open_ { (c : Held) → IsOpen cdm.old c → IsOpen cdm.new c }
{
    cdm.feed(line, given).is_ok()
}

fn ask(cdm: &mut Cdm, lane: u8, line: u32, call: AppCall) -> bool
    ensures tracks { cdm.new.tracks ≡ cdm.old.tracks }
    ensures open_ { (c : Held) → IsOpen cdm.old c → IsOpen cdm.new c }
{
    cdm.call(lane, line, call).is_ok()
}

fn evict(cdm: &mut Cdm, line: u32, label: Bytes) -> bool
    ensures tracks { cdm.new.tracks ≡ cdm.old.tracks }
    ensures open_ { (c : Held) → IsOpen cdm.old c → IsOpen cdm.new c }
{
    cdm.evict(line, label).is_ok()
}

fn settle(cdm: &mut Cdm, line: u32) -> bool
    ensures tracks { cdm.new.tracks ≡ cdm.old.tracks }
    ensures open_ { (c : Held) → IsOpen cdm.old c → IsOpen cdm.new c }
{
    cdm.settle(line).is_ok()
}

fn job(cdm: &mut Cdm) -> bool
    ensures tracks { cdm.new.tracks ≡ cdm.old.tracks }
    ensures open_ { (c : Held) → IsOpen cdm.old c → IsOpen cdm.new c }
{
    cdm.job().is_ok()
}

fn task(cdm: &mut Cdm) -> bool
    ensures tracks { cdm.new.tracks ≡ cdm.old.tracks }
    ensures open_ { (c : Held) → IsOpen cdm.old c → IsOpen cdm.new c }
{
    cdm.task().is_ok()
}

fn publish(cdm: &mut Cdm) -> bool
    ensures tracks { cdm.new.tracks ≡ cdm.old.tracks }
    ensures open_ { (c : Held) → IsOpen cdm.old c → IsOpen cdm.new c }
{
    cdm.publish().is_ok()
}

fn pass(cdm: &mut Cdm) -> bool
    ensures tracks { cdm.new.tracks ≡ cdm.old.tracks }
    ensures open_ { (c : Held) → IsOpen cdm.old c → IsOpen cdm.new c }
{
    cdm.pass_clear().is_ok()
}

fn wait(cdm: &mut Cdm) -> bool
    ensures tracks { cdm.new.tracks ≡ cdm.old.tracks }
    ensures open_ { (c : Held) → IsOpen cdm.old c → IsOpen cdm.new c }
{
    cdm.wait_for_key().is_ok()
}

fn after(moment: u64, entry: &Entry) -> u64
    ensures { result ≡ tick_to moment entry.now }
{
    match entry {
        Entry::Tick { moment, .. } => *moment,
        _ => moment,
    }
}

/// The moment of the last tick.
fn moment_of(history: &[Entry]) -> u64
    ensures { result ≡ last_moment history.now }
{
    let mut moment = 0;
    for entry in history {
        moment = after(moment, entry);
    }
    moment
}

fn clock(cdm: &mut Cdm, line: u32, moment: u64) -> bool
    ensures tracks { cdm.new.tracks ≡ cdm.old.tracks }
    ensures open_ { (c : Held) → IsOpen cdm.old c → IsOpen cdm.new c }
{
    moment_is_of_the_last_tick();
    if moment < moment_of(cdm.history()) {
        return false;
    }
    cdm.tick(line, moment).is_ok()
}

/// Does what a line asks. A settle has to be at rest.
fn do_line(cdm: &mut Cdm, line: &Line, media: &Media) -> Result<bool, AllocError>
    requires fed { IsFed media.now }
    requires tracks { cdm.old.tracks ≡ media.now.tracks }
    ensures tracks { cdm.new.tracks ≡ cdm.old.tracks }
    ensures open_ { (c : Held) → IsOpen cdm.old c → IsOpen cdm.new c }
{
    match &line.action {
        Action::Ask(call) => {
            let call = call.copy()?;
            Ok(ask(cdm, line.lane, line.number, call))
        }
        Action::Feed => {
            let given = first_fragment(cdm, media)?;
            Ok(feed(cdm, line.number, given))
        }
        Action::Clock(moment) => Ok(clock(cdm, line.number, *moment)),
        Action::Evict(label) => {
            let label = label.copy()?;
            Ok(evict(cdm, line.number, label))
        }
        Action::Settle => Ok(settle(cdm, line.number)),
    }
}

/// Takes a step that neither gives nor takes a claim, or what follows the last line: whether it was allowed.
fn step(cdm: &mut Cdm, media: &Media, word: &str) -> Result<bool, AllocError>
    requires fed { IsFed media.now }
    requires tracks { cdm.old.tracks ≡ media.now.tracks }
    ensures tracks { cdm.new.tracks ≡ cdm.old.tracks }
    ensures open_ { (c : Held) → IsOpen cdm.old c → IsOpen cdm.new c }
{
    match word {
        "job" => Ok(job(cdm)),
        "task" => Ok(task(cdm)),
        "publish" => Ok(publish(cdm)),
        "pass" => Ok(pass(cdm)),
        "wait" => Ok(wait(cdm)),
        "rest" => Ok(settle(cdm, 0)),
        "feed" => {
            let given = first_fragment(cdm, media)?;
            Ok(feed(cdm, 0, given))
        }
        _ => Ok(false),
    }
}

/// A claim of a worker.
fn claim(cdm: &mut Cdm) -> Result<Claim, ClaimFault>
    ensures tracks { cdm.new.tracks ≡ cdm.old.tracks }
    ensures given { IfOk result (λ c. IsOpen cdm.new c) }
    ensures open_ { (c : Held) → IsOpen cdm.old c → IsOpen cdm.new c }
{
    cdm.claim(1)
}

/// Whether no other claim stands at the place.
fn is_alone(place: u64, other: &Option<Claim>) -> bool
    ensures { IsTrue result → MatchOption other.now (Unit {0}) (λ c. c.place ≢ place) }
{
    match other {
        None => true,
        Some(claim) => claim.place != place,
    }
}

fn give_up(cdm: &mut Cdm, claim: Claim)
    requires { IsOpen cdm.old claim }
    ensures tracks { cdm.new.tracks ≡ cdm.old.tracks }
    ensures open_ { (c : Held) → c.place ≢ claim.place → IsOpen cdm.old c → IsOpen cdm.new c }
{
    cdm.give_up(claim);
}

/// Whether the claim is taken, with its sample opened under its key.
fn is_taken(alloc: Global, cdm: &mut Cdm, claim: Claim) -> Result<bool, Fail>
    requires { IsOpen cdm.old claim }
    ensures tracks { cdm.new.tracks ≡ cdm.old.tracks }
    ensures open_ { (c : Held) → c.place ≢ claim.place → IsOpen cdm.old c → IsOpen cdm.new c }
{
    let clear = open_sample(alloc, &claim.sample, &claim.key)?;
    match cdm.deliver(claim, clear) {
        Delivered::Taken => Ok(true),
        Delivered::Stale(_) => Ok(false),
    }
}

/// Delivers the claim or gives it up: whether it was taken, or came too late, as the word says.
fn spend(
    alloc: Global,
    cdm: &mut Cdm,
    claim: Claim,
    other: &Option<Claim>,
    word: &str,
) -> Result<bool, Fail>
    requires one { IsOpen cdm.old claim }
    requires other { MatchOption other.now (Unit {0}) (λ c. IsOpen cdm.old c) }
    ensures tracks { cdm.new.tracks ≡ cdm.old.tracks }
    ensures other { OnOk result (MatchOption other.now (Unit {0}) (λ c. IsOpen cdm.new c)) }
{
    if !is_alone(claim.place, other) {
        return Ok(false);
    }
    if word == "drop" {
        give_up(cdm, claim);
        return Ok(true);
    }
    let taken = is_taken(alloc, cdm, claim)?;
    Ok(taken == (word == "deliver"))
}

/// The claims after a word that gives or takes one, or goes over to the other; none where it was not allowed.
fn act(
    alloc: Global,
    cdm: &mut Cdm,
    media: &Media,
    hands: Hands,
    word: &str,
) -> Result<Option<Hands>, Fail>
    requires fed { IsFed media.now }
    requires tracks { cdm.old.tracks ≡ media.now.tracks }
    requires one { MatchOption hands.one (Unit {0}) (λ c. IsOpen cdm.old c) }
    requires other { MatchOption hands.other (Unit {0}) (λ c. IsOpen cdm.old c) }
    ensures tracks { cdm.new.tracks ≡ cdm.old.tracks }
    ensures one { IfOk result (λ now. MatchOption now (Unit {0}) (λ h. MatchOption h.one (Unit {0}) (λ c. IsOpen cdm.new c))) }
    ensures other { IfOk result (λ now. MatchOption now (Unit {0}) (λ h. MatchOption h.other (Unit {0}) (λ c. IsOpen cdm.new c))) }
{
    let Hands { one, other } = hands;
    match (word, one) {
        ("claim", None) => match claim(cdm) {
            Err(_) => Ok(None),
            Ok(claim) => Ok(Some(Hands {
                one: Some(claim),
                other,
            })),
        },
        ("turn", one) => Ok(Some(Hands {
            one: other,
            other: one,
        })),
        ("deliver" | "late" | "drop", Some(claim)) => {
            if spend(alloc, cdm, claim, &other, word)? {
                Ok(Some(Hands { one: None, other }))
            } else {
                Ok(None)
            }
        }
        (_, one) => {
            if step(cdm, media, word)? {
                Ok(Some(Hands { one, other }))
            } else {
                Ok(None)
            }
        }
    }
}

/// Carries a schedule out: `line` does what the next line asks. It answers the words from the first that was not allowed on, or how many
/// lines were not gone through.
pub fn carry_out(
    alloc: Global,
    cdm: &mut Cdm,
    script: &[Line],
    media: &Media,
    schedule: &str,
) -> Result<String, Fail>
    requires fed { IsFed media.now }
    requires tracks { cdm.old.tracks ≡ media.now.tracks }
{
    let mut hands = Hands {
        one: None,
        other: None,
    };
    let mut lines = 0;
    for (i, word) in schedule.split(' ').enumerate() {
        if word == "line" && lines < script.len() {
            if !do_line(cdm, &script[lines], media)? {
                return Ok(format!(in alloc; "line {lines} at {i}")?);
            }
            lines += 1;
        } else {
            let Some(now) = act(alloc, cdm, media, hands, word)? else {
                return Ok(format!(in alloc; "{word} at {i}")?);
            };
            hands = now;
        }
    }
    let left = script.len() - lines;
    if left > 0 {
        return Ok(format!(in alloc; "{left} lines are left")?);
    }
    Ok(String::new(alloc))
}
