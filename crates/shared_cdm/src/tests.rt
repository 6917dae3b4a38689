//! Runs of the core under the lock.
ghost use Rattle.std.specs.Prelude.{◌≡◌, ◌<◌, ◌^◌, IfOk};
ghost use Rattle.shared_cdm.specs.Passes.{IsOf, parts, first_of};

mod calls;

use crate::shared::SharedCdm;
use book_lock::Pass;
use calls::{ask, creation, entries_seen, evict, feed_nothing, job, label, two_threads, works};
use cdm_state::{Cdm, StepFault};
use eme_types::{Entry, TrackIds};
use std::alloc::Global;
use std::test::Fail;

const NO_MEMORY: &str = "no memory";

fn opened(alloc: Global) -> Result<(SharedCdm, Pass<Cdm>), Fail>
    ensures of { IfOk result (λ r. IsOf r.0 r.1) }
    ensures parts { IfOk result (λ r. (parts r.1 ≡ 2 ^ 32) × (0 < first_of r.1)) }
{
    let cdm = Cdm::new(alloc, &TrackIds::new(alloc))?;
    match SharedCdm::new(alloc, cdm) {
        Ok(opened) => Ok(opened),
        Err(_) => Err(Fail::from(NO_MEMORY)),
    }
}

/// Whether the history is a call of lane 1 and a feed without a fragment.
fn is_created_and_fed(history: &[Entry]) -> bool {
    match history {
        [
            Entry::Call { lane, line, .. },
            Entry::Feed { line: fed, .. },
        ] => { *lane == 1 && *line == 2 && *fed == 3 }
        _ => false,
    }
}

#[test]
fn passes_make_one_history(rt: HostRuntime) -> Result<(), Fail> {
    let alloc = rt.alloc();
    let call = creation(alloc)?;
    let (shared, mut first) = opened(alloc)?;
    let second = shared.split(&mut first);
    let (second, created) = ask(&rt, &shared, second, call);
    let (mut first, fed) = feed_nothing(&rt, &shared, first);
    shared.join(&mut first, second);
    let cdm = shared.close(first).ok().ok_or(NO_MEMORY)?;
    assert!(rt; created && fed && is_created_and_fed(cdm.history()));
    Ok(())
}

#[test]
fn passes_are_joined_in_another_order(rt: HostRuntime) -> Result<(), Fail> {
    let alloc = rt.alloc();
    let call = creation(alloc)?;
    let (shared, mut first) = opened(alloc)?;
    let second = shared.split(&mut first);
    let (mut second, created) = ask(&rt, &shared, second, call);
    let (first, fed) = feed_nothing(&rt, &shared, first);
    shared.join(&mut second, first);
    let cdm = shared.close(second).ok().ok_or(NO_MEMORY)?;
    assert!(rt; created && fed && is_created_and_fed(cdm.history()));
    Ok(())
}

/// Whether the history is a call and two evictions of the label `a`.
fn is_created_and_evicted_twice(history: &[Entry]) -> bool {
    match history {
        [
            Entry::Call { .. },
            Entry::Evict { line: first, label },
            Entry::Evict { line: second, .. },
        ] => { *first == 4 && *second == 4 && label.as_slice() == b"a".as_slice() }
        _ => false,
    }
}

#[test]
fn a_pass_evicts_a_session_once(rt: HostRuntime) -> Result<(), Fail> {
    let alloc = rt.alloc();
    let call = creation(alloc)?;
    let (once, again) = (label(alloc)?, label(alloc)?);
    let (shared, mut first) = opened(alloc)?;
    let second = shared.split(&mut first);
    let (mut first, created) = ask(&rt, &shared, first, call);
    // The second pass owns no place.
    let (second, ended) = evict(&rt, &shared, second, once);
    let (second, nothing) = evict(&rt, &shared, second, again);
    shared.join(&mut first, second);
    let cdm = shared.close(first).ok().ok_or(NO_MEMORY)?;
    assert!(rt; created && ended == Some(true) && nothing == Some(false));
    assert!(rt; is_created_and_evicted_twice(cdm.history()));
    Ok(())
}

#[test]
fn threads_make_one_history(rt: HostRuntime) -> Result<(), Fail> {
    let (shared, mut one) = opened(rt.alloc())?;
    let two = shared.split(&mut one);
    let (mut one, two, made) = two_threads(&rt, rt.alloc(), &shared, one, two);
    shared.join(&mut one, two);
    let cdm = shared.close(one).ok().ok_or(NO_MEMORY)?;
    assert!(rt; made);
    // The calls of each lane stand in the order of their lines.
    let (mut one, mut two) = (1u32, 1u32);
    for entry in cdm.history() {
        match entry {
            Entry::Call { lane, line, .. } if *lane == 1 && *line == one => {
                one = one.wrapping_add(1);
            }
            Entry::Call { lane, line, .. } if *lane == 2 && *line == two => {
                two = two.wrapping_add(1);
            }
            _ => return Err(Fail::from("another entry")),
        }
    }
    assert_eq!(rt; (one, two), (101, 101));
    Ok(())
}

#[test]
fn a_look_sees_what_another_pass_added(rt: HostRuntime) -> Result<(), Fail> {
    let alloc = rt.alloc();
    let call = creation(alloc)?;
    let (shared, mut first) = opened(alloc)?;
    let second = shared.split(&mut first);
    let (first, before) = entries_seen(&rt, &shared, first);
    let (second, created) = ask(&rt, &shared, second, call);
    let (mut first, after) = entries_seen(&rt, &shared, first);
    shared.join(&mut first, second);
    let cdm = shared.close(first).ok().ok_or(NO_MEMORY)?;
    // The looks added no entry.
    assert!(rt; created && before == 0 && after == 1 && cdm.history().len() == 1);
    Ok(())
}

#[test]
fn an_empty_queue_adds_nothing(rt: HostRuntime) -> Result<(), Fail> {
    let (shared, pass) = opened(rt.alloc())?;
    let (pass, ran) = job(&rt, &shared, pass);
    let cdm = shared.close(pass).ok().ok_or(NO_MEMORY)?;
    assert!(rt; ran == Err(StepFault::Empty) && cdm.history().is_empty());
    Ok(())
}

#[test]
fn a_desk_that_is_over_ends_the_work(rt: HostRuntime) -> Result<(), Fail> {
    let (shared, pass) = opened(rt.alloc())?;
    shared.end();
    let (pass, is_over) = works(&rt, rt.alloc(), &shared, pass);
    let cdm = shared.close(pass).ok().ok_or(NO_MEMORY)?;
    assert!(rt; is_over && cdm.history().is_empty());
    Ok(())
}
