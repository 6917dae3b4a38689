// The lanes beside lane 0, each on a thread of its own. A thread that cannot be made is run by its caller, behind the caller's own part.
ghost use Rattle.std.specs.Prelude.{◌≡◌, ◌+◌, ◌-◌, ◌<◌, ◌≤◌, [], Ok, IsOk, IsSome, IfSome, OnOk, IfOk};
ghost use Rattle.std.specs.Thread.{IsSync};
ghost use Rattle.eme_types.specs.Fed.{IsFed};
ghost use Rattle.eme_types.specs.declared.limits.TheConstants.{MAX_LANES};
ghost use Rattle.std.specs.List.{list_any};
ghost use Rattle.output_order.specs.Lane.{is_of_lane};
ghost use Rattle.shared_cdm.specs.Passes.{IsOf, own, own_places, parts, tracks_of, first_of};
ghost use Rattle.play_parts.specs.Parts.{HasCalled, LanesIn};
ghost use Rattle.team_play.specs.Team.{Begins};

use crate::lane::run_lane;
use crate::lead::lead;
use book_lock::Pass;
use cdm_state::Cdm;
use eme_types::{Fragment, Media};
use script_lang::Script;
use shared_cdm::SharedCdm;
use std::alloc::{AllocError, Global};
use std::collections::VecDeque;
use std::snapshot::Snapshot;
use std::sync::Wait;
use std::thread;
use std::thread::Threads;

/// What lane 0 begins with: the pass that owns place 0, and the fragments.
#[derive(Drop)]
pub struct Start {
    pub pass: Pass<Cdm>,
    pub left: VecDeque<Fragment>,
}

/// What a lane's thread gives back.
type LaneBack = (Pass<Cdm>, Result<(), AllocError>);

/// What lane 0 and the lanes beside it give back: their passes joined, and the fragments that are left.
pub type LanesBack = (Pass<Cdm>, Result<VecDeque<Fragment>, AllocError>);

/// Whether the script has a line of the lane.
fn has_line(script: &Script, i: u8) -> bool
    ensures { result ≡ list_any (is_of_lane i) script.now }
{
    script.as_slice().iter().any(|line| line.lane == i)
}

/// Splits a pass off, for one thread more.
pub fn split_off(shared: &SharedCdm, media: &Snapshot<Media>, start: Start) -> (Start, Pass<Cdm>)
    requires begins { Begins shared.now media.now.value start.pass start.left.items }
    requires parts { 1 < parts start.pass }
    ensures begins { Begins shared.now media.now.value result.0.pass result.0.left.items }
    ensures parts { parts result.0.pass + 1 ≡ parts start.pass }
    ensures of { IsOf shared.now result.1 }
    ensures given { (own_places result.1 ≡ []) × (parts result.1 ≡ 1) }
{
    let Start { mut pass, left } = start;
    let theirs = shared.split(&mut pass);
    (Start { pass, left }, theirs)
}

/// A lane takes its pass and makes its calls.
fn lane_with<R: Wait>(
    rt: &R,
    shared: &SharedCdm,
    script: &Script,
    i: u8,
    given: &mut Option<Pass<Cdm>>,
) -> LaneBack
    requires other { 0 < i }
    requires some { IsSome given.old }
    requires given { IfSome given.old (λ p. IsOf shared.now p × (own_places p ≡ [])) }
    ensures of { IsOf shared.now result.0 }
    ensures parts { IfSome given.old (λ p. parts result.0 ≡ parts p) }
    ensures called { OnOk result.1 (HasCalled script.now i (own result.0)) }
{
    let Some(pass) = given.take() else {
        unreachable!()
    };
    run_lane(rt, shared, pass, script, i)
}

/// What two threads answered: want of memory in either is want of memory in both.
fn both(
    lined: Result<VecDeque<Fragment>, AllocError>,
    called: Result<(), AllocError>,
) -> Result<VecDeque<Fragment>, AllocError>
    ensures { IfOk result (λ rest. (lined ≡ Ok rest) × IsOk called) }
{
    match called {
        Ok(()) => lined,
        Err(error) => Err(error),
    }
}

/// The pass of lane k is joined into that of the lanes below it.
fn join_lane(
    shared: &SharedCdm,
    script: &Script,
    media: &Snapshot<Media>,
    mine: LanesBack,
    theirs: LaneBack,
    k: u8,
) -> LanesBack
    requires of { IsOf shared.now mine.0 × IsOf shared.now theirs.0 }
    requires other { 0 < k }
    requires few { k < MAX_LANES }
    requires lanes { IfOk mine.1 (λ rest. LanesIn script.now media.now.value.fragments rest.items (k - 1) (own mine.0)) }
    requires called { OnOk theirs.1 (HasCalled script.now k (own theirs.0)) }
    ensures of { IsOf shared.now result.0 }
    ensures first { first_of mine.0 ≤ first_of result.0 }
    ensures parts { parts result.0 ≡ parts mine.0 + parts theirs.0 }
    ensures tracks { tracks_of result.0 ≡ tracks_of mine.0 }
    ensures lanes { IfOk result.1 (λ rest. LanesIn script.now media.now.value.fragments rest.items k (own result.0)) }
{
    let (mut joined, lined) = mine;
    let (other, called) = theirs;
    shared.join(&mut joined, other);
    let end = both(lined, called);
    (joined, end)
}

/// Goes through the lines of the lanes 0 to k beside each other, lane 0 on this thread.
pub fn run_lanes<R: Threads + Wait + Sync>(
    rt: &R,
    alloc: Global,
    shared: &SharedCdm,
    script: &Script,
    media: &Snapshot<Media>,
    workers: u8,
    start: &mut Option<Start>,
    k: u8,
) -> LanesBack
    requires lanes { k < MAX_LANES }
    requires fed { IsFed media.now.value }
    requires some { IsSome start.old }
    requires parts { IfSome start.old (λ s. k < parts s.pass) }
    requires begins { IfSome start.old (λ s. Begins shared.now media.now.value s.pass s.left.items) }
    ensures of { IsOf shared.now result.0 }
    ensures first { 0 < first_of result.0 }
    ensures tracks { tracks_of result.0 ≡ media.now.value.tracks }
    ensures parts { IfSome start.old (λ s. parts result.0 ≡ parts s.pass) }
    ensures lanes { IfOk result.1 (λ rest. LanesIn script.now media.now.value.fragments rest.items k (own result.0)) }
{
    let Some(begun) = start.take() else {
        unreachable!()
    };
    if k == 0 {
        let Start { pass, left } = begun;
        return lead(rt, alloc, shared, pass, script, left, workers);
    }
    let below = k - 1;
    if !has_line(script, k) {
        let mut start = Some(begun);
        return run_lanes(rt, alloc, shared, script, media, workers, &mut start, below);
    }
    let (begun, theirs) = split_off(shared, media, begun);
    let mut given = Some(theirs);
    let mut start = Some(begun);
    let (theirs, mine) = thread::join_mut(
        rt,
        &mut || -> LaneBack
            requires other { 0 < k }
            requires some { IsSome given }
            requires given { IfSome given (λ p. IsOf shared.now p × (own_places p ≡ [])) }
            ensures of { IsOf shared.entry.now result.0 }
            ensures parts { IfSome given.entry (λ p. parts result.0 ≡ parts p) }
            ensures called { OnOk result.1 (HasCalled script.entry.now k (own result.0)) }
        { lane_with(rt, shared, script, k, &mut given) },
        &mut || -> LanesBack
            requires sync { IsSync R.row }
            requires lanes { below < MAX_LANES }
            requires fed { IsFed media.now.value }
            requires some { IsSome start }
            requires parts { IfSome start (λ s. below < parts s.pass) }
            requires begins { IfSome start (λ s. Begins shared.now media.now.value s.pass s.left.items) }
            ensures of { IsOf shared.entry.now result.0 }
            ensures first { 0 < first_of result.0 }
            ensures tracks { tracks_of result.0 ≡ media.entry.now.value.tracks }
            ensures parts { IfSome start.entry (λ s. parts result.0 ≡ parts s.pass) }
            ensures lanes { IfOk result.1 (λ rest. LanesIn script.entry.now media.entry.now.value.fragments rest.items below (own result.0)) }
        { run_lanes(rt, alloc, shared, script, media, workers, &mut start, below) },
    );
    join_lane(shared, script, media, mine, theirs, k)
}
