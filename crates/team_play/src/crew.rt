// The workers beside the lanes, each on a thread of its own. A thread that cannot be made is run by its caller, behind the caller's own part.
ghost use Rattle.std.specs.Prelude.{◌≡◌, ◌+◌, ◌-◌, ◌<◌, [], IsSome, IfSome, OnOk, IfOk};
ghost use Rattle.std.specs.Thread.{IsSync};
ghost use Rattle.eme_types.specs.Fed.{IsFed};
ghost use Rattle.decrypt_workers.specs.Workers.{WorksTo};
ghost use Rattle.shared_cdm.specs.Passes.{IsOf, seen, own, own_places, parts, tracks_of, first_of};
ghost use Rattle.play_parts.specs.Parts.{LanesIn};
ghost use Rattle.play_parts.specs.Whole.{TeamOver};
ghost use Rattle.team_play.specs.Team.{Begins};

use crate::lanes::{LanesBack, Start, run_lanes, split_off};
use crate::lead::follow;
use book_lock::Pass;
use cdm_state::Cdm;
use decrypt_workers::{Gate, WorkEnd, work};
use eme_types::Media;
use script_lang::Script;
use shared_cdm::{Over, SharedCdm, Short};
use std::alloc::{AllocError, Global};
use std::snapshot::Snapshot;
use std::sync::Wait;
use std::thread;
use std::thread::Threads;

/// What a worker's thread gives back.
type WorkBack = (Pass<Cdm>, WorkEnd<Over, Short>);

/// What the lanes and the workers give back: their passes joined.
pub type CrewBack = (Pass<Cdm>, Result<(), AllocError>);

/// The highest lane.
const LAST_LANE: u8 = 7;

/// What follows the last line, where the lanes have ended well.
fn end_lanes<R: Wait>(
    rt: &R,
    alloc: Global,
    shared: &SharedCdm,
    script: &Script,
    media: &Snapshot<Media>,
    lanes: LanesBack,
    workers: u8,
) -> CrewBack
    requires fed { IsFed media.now.value }
    requires of { IsOf shared.now lanes.0 }
    requires first { 0 < first_of lanes.0 }
    requires tracks { tracks_of lanes.0 ≡ media.now.value.tracks }
    requires lanes { IfOk lanes.1 (λ left. LanesIn script.now media.now.value.fragments left.items 7 (own lanes.0)) }
    ensures of { IsOf shared.now result.0 }
    ensures tracks { tracks_of result.0 ≡ tracks_of lanes.0 }
    ensures parts { parts result.0 ≡ parts lanes.0 }
    ensures over { OnOk result.1 (TeamOver script.now media.now.value 0 (own_places result.0) (seen result.0)) }
{
    let (pass, lined) = lanes;
    match lined {
        Ok(left) => follow(rt, alloc, shared, pass, left, workers),
        Err(error) => (pass, Err(error)),
    }
}

/// The lanes, and behind them what follows the last line. Then the workers are told that the play is over, whatever the lanes answered.
fn play_lanes<R: Threads + Wait + Sync>(
    rt: &R,
    alloc: Global,
    shared: &SharedCdm,
    script: &Script,
    media: &Snapshot<Media>,
    workers: u8,
    start: &mut Option<Start>,
) -> CrewBack
    requires fed { IsFed media.now.value }
    requires some { IsSome start.old }
    requires parts { IfSome start.old (λ s. 7 < parts s.pass) }
    requires begins { IfSome start.old (λ s. Begins shared.now media.now.value s.pass s.left.items) }
    ensures of { IsOf shared.now result.0 }
    ensures tracks { tracks_of result.0 ≡ media.now.value.tracks }
    ensures parts { IfSome start.old (λ s. parts result.0 ≡ parts s.pass) }
    ensures over { OnOk result.1 (TeamOver script.now media.now.value 0 (own_places result.0) (seen result.0)) }
{
    let lanes = run_lanes(rt, alloc, shared, script, media, workers, start, LAST_LANE);
    let back = end_lanes(rt, alloc, shared, script, media, lanes, workers);
    shared.end();
    back
}

/// A worker takes its pass and works.
fn work_with<R: Wait, G: Gate>(
    rt: &R,
    alloc: Global,
    shared: &SharedCdm,
    gate: &G,
    worker: u8,
    given: &mut Option<Pass<Cdm>>,
) -> WorkBack
    requires some { IsSome given.old }
    requires of { IfSome given.old (λ p. IsOf shared.now p) }
    ensures of { IsOf shared.now result.0 }
    ensures parts { IfSome given.old (λ p. parts result.0 ≡ parts p) }
    ensures works { IfSome given.old (λ p. WorksTo worker (seen p) (own p) (seen result.0) (own result.0) result.1) }
{
    let Some(pass) = given.take() else {
        unreachable!()
    };
    work(rt, alloc, shared, gate, worker, pass)
}

/// The pass of worker k is joined into that of the lanes and the workers below it. A worker that lacked memory is no end of the play:
/// others do its work.
fn join_worker(
    shared: &SharedCdm,
    script: &Script,
    media: &Snapshot<Media>,
    given: Snapshot<Pass<Cdm>>,
    mine: CrewBack,
    theirs: WorkBack,
    k: u8,
) -> CrewBack
    requires of { IsOf shared.now mine.0 × IsOf shared.now theirs.0 }
    requires one { 0 < k }
    requires given { own_places given.value ≡ [] }
    requires worked { WorksTo k (seen given.value) (own given.value) (seen theirs.0) (own theirs.0) theirs.1 }
    requires over { OnOk mine.1 (TeamOver script.now media.now.value (k - 1) (own_places mine.0) (seen mine.0)) }
    ensures of { IsOf shared.now result.0 }
    ensures parts { parts result.0 ≡ parts mine.0 + parts theirs.0 }
    ensures tracks { tracks_of result.0 ≡ tracks_of mine.0 }
    ensures over { OnOk result.1 (TeamOver script.now media.now.value k (own_places result.0) (seen result.0)) }
{
    let (mut joined, end) = mine;
    let (other, worked) = theirs;
    drop(worked);
    shared.join(&mut joined, other);
    (joined, end)
}

/// The lanes, and the workers 1 to k beside them.
pub fn run_crew<R: Threads + Wait + Sync, G: Gate + Sync>(
    rt: &R,
    alloc: Global,
    shared: &SharedCdm,
    gate: &G,
    script: &Script,
    media: &Snapshot<Media>,
    workers: u8,
    start: &mut Option<Start>,
    k: u8,
) -> CrewBack
    requires fed { IsFed media.now.value }
    requires some { IsSome start.old }
    requires parts { IfSome start.old (λ s. k + 7 < parts s.pass) }
    requires begins { IfSome start.old (λ s. Begins shared.now media.now.value s.pass s.left.items) }
    ensures of { IsOf shared.now result.0 }
    ensures tracks { tracks_of result.0 ≡ media.now.value.tracks }
    ensures parts { IfSome start.old (λ s. parts result.0 ≡ parts s.pass) }
    ensures over { OnOk result.1 (TeamOver script.now media.now.value k (own_places result.0) (seen result.0)) }
{
    if k == 0 {
        return play_lanes(rt, alloc, shared, script, media, workers, start);
    }
    let Some(begun) = start.take() else {
        unreachable!()
    };
    let below = k - 1;
    let (begun, theirs) = split_off(shared, media, begun);
    let was = Snapshot::of(&theirs);
    let mut given = Some(theirs);
    let mut start = Some(begun);
    let (theirs, mine) = thread::join_mut(
        rt,
        &mut || -> WorkBack
            requires some { IsSome given }
            requires of { IfSome given (λ p. IsOf shared.now p) }
            ensures of { IsOf shared.entry.now result.0 }
            ensures parts { IfSome given.entry (λ p. parts result.0 ≡ parts p) }
            ensures works { IfSome given.entry (λ p. WorksTo k (seen p) (own p) (seen result.0) (own result.0) result.1) }
        { work_with(rt, alloc, shared, gate, k, &mut given) },
        &mut || -> CrewBack
            requires sync { IsSync R.row }
            requires fed { IsFed media.now.value }
            requires some { IsSome start }
            requires parts { IfSome start (λ s. below + 7 < parts s.pass) }
            requires begins { IfSome start (λ s. Begins shared.now media.now.value s.pass s.left.items) }
            ensures of { IsOf shared.entry.now result.0 }
            ensures tracks { tracks_of result.0 ≡ media.entry.now.value.tracks }
            ensures parts { IfSome start.entry (λ s. parts result.0 ≡ parts s.pass) }
            ensures over { OnOk result.1 (TeamOver script.entry.now media.entry.now.value below (own_places result.0) (seen result.0)) }
        {
            run_crew(
                rt, alloc, shared, gate, script, media, workers, &mut start, below,
            )
        },
    );
    join_worker(shared, script, media, was, mine, theirs, k)
}
