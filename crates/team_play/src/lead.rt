// Lane 0: it alone feeds, sets the clock, evicts and settles.
ghost use Rattle.std.specs.Prelude.{◌≡◌, ◌<◌, ◌++◌, [], OnOk, IfOk, slice_get, drop};
ghost use mathlib.Core.List.{IsPrefix};
ghost use Rattle.eme_types.specs.Fed.{IsFed};
ghost use Rattle.eme_types.specs.declared.media.Media.{Media};
ghost use Rattle.eme_types.specs.declared.entry.Entry.TheVariants.{Feed as FeedEntry, Evict as EvictEntry};
ghost use Rattle.cdm_state.specs.History.{world, AtRest, MayFeedNext};
ghost use Rattle.decrypt_workers.specs.Desks.{Placed};
ghost use Rattle.shared_cdm.specs.Own.{entries};
ghost use Rattle.shared_cdm.specs.Passes.{IsOf, seen, own, tracks_of, first_of};
ghost use Rattle.play_parts.specs.Asks.{entry_of, left_by};
ghost use Rattle.play_parts.specs.Parts.{AreFed, HasLed, HasFollowed};
ghost use Rattle.team_play.specs.Adds.{AddsOne, StepsAnd, MayLead, Stays};

use crate::lane::make_call;
use crate::steps::settle_all;
use book_lock::Pass;
use cdm_state::Cdm;
use eme_types::{Bytes, Copies, Fragment};
use script_lang::{Action, Line, Script};
use shared_cdm::SharedCdm;
use std::alloc::{AllocError, Global};
use std::collections::VecDeque;
use std::sync::Wait;

/// Feeds the next fragment, or none past the last.
fn feed_next<R: Wait>(
    rt: &R,
    shared: &SharedCdm,
    pass: Pass<Cdm>,
    left: &mut VecDeque<Fragment>,
    line: u32,
) -> (Pass<Cdm>, Result<(), AllocError>)
    requires of { IsOf shared.now pass }
    requires first { 0 < first_of pass }
    requires may { MayFeedNext (tracks_of pass) (entries (own pass)) (slice_get left.old.items 0) }
    ensures kept { Stays shared.now pass result.0 }
    ensures later { IsPrefix (seen pass) (seen result.0) }
    ensures adds { OnOk result.1 (AddsOne (FeedEntry line (slice_get left.old.items 0)) (seen pass) (own pass) (seen result.0) (own result.0)) }
    ensures left { left.new.items ≡ drop 1 left.old.items }
{
    let given = left.pop_front();
    let (pass, fed) = shared.feed(rt, pass, line, given);
    match fed {
        Ok(()) => (pass, Ok(())),
        Err(back) => (pass, Err(back.error)),
    }
}

/// Ends the session with the label, where it is open. Whether it is, the play does not ask.
fn evict_named<R: Wait>(
    rt: &R,
    shared: &SharedCdm,
    pass: Pass<Cdm>,
    line: u32,
    label: &Bytes,
) -> (Pass<Cdm>, Result<(), AllocError>)
    requires { IsOf shared.now pass }
    ensures kept { Stays shared.now pass result.0 }
    ensures adds { OnOk result.1 (AddsOne (EvictEntry line label.now) (seen pass) (own pass) (seen result.0) (own result.0)) }
{
    match label.copy() {
        Ok(copy) => {
            let (pass, evicted) = shared.evict(rt, pass, line, copy);
            match evicted {
                Ok(_) => (pass, Ok(())),
                Err(back) => (pass, Err(back.error)),
            }
        }
        Err(error) => (pass, Err(error)),
    }
}

/// Does what a line of lane 0 asks.
fn lead_line<R: Wait>(
    rt: &R,
    alloc: Global,
    shared: &SharedCdm,
    pass: Pass<Cdm>,
    line: &Line,
    left: &mut VecDeque<Fragment>,
    workers: u8,
) -> (Pass<Cdm>, Result<(), AllocError>)
    requires of { IsOf shared.now pass }
    requires first { 0 < first_of pass }
    requires may { MayLead (tracks_of pass) (own pass) line.now.action (slice_get left.old.items 0) }
    ensures kept { Stays shared.now pass result.0 }
    ensures goes { OnOk result.1 (StepsAnd (entry_of line.now (slice_get left.old.items 0)) (seen pass) (own pass) (seen result.0) (own result.0)) }
    ensures left { OnOk result.1 (left.new.items ≡ left_by left.old.items line.now.action) }
{
    match &line.action {
        Action::Ask(call) => make_call(rt, shared, pass, line, call),
        Action::Feed => feed_next(rt, shared, pass, left, line.number),
        Action::Clock(moment) => shared.tick(rt, pass, line.number, *moment),
        Action::Evict(label) => evict_named(rt, shared, pass, line.number, label),
        Action::Settle => settle_all(rt, alloc, shared, pass, line.number, workers),
    }
}

/// Goes through the lines of lane 0, in order. The pass is the one that owns place 0.
pub fn lead<R: Wait>(
    rt: &R,
    alloc: Global,
    shared: &SharedCdm,
    pass: Pass<Cdm>,
    script: &Script,
    left: VecDeque<Fragment>,
    workers: u8,
) -> (Pass<Cdm>, Result<VecDeque<Fragment>, AllocError>)
    requires of { IsOf shared.now pass }
    requires first { 0 < first_of pass }
    requires none { own pass ≡ [] }
    requires media { (media : Media) × IsFed media × (tracks_of pass ≡ media.tracks) × (left.items ≡ media.fragments) }
    ensures kept { Stays shared.now pass result.0 }
    ensures led { IfOk result.1 (λ rest. HasLed script.now left.items rest.items (own result.0)) }
{
    let mut pass = pass;
    let mut left = left;
    for line in script.as_slice() {
        if line.lane == 0 {
            let (next, led) = lead_line(rt, alloc, shared, pass, line, &mut left, workers);
            match led {
                Ok(()) => pass = next,
                Err(error) => return (next, Err(error)),
            }
        }
    }
    (pass, Ok(left))
}

/// What follows the last line: a settle, and a feed and a settle for each fragment that is left.
pub fn follow<R: Wait>(
    rt: &R,
    alloc: Global,
    shared: &SharedCdm,
    pass: Pass<Cdm>,
    left: VecDeque<Fragment>,
    workers: u8,
) -> (Pass<Cdm>, Result<(), AllocError>)
    requires of { IsOf shared.now pass }
    requires first { 0 < first_of pass }
    requires media { (media : Media) × IsFed media × (tracks_of pass ≡ media.tracks) × AreFed media.fragments left.items (entries (own pass)) }
    ensures kept { Stays shared.now pass result.0 }
    ensures later { IsPrefix (seen pass) (seen result.0) }
    ensures followed { OnOk result.1 ((behind : Placed) × (own result.0 ≡ own pass ++ behind) × HasFollowed left.items [] behind) }
    ensures rest { OnOk result.1 (AtRest (world (tracks_of pass) (seen result.0))) }
{
    let (next, settled) = settle_all(rt, alloc, shared, pass, 0, workers);
    if let Err(error) = settled {
        return (next, Err(error));
    }
    let mut pass = next;
    let mut left = left;
    'rest: while !left.is_empty() {
        let (next, fed) = feed_next(rt, shared, pass, &mut left, 0);
        if let Err(error) = fed {
            return (next, Err(error));
        }
        let (next, settled) = settle_all(rt, alloc, shared, next, 0, workers);
        match settled {
            Ok(()) => pass = next,
            Err(error) => return (next, Err(error)),
        }
    }
    (pass, Ok(()))
}
