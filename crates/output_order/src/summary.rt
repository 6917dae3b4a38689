// The summary of a history.
ghost use Rattle.std.specs.Prelude.{◌≡◌, ◌+◌, ◌≤◌, IfOk, string_bytes, length, count_by};
ghost use Rattle.cdm_state.specs.Settlements.{is_call, calls_in};
ghost use Rattle.cdm_world.specs.Tracks.{find_track};
ghost use Rattle.cdm_state.specs.History.{world};
ghost use Rattle.cdm_state.specs.Later.{waits_later};
ghost use Rattle.output_order.specs.Summary.{is_rejected, resolves, rejects, times_resolved, times_rejected, waits, waiting_word, track_line, summary_head, summary_of};

use crate::log::effects_at;
use crate::track::{Sizes, sizes_beyond};
use cdm_state::Cdm;
use eme_types::{Bytes, Effect, Entry, Settled};
use std::alloc::{AllocError, Global};

fn is_rejected(how: &Settled) -> bool
    ensures { result ≡ is_rejected how.now }
{
    match how {
        Settled::Rejected(_) => true,
        _ => false,
    }
}

fn resolves(effect: &Effect) -> bool
    ensures { result ≡ resolves effect.now }
{
    match effect {
        Effect::Promise { promise: _, how } => !is_rejected(how),
        _ => false,
    }
}

fn rejects(effect: &Effect) -> bool
    ensures { result ≡ rejects effect.now }
{
    match effect {
        Effect::Promise { promise: _, how } => is_rejected(how),
        _ => false,
    }
}

fn count_resolved(effects: &[Effect]) -> usize
    ensures { result ≡ count_by resolves effects.now }
{
    effects.iter().filter(|effect| resolves(effect)).count()
}

fn count_rejected(effects: &[Effect]) -> usize
    ensures { result ≡ count_by rejects effects.now }
{
    effects.iter().filter(|effect| rejects(effect)).count()
}

/// 1 for a call, 0 for another entry.
fn calls_of(entry: &Entry) -> u64
    ensures { result ≡ is_call entry.now }
{
    match entry {
        Entry::Call {
            lane: _,
            line: _,
            call: _,
        } => 1,
        _ => 0,
    }
}

/// A sum of sizes of what memory holds.
fn add(a: u64, b: usize) -> Result<u64, AllocError>
    ensures { IfOk result (λ sum. sum ≡ a + b) }
{
    match a.checked_add(b as u64) {
        Some(sum) => Ok(sum),
        None => Err(AllocError),
    }
}

/// The promises of a history.
#[derive(Clone, Copy)]
struct Promises {
    made: u64,
    resolved: u64,
    rejected: u64,
}

fn count_promises(cdm: &Cdm) -> Result<Promises, AllocError>
    ensures made { IfOk result (λ p. p.made ≡ calls_in cdm.now.history) }
    ensures resolved { IfOk result (λ p. p.resolved ≡ times_resolved cdm.now.tracks cdm.now.history) }
    ensures rejected { IfOk result (λ p. p.rejected ≡ times_rejected cdm.now.tracks cdm.now.history) }
{
    let mut made = 0;
    let mut resolved = 0;
    let mut rejected = 0;
    let history = cdm.history();
    for (i, entry) in history.iter().enumerate() {
        let effects = effects_at(cdm, i as u64 + 1);
        made += calls_of(entry);
        resolved = add(resolved, count_resolved(effects))?;
        rejected = add(rejected, count_rejected(effects))?;
    }
    Ok(Promises {
        made,
        resolved,
        rejected,
    })
}

fn waiting_name(cdm: &Cdm, track: u32) -> &'static str
    ensures { result.now ≡ waiting_word (waits (find_track (world cdm.now.tracks cdm.now.history).tracks track)) (waits_later (world cdm.now.tracks cdm.now.history) track) }
{
    if !cdm.waiting(track) {
        return "no";
    }
    if cdm.waits_later(track) {
        "later"
    } else {
        "yes"
    }
}

fn track_text(alloc: Global, cdm: &Cdm, track: u32) -> Result<String, AllocError>
    ensures { IfOk result (λ s. string_bytes s ≡ track_line cdm.now.tracks cdm.now.history track) }
{
    let Sizes { samples, bytes } = sizes_beyond(cdm, track, 0)?;
    let waiting = waiting_name(cdm, track);
    format!(in alloc; "track {track} samples {samples} bytes {bytes} waiting {waiting}\n")
}

fn head_text(alloc: Global, cdm: &Cdm) -> Result<String, AllocError>
    ensures { IfOk result (λ s. string_bytes s ≡ summary_head cdm.now.tracks cdm.now.history) }
{
    let Promises {
        made,
        resolved,
        rejected,
    } = count_promises(cdm)?;
    let entries = cdm.history().len();
    format!(in alloc;
        "entries {entries}\npromises {made} resolved {resolved} rejected {rejected}\n"
    )
}

/// The summary of the core's history.
pub fn summary_text(alloc: Global, cdm: &Cdm) -> Result<Bytes, AllocError>
    ensures { IfOk result (λ text. text ≡ summary_of cdm.now.tracks cdm.now.history) }
{
    let mut out = Bytes::new(alloc);
    let head = head_text(alloc, cdm)?;
    out.extend_from_slice(head.as_bytes())?;
    for track in cdm.tracks().as_slice() {
        let line = track_text(alloc, cdm, *track)?;
        out.extend_from_slice(line.as_bytes())?;
    }
    Ok(out)
}
