// The log of a history.
ghost use Rattle.std.specs.Prelude.{◌≡◌, ◌++◌, ◌≤◌, ◌-◌, Some, IfOk, length, slice_get, take};
ghost use Rattle.std.specs.List.{sum_by};
ghost use Rattle.cdm_state.specs.Settlements.{effects_in};
ghost use Rattle.cdm_state.specs.Feeds.{fragments_fed};
ghost use Rattle.output_order.specs.Log.{log_of};

use crate::effect::put_effects;
use crate::entry::entry_text;
use cdm_state::{Cdm, fragments_fed};
use eme_types::{Bytes, Effect};
use std::alloc::{AllocError, Global};

/// The effects of the entry at a place of the history, from 1.
pub fn effects_at(cdm: &Cdm, place: u64) -> &[Effect]
    requires from { 1 ≤ place }
    requires within { place ≤ length cdm.now.history }
    ensures { slice_get (effects_in cdm.now.tracks cdm.now.history) (place - 1) ≡ Some result.now }
{
    match cdm.effects(place) {
        Some(effects) => effects,
        None => unreachable!(),
    }
}

/// What the log has beyond the first entries of the history, which feed so many fragments.
pub fn log_beyond(alloc: Global, cdm: &Cdm, first: u64, before: u64) -> Result<Bytes, AllocError>
    requires within { first ≤ length cdm.now.history }
    requires fed { before ≡ sum_by fragments_fed (take first cdm.now.history) }
    ensures { IfOk result (λ text. log_of cdm.now.tracks cdm.now.history ≡ log_of cdm.now.tracks (take first cdm.now.history) ++ text) }
{
    let mut text = Bytes::new(alloc);
    let mut fed = before;
    let history = cdm.history();
    for i in first as usize..history.len() {
        let entry = &history[i];
        let place = i as u64 + 1;
        let line = entry_text(alloc, place, fed, entry)?;
        text.extend_from_slice(line.as_bytes())?;
        put_effects(alloc, &mut text, effects_at(cdm, place))?;
        fed += fragments_fed(entry);
    }
    Ok(text)
}

/// The log of the core's history.
pub fn log_text(alloc: Global, cdm: &Cdm) -> Result<Bytes, AllocError>
    ensures { IfOk result (λ text. text ≡ log_of cdm.now.tracks cdm.now.history) }
{
    let text = log_beyond(alloc, cdm, 0, 0)?;
    Ok(text)
}
