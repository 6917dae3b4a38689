// The play, on one thread where that is all, else over lanes and workers.
ghost use Rattle.std.specs.Prelude.{◌≡◌, ◌≤◌, ◌==◌, ◌&&◌, IfOk};
ghost use Rattle.std.specs.List.{list_all};
ghost use Rattle.eme_types.specs.Fed.{IsFed};
ghost use Rattle.cdm_state.specs.Progress.{NoneWaits};
ghost use Rattle.output_order.specs.Complete.{IsComplete};
ghost use Rattle.output_order.specs.Lane.{is_of_lane};
ghost use Rattle.output_order.specs.Staffed.{IsStaffed};
ghost use Rattle.player_core.specs.Alone.{IsAlone, IsOneLane};
ghost use Rattle.serial_play.specs.Law.{HasSerialAnswer};

use crate::alone::play_alone;
use cdm_state::Cdm;
use decrypt_workers::Gate;
use eme_types::Media;
use script_lang::Script;
use serial_play::paced_scripts_have_one_answer;
use std::alloc::{AllocError, Global};
use std::sync::Wait;
use std::thread::Threads;
use team_play::play_together;

/// Whether every line is of lane 0.
fn is_one_lane(script: &Script) -> bool
    ensures { result ≡ list_all (is_of_lane 0) script.now }
{
    script.as_slice().iter().all(|line| line.lane == 0)
}

/// Whether lane 0 plays alone: there is no worker, and every line is of lane 0.
fn is_alone(script: &Script, workers: u8) -> bool
    ensures { result ≡ ((workers == 0) && list_all (is_of_lane 0) script.now) }
{
    workers == 0 && is_one_lane(script)
}

/// Plays the script on the media. With no worker and a script of lane 0 alone it takes no lock and starts no thread, and the history is
/// that of the alone order; else lane 0 runs on this thread, and each other lane and each worker on one of its own.
pub fn play<R: Threads + Wait + Sync, G: Gate + Sync>(
    rt: &R,
    alloc: Global,
    script: &Script,
    media: Media,
    workers: u8,
    gate: &G,
) -> Result<Cdm, AllocError>
    requires fed { IsFed media }
    requires workers { workers ≤ 16 }
    ensures tracks { IfOk result (λ cdm. cdm.tracks ≡ media.tracks) }
    ensures alone { IfOk result (λ cdm. workers ≡ 0 → IsOneLane script.now → IsAlone script.now media cdm.history) }
    ensures complete { IfOk result (λ cdm. IsComplete script.now media cdm.history) }
    ensures staffed { IfOk result (λ cdm. IsStaffed workers cdm.history) }
    ensures delivered { IfOk result (λ cdm. NoneWaits cdm.history) }
    ensures serial { IfOk result (λ cdm. HasSerialAnswer script.now media cdm.history) }
{
    if is_alone(script, workers) {
        return play_alone(alloc, script, media);
    }
    paced_scripts_have_one_answer();
    play_together(rt, alloc, script, media, workers, gate)
}
