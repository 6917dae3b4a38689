// The play over lanes and workers.
ghost use Rattle.std.specs.Prelude.{◌≡◌, ◌≤◌, IfOk};
ghost use Rattle.eme_types.specs.Fed.{IsFed};
ghost use Rattle.cdm_state.specs.History.{IsLegal};
ghost use Rattle.play_parts.specs.Whole.{IsWhole};

use crate::crew::run_crew;
use crate::lanes::Start;
use cdm_state::Cdm;
use decrypt_workers::Gate;
use eme_types::Media;
use play_parts::the_parts_make_a_whole;
use script_lang::Script;
use shared_cdm::SharedCdm;
use std::alloc::{AllocError, Global};
use std::collections::VecDeque;
use std::snapshot::Snapshot;
use std::sync::Wait;
use std::thread::Threads;

/// Plays the script on the media: lane 0 on this thread, each other lane and each of the workers on one of its own.
pub fn play_together<R: Threads + Wait + Sync, G: Gate + Sync>(
    rt: &R,
    alloc: Global,
    script: &Script,
    media: Media,
    workers: u8,
    gate: &G,
) -> Result<Cdm, AllocError>
    requires fed { IsFed media }
    requires workers { workers ≤ 16 }
    ensures tracks { IfOk result (λ cdm. cdm.tracks ≡ media.tracks) }
    ensures legal { IfOk result (λ cdm. IsLegal media.tracks cdm.history) }
    ensures whole { IfOk result (λ cdm. IsWhole script.now media workers cdm.history) }
{
    let cdm = Cdm::new(alloc, &media.tracks)?;
    match SharedCdm::new(alloc, cdm) {
        Ok((shared, pass)) => {
            let whole = Snapshot::of(&media);
            let left = VecDeque::from_vec(media.fragments.into_vec());
            let mut start = Some(Start { pass, left });
            let (pass, end) = run_crew(
                rt, alloc, &shared, gate, script, &whole, workers, &mut start, workers,
            );
            end?;
            match shared.close(pass) {
                Ok(cdm) => {
                    the_parts_make_a_whole();
                    let _legal = cdm.history();
                    Ok(cdm)
                }
                Err(back) => Err(back.error),
            }
        }
        Err(back) => Err(back.error),
    }
}
