// The play of a script and its media on one thread.
ghost use Rattle.std.specs.Prelude.{◌≡◌, OnOk, IfOk, [], slice_get, length, drop};
ghost use Rattle.eme_types.specs.Fed.{IsFed};
ghost use Rattle.cdm_state.specs.History.{MayFeedNext};
ghost use Rattle.output_order.specs.Complete.{IsComplete};
ghost use Rattle.output_order.specs.Staffed.{IsStaffed};
ghost use Rattle.cdm_state.specs.Progress.{NoneWaits};
ghost use Rattle.player_core.specs.Alone.{IsAlone};
ghost use Rattle.serial_play.specs.Law.{HasSerialAnswer};
ghost use Rattle.eme_types.specs.declared.media.Media.{Media};
ghost use Rattle.play_parts.specs.Asks.{entry_of, left_by};
ghost use Rattle.player_core.specs.Course.{Goes, MayGo, HasGone, HasFollowed};
ghost use Rattle.eme_types.specs.declared.entry.Entry.TheVariants.{Feed as FeedEntry};

use crate::settle::settle_all;
use cdm_state::{Cdm, moment_is_of_the_last_tick};
use eme_types::{Copies, Fragment, Media};
use script_lang::{Action, Line, Script};
use serial_play::paced_scripts_have_one_answer;
use std::alloc::{AllocError, Global};
use std::collections::VecDeque;

/// Feeds the next fragment, or none past the last.
fn feed_next(cdm: &mut Cdm, left: &mut VecDeque<Fragment>, line: u32) -> Result<(), AllocError>
    requires { MayFeedNext cdm.old.tracks cdm.old.history (slice_get left.old.items 0) }
    ensures goes { OnOk result (Goes cdm.old cdm.new (FeedEntry line (slice_get left.old.items 0))) }
    ensures left { left.new.items ≡ drop 1 left.old.items }
{
    let given = left.pop_front();
    match cdm.feed(line, given) {
        Ok(()) => Ok(()),
        Err(back) => Err(back.error),
    }
}

/// Does what a line asks.
fn play_line(
    alloc: Global,
    cdm: &mut Cdm,
    line: &Line,
    left: &mut VecDeque<Fragment>,
) -> Result<(), AllocError>
    requires { MayGo cdm.old line.now.action (slice_get left.old.items 0) }
    ensures goes { OnOk result (Goes cdm.old cdm.new (entry_of line.now (slice_get left.old.items 0))) }
    ensures left { OnOk result (left.new.items ≡ left_by left.old.items line.now.action) }
{
    match &line.action {
        Action::Ask(call) => {
            let call = call.copy()?;
            match cdm.call(line.lane, line.number, call) {
                Ok(_) => Ok(()),
                Err(back) => Err(back.error),
            }
        }
        Action::Feed => {
            feed_next(cdm, left, line.number)?;
            Ok(())
        }
        Action::Clock(moment) => {
            cdm.tick(line.number, *moment)?;
            Ok(())
        }
        Action::Evict(label) => {
            let label = label.copy()?;
            match cdm.evict(line.number, label) {
                Ok(_) => Ok(()),
                Err(back) => Err(back.error),
            }
        }
        Action::Settle => {
            settle_all(alloc, cdm, line.number)?;
            Ok(())
        }
    }
}

/// Goes through the lines of the script in order, whatever their lanes.
fn play_lines(
    alloc: Global,
    cdm: &mut Cdm,
    script: &Script,
    left: &mut VecDeque<Fragment>,
) -> Result<(), AllocError>
    requires { (media : Media) × HasGone script.now media 0 left.old.items cdm.old }
    ensures { OnOk result ((media : Media) → HasGone script.now media 0 left.old.items cdm.old → HasGone script.now media (length script.now) left.new.items cdm.new) }
{
    moment_is_of_the_last_tick();
    for line in script.as_slice() {
        play_line(alloc, cdm, line, left)?;
    }
    Ok(())
}

/// What follows the last line: a settle, and a feed and a settle for each fragment that is left.
fn play_rest(
    alloc: Global,
    cdm: &mut Cdm,
    script: &Script,
    mut left: VecDeque<Fragment>,
) -> Result<(), AllocError>
    requires { (media : Media) × HasGone script.now media (length script.now) left.items cdm.old }
    ensures { OnOk result ((media : Media) → HasGone script.now media (length script.now) left.items cdm.old → HasFollowed script.now media [] cdm.new) }
{
    settle_all(alloc, cdm, 0)?;
    'rest: while !left.is_empty() {
        feed_next(cdm, &mut left, 0)?;
        settle_all(alloc, cdm, 0)?;
    }
    Ok(())
}

/// Plays the script on the media: its lines in order, whatever their lanes, with steps taken at each settle alone. The history is that of
/// the alone order; where the script is paced and agreeing, it has the answer of the serial play.
pub fn play_alone(alloc: Global, script: &Script, media: Media) -> Result<Cdm, AllocError>
    requires fed { IsFed media }
    ensures tracks { IfOk result (λ cdm. cdm.tracks ≡ media.tracks) }
    ensures alone { IfOk result (λ cdm. IsAlone script.now media cdm.history) }
    ensures complete { IfOk result (λ cdm. IsComplete script.now media cdm.history) }
    ensures staffed { IfOk result (λ cdm. IsStaffed 0 cdm.history) }
    ensures delivered { IfOk result (λ cdm. NoneWaits cdm.history) }
    ensures serial { IfOk result (λ cdm. HasSerialAnswer script.now media cdm.history) }
{
    let mut cdm = Cdm::new(alloc, &media.tracks)?;
    let mut left = VecDeque::from_vec(media.fragments.into_vec());
    play_lines(alloc, &mut cdm, script, &mut left)?;
    play_rest(alloc, &mut cdm, script, left)?;
    paced_scripts_have_one_answer();
    let _legal = cdm.history();
    Ok(cdm)
}
