// What the serial play of a paced script gives.
ghost use Rattle.std.specs.Prelude.{◌≡◌, ◌↔◌, ℕ, true, List, [], map, slice_get, Some, None, OnOk, IfOk, IsTrue};
ghost use Rattle.std.specs.List.{concat, list_all};
ghost use Rattle.eme_types.specs.Fed.{IsFed, are_well_formed};
ghost use Rattle.eme_types.specs.declared.media.Media.{Media as MediaOf};
ghost use Rattle.key_sessions.specs.Agree.{Agree};
ghost use Rattle.script_lang.specs.Paced.{settles, IsPaced};
ghost use Rattle.serial_play.specs.Served.{IsIdle};
ghost use Rattle.serial_play.specs.Serial.{Serial, feed_all, serial, Agreeing};
ghost use Rattle.serial_play.specs.Answer.{text_of, Stands, HasPlayed};

use crate::play::{SerialPlay, is_settle};
use crate::track::SerialTrack;
use eme_types::{Copies, Items, Media, Settled, TrackTexts};
use key_sessions::Sessions;
use script_lang::{Action, Line, Script};
use std::alloc::{AllocError, Global};

/// How each promise was settled, in order of their numbers.
pub type Results = Items<Settled>;

/// What the serial play of a paced script gives: whether the script is agreeing, the file of each track, and how each promise was settled.
#[derive(Drop)]
pub struct SerialEnd {
    pub agreeing: bool,
    pub tracks: TrackTexts,
    pub results: Results,
}

/// Whether the sessions agreed before a line, and do after it. A settle leaves them as they were.
fn still_agree(agreeing: bool, action: &Action, sessions: &Sessions) -> Result<bool, AllocError>
    requires { IsTrue agreeing → IsTrue (settles action.now) → Agree sessions.now.machine }
    ensures { IfOk result (λ yes. IsTrue yes ↔ (IsTrue agreeing × Agree sessions.now.machine)) }
{
    if !agreeing {
        return Ok(false);
    }
    if is_settle(action) {
        return Ok(true);
    }
    sessions.agree()
}

/// Goes through the lines of the script in order. It answers whether the sessions agreed after each of them.
fn play_lines(alloc: Global, play: &mut SerialPlay<'_>, script: &[Line]) -> Result<bool, AllocError>
    requires { (media : MediaOf) × HasPlayed script.now media script.now true play.old }
    ensures { IfOk result (λ agreeing. (media : MediaOf) → HasPlayed script.now media script.now true play.old → HasPlayed script.now media [] agreeing play.new) }
{
    let mut agreeing = true;
    for line in script {
        play.line(alloc, &line.action)?;
        let agree = still_agree(agreeing, &line.action, &play.sessions)?;
        agreeing = agree;
    }
    Ok(agreeing)
}

/// The fragments that are left are fed.
fn play_rest(alloc: Global, play: &mut SerialPlay<'_>) -> Result<(), AllocError>
    requires { IsTrue (list_all are_well_formed play.old.left.now) }
    ensures { OnOk result ((tracks : List ℕ) (s : Serial) → Stands tracks s play.old → Stands tracks (feed_all play.old.left.now s) play.new) }
{
    'rest: while !play.left.is_empty() {
        play.line(alloc, &Action::Feed)?;
    }
    Ok(())
}

/// How each promise was settled.
fn results_of(alloc: Global, promises: &[Option<Settled>]) -> Result<Results, AllocError>
    requires { (n : ℕ) → slice_get promises.now n ≡ Some None → ⊥ }
    ensures { IfOk result (λ results. map Some results ≡ promises.now) }
{
    let mut results = Results::new(alloc);
    for promise in promises {
        match promise {
            Some(how) => results.push(how.copy()?)?,
            None => unreachable!(),
        }
    }
    Ok(results)
}

/// How each promise of the sessions was settled, where nothing is queued: each one is.
fn promises_of(alloc: Global, sessions: &Sessions) -> Result<Results, AllocError>
    requires { IsIdle sessions.now.machine }
    ensures { IfOk result (λ results. map Some results ≡ sessions.now.machine.promises) }
{
    sessions.keeps();
    results_of(alloc, sessions.promises())
}

/// The file of each track, in order.
fn texts_of(alloc: Global, tracks: Vec<SerialTrack<'_>>) -> Result<TrackTexts, AllocError>
    ensures { IfOk result (λ texts. texts ≡ map text_of tracks.entry.items) }
{
    let mut texts = TrackTexts::new(alloc);
    for track in tracks {
        let SerialTrack { id, bytes, .. } = track;
        texts.push((id, bytes))?;
    }
    Ok(texts)
}

/// The serial play of a paced script on the media.
pub fn serial_end(alloc: Global, script: &Script, media: &Media) -> Result<SerialEnd, AllocError>
    requires paced { IsPaced script.now }
    requires fed { IsFed media.now }
    ensures agreeing { IfOk result (λ end. IsTrue end.agreeing ↔ Agreeing script.now media.now) }
    ensures tracks { IfOk result (λ end. end.tracks ≡ map (λ track. (track, concat ((serial script.now media.now).out track))) media.now.tracks) }
    ensures results { IfOk result (λ end. map Some end.results ≡ (serial script.now media.now).machine.promises) }
{
    let mut play = SerialPlay::new(alloc, media)?;
    let agreeing = play_lines(alloc, &mut play, script.as_slice())?;
    play_rest(alloc, &mut play)?;
    let results = promises_of(alloc, &play.sessions)?;
    let tracks = texts_of(alloc, play.tracks)?;
    Ok(SerialEnd {
        agreeing,
        tracks,
        results,
    })
}
