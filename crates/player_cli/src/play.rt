// The command `play`: both files are read, and what they give is played and written.
ghost use Rattle.std.specs.Prelude.{◌≤◌, IfOk};
ghost use Rattle.eme_types.specs.Fed.{IsFed};
ghost use Rattle.eme_types.specs.declared.limits.TheConstants.{MAX_WORKERS};
ghost use Rattle.cdm_state.specs.History.{world, IsLegal, AtRest};
ghost use Rattle.player_cli.specs.Command.{Play, names_of};
ghost use Rattle.player_cli.specs.Played.{SettlesEach, ArePlayed};
ghost use Rattle.player_cli.specs.Says.{EndSays};

use crate::end::{End, Refusal, writing_end};
use crate::inputs::{media_in, script_in};
use crate::texts::{PlayTexts, texts_of};
use crate::words::PlayWords;
use crate::write::write_texts;
use cdm_state::{Cdm, promises_are_settled_once};
use decrypt_workers::Gate;
use eme_edge::Shelf;
use eme_types::Media;
use player_core::play;
use script_lang::Script;
use std::alloc::{AllocError, Global};
use std::sync::Wait;
use std::thread::Threads;

/// Reads the script, then the media, plays them beside the workers, and writes the texts of the play.
pub fn play_files<R: Threads + Wait + Sync, S: Shelf, G: Gate + Sync>(
    rt: &R,
    alloc: Global,
    asked: PlayWords<'_>,
    shelf: &mut S,
    gate: &G,
) -> End
    requires { asked.workers ≤ MAX_WORKERS }
    ensures { EndSays result (Play (names_of asked.entry)) (S.state shelf.old) (S.state shelf.new) }
{
    let script = match script_in(alloc, shelf, asked.script) {
        Ok(script) => script,
        Err(end) => return End::Refused(Refusal::Script(end)),
    };
    let media = match media_in(alloc, shelf, asked.media) {
        Ok(media) => media,
        Err(end) => return End::Refused(Refusal::Media(end)),
    };
    let Ok(texts) = play_texts(rt, alloc, &script, media, asked, gate) else {
        return End::Refused(Refusal::OutOfMemory);
    };
    writing_end(write_texts(shelf, texts.files.as_slice(), texts.summary.as_slice()))
}

/// The texts of the play of a script and a media file by as many workers as are asked for.
fn play_texts<R: Threads + Wait + Sync, G: Gate + Sync>(
    rt: &R,
    alloc: Global,
    script: &Script,
    media: Media,
    asked: PlayWords<'_>,
    gate: &G,
) -> Result<PlayTexts, AllocError>
    requires fed { IsFed media }
    requires few { asked.workers ≤ MAX_WORKERS }
    ensures { IfOk result (λ texts. ArePlayed asked.entry.workers script.now media asked.entry.prefix.now texts.files.items texts.summary) }
{
    let cdm = play(rt, alloc, script, media, asked.workers, gate)?;
    history_laws(&cdm);
    texts_of(alloc, &cdm, asked.prefix)
}

/// What the core's laws say of its history: it is legal, and where it ends at rest each promise was settled once.
fn history_laws(cdm: &Cdm)
    ensures legal { IsLegal cdm.now.tracks cdm.now.history }
    ensures settled { AtRest (world cdm.now.tracks cdm.now.history) → SettlesEach cdm.now.tracks cdm.now.history }
{
    let _history = cdm.history();
    promises_are_settled_once();
}
