// The command `demo`: the demonstration of a number is played in memory.
ghost use Rattle.std.specs.Prelude.{IfOk};
ghost use Rattle.player_cli.specs.Told.{IsDemoSummary};

use eme_types::Bytes;
use output_order::summary_text;
use player_core::{demo_input, play_alone};
use script_lang::read_script;
use std::alloc::{AllocError, Global};
use track_media::parse_media;

/// The summary of the demonstration, which is a script and a media file: neither reader refuses it but for want of memory.
pub fn demo_summary(alloc: Global, n: u64) -> Result<Bytes, AllocError>
    ensures { IfOk result (λ text. IsDemoSummary n text) }
{
    let input = demo_input(alloc, n)?;
    let Ok(script) = read_script(alloc, input.script.as_slice()) else {
        return Err(AllocError);
    };
    let Ok(media) = parse_media(alloc, input.media.as_slice()) else {
        return Err(AllocError);
    };
    let cdm = play_alone(alloc, &script, media)?;
    summary_text(alloc, &cdm)
}
