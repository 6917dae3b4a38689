// The command `inspect`: what is in a media file, as text.
ghost use Rattle.std.specs.Prelude.{[], ◌∷◌, IfOk, IfErr};
ghost use Rattle.player_cli.specs.Inputs.{MediaFile, FirstEnds};
ghost use Rattle.player_cli.specs.ReadAll.{LeavesShelf};
ghost use Rattle.player_cli.specs.Told.{IsInspection};

use crate::end::Refusal;
use crate::inputs::media_in;
use eme_edge::Shelf;
use eme_types::Bytes;
use player_core::inspect_text;
use std::alloc::Global;

/// The text of the media file of that name.
pub fn inspection<S: Shelf>(alloc: Global, name: &str, shelf: &mut S) -> Result<Bytes, Refusal>
    ensures text { IfOk result (λ text. IsInspection (S.state shelf.old) name.now text) }
    ensures refused { IfErr result (λ refusal. FirstEnds (MediaFile name.now ∷ []) refusal (S.state shelf.old) (S.state shelf.new)) }
    ensures shelf { LeavesShelf (S.state shelf.old) (S.state shelf.new) }
{
    let media = match media_in(alloc, shelf, name) {
        Ok(media) => media,
        Err(end) => return Err(Refusal::Media(end)),
    };
    let Ok(text) = inspect_text(alloc, &media) else {
        return Err(Refusal::OutOfMemory);
    };
    Ok(text)
}
