// The command `seal`: clear media become a protected file.
ghost use Rattle.std.specs.Prelude.{◌≡◌, [], ◌∷◌, IfOk, IfErr};
ghost use Rattle.player_cli.specs.Command.{Seal, seal_names};
ghost use Rattle.player_cli.specs.Inputs.{ClearFile, FirstEnds, seal_refusal};
ghost use Rattle.player_cli.specs.ReadAll.{LeavesShelf};
ghost use Rattle.player_cli.specs.Says.{EndSays};
ghost use Rattle.player_cli.specs.Sealed.{IsSealing};

use crate::end::{End, Refusal, writing_end};
use crate::inputs::media_in;
use crate::outcome::SealKind;
use crate::seal_words::SealWords;
use crate::texts::TextFile;
use crate::write::write_files;
use eme_edge::Shelf;
use eme_types::Bytes;
use seal_media::{SealFault, seal};
use std::alloc::{AllocError, Global};

/// How the command ends where media are not sealed.
fn seal_refusal(fault: SealFault) -> Refusal
    ensures { result ≡ seal_refusal fault }
{
    match fault {
        SealFault::HasInit { fragment: _ } => Refusal::Seal(SealKind::HasInit),
        SealFault::Protected {
            fragment: _,
            track: _,
        } => Refusal::Seal(SealKind::Protected),
        SealFault::TooLarge => Refusal::Seal(SealKind::TooLarge),
        SealFault::OutOfMemory => Refusal::OutOfMemory,
    }
}

/// The bytes of the sealed file.
fn sealed_bytes<S: Shelf>(
    alloc: Global,
    asked: SealWords<'_>,
    shelf: &mut S,
) -> Result<Bytes, Refusal>
    ensures bytes { IfOk result (λ bytes. IsSealing (S.state shelf.old) (seal_names asked.entry) bytes) }
    ensures refused { IfErr result (λ refusal. FirstEnds (ClearFile (seal_names asked.entry) ∷ []) refusal (S.state shelf.old) (S.state shelf.new)) }
    ensures shelf { LeavesShelf (S.state shelf.old) (S.state shelf.new) }
{
    let media = match media_in(alloc, shelf, asked.media) {
        Ok(media) => media,
        Err(end) => return Err(Refusal::Media(end)),
    };
    match seal(alloc, &media, &asked.plan) {
        Ok(bytes) => Ok(bytes),
        Err(fault) => Err(seal_refusal(fault)),
    }
}

/// The file that is to be written.
fn sealed_file<S: Shelf>(
    alloc: Global,
    asked: SealWords<'_>,
    shelf: &mut S,
) -> Result<TextFile, Refusal>
    ensures name { IfOk result (λ file. file.name ≡ asked.entry.out.now) }
    ensures bytes { IfOk result (λ file. IsSealing (S.state shelf.old) (seal_names asked.entry) file.text) }
    ensures refused { IfErr result (λ refusal. FirstEnds (ClearFile (seal_names asked.entry) ∷ []) refusal (S.state shelf.old) (S.state shelf.new)) }
    ensures shelf { LeavesShelf (S.state shelf.old) (S.state shelf.new) }
{
    let bytes = sealed_bytes(alloc, asked, shelf)?;
    match named(alloc, asked.out, bytes) {
        Ok(file) => Ok(file),
        Err(_) => Err(Refusal::OutOfMemory),
    }
}

/// The bytes under the name.
fn named(alloc: Global, name: &str, bytes: Bytes) -> Result<TextFile, AllocError>
    ensures { IfOk result (λ file. (file.name ≡ name.now) × (file.text ≡ bytes)) }
{
    let name = format!(in alloc; "{name}")?;
    Ok(TextFile::new(name, bytes))
}

/// Seals the media of a file, and writes the output by one start and then appends.
pub fn seal_file<S: Shelf>(alloc: Global, asked: SealWords<'_>, shelf: &mut S) -> End
    ensures { EndSays result (Seal (seal_names asked.entry)) (S.state shelf.old) (S.state shelf.new) }
{
    let file = match sealed_file(alloc, asked, shelf) {
        Ok(file) => file,
        Err(refusal) => return End::Refused(refusal),
    };
    writing_end(write_files(shelf, &[file]))
}
