// The files that a command reads.
ghost use Rattle.std.specs.Prelude.{IfOk, IfErr};
ghost use Rattle.eme_types.specs.Fed.{IsFed};
ghost use Rattle.player_cli.specs.ReadAll.{LeavesShelf};
ghost use Rattle.license_desk.specs.declared.limits.TheConstants.{MAX_REQUEST_BYTES};
ghost use Rattle.player_cli.specs.ReadAll.{ReadEnds};
ghost use Rattle.player_cli.specs.Inputs.{ScriptRead, MediaRead, DeskRead, RequestRead, ScriptEnds, MediaEnds, DeskEnds};

use crate::end::{DeskEnd, MediaEnd, ScriptEnd};
use crate::read::{ReadEnd, read_whole};
use eme_edge::Shelf;
use eme_types::{Bytes, MAX_MEDIA_BYTES, MAX_SCRIPT_BYTES, Media};
use license_desk::{DeskFault, KeyDesk, MAX_DESK_BYTES, MAX_REQUEST_BYTES, read_desk};
use script_lang::{Script, ScriptFault, read_script};
use std::alloc::Global;
use track_media::{MediaFault, parse_media};

/// The script in a file.
pub fn script_in<S: Shelf>(alloc: Global, shelf: &mut S, name: &str) -> Result<Script, ScriptEnd>
    ensures read { IfOk result (λ script. ScriptRead (S.state shelf.old) name.now script) }
    ensures end { IfErr result (λ end. ScriptEnds end (S.state shelf.old) (S.state shelf.new) name.now) }
    ensures shelf { LeavesShelf (S.state shelf.old) (S.state shelf.new) }
{
    let bytes = match read_whole(alloc, shelf, name, MAX_SCRIPT_BYTES) {
        Ok(bytes) => bytes,
        Err(end) => return Err(ScriptEnd::Unread(end)),
    };
    match read_script(alloc, bytes.as_slice()) {
        Ok(script) => Ok(script),
        Err(ScriptFault::Refused { line, kind }) => Err(ScriptEnd::Refused { line, kind }),
        Err(ScriptFault::OutOfMemory) => Err(ScriptEnd::Unread(ReadEnd::OutOfMemory)),
    }
}

/// The media in a file.
pub fn media_in<S: Shelf>(alloc: Global, shelf: &mut S, name: &str) -> Result<Media, MediaEnd>
    ensures read { IfOk result (λ media. MediaRead (S.state shelf.old) name.now media) }
    ensures fed { IfOk result (λ media. IsFed media) }
    ensures end { IfErr result (λ end. MediaEnds end (S.state shelf.old) (S.state shelf.new) name.now) }
    ensures shelf { LeavesShelf (S.state shelf.old) (S.state shelf.new) }
{
    let bytes = match read_whole(alloc, shelf, name, MAX_MEDIA_BYTES) {
        Ok(bytes) => bytes,
        Err(end) => return Err(MediaEnd::Unread(end)),
    };
    match parse_media(alloc, bytes.as_slice()) {
        Ok(media) => Ok(media),
        Err(MediaFault::Refused { place, kind }) => Err(MediaEnd::Refused { place, kind }),
        Err(MediaFault::OutOfMemory) => Err(MediaEnd::Unread(ReadEnd::OutOfMemory)),
    }
}

/// The table of keys in a file.
pub fn desk_in<S: Shelf>(alloc: Global, shelf: &mut S, name: &str) -> Result<KeyDesk, DeskEnd>
    ensures read { IfOk result (λ desk. DeskRead (S.state shelf.old) name.now desk) }
    ensures end { IfErr result (λ end. DeskEnds end (S.state shelf.old) (S.state shelf.new) name.now) }
    ensures shelf { LeavesShelf (S.state shelf.old) (S.state shelf.new) }
{
    let bytes = match read_whole(alloc, shelf, name, MAX_DESK_BYTES) {
        Ok(bytes) => bytes,
        Err(end) => return Err(DeskEnd::Unread(end)),
    };
    match read_desk(alloc, bytes.as_slice()) {
        Ok(desk) => Ok(desk),
        Err(DeskFault::Refused { line, kind }) => Err(DeskEnd::Refused { line, kind }),
        Err(DeskFault::OutOfMemory) => Err(DeskEnd::Unread(ReadEnd::OutOfMemory)),
    }
}

/// The licence request in a file: its bytes, whatever they are.
pub fn request_in<S: Shelf>(alloc: Global, shelf: &mut S, name: &str) -> Result<Bytes, ReadEnd>
    ensures read { IfOk result (λ request. RequestRead (S.state shelf.old) name.now request) }
    ensures end { IfErr result (λ end. ReadEnds end (S.state shelf.old) (S.state shelf.new) name.now MAX_REQUEST_BYTES) }
    ensures shelf { LeavesShelf (S.state shelf.old) (S.state shelf.new) }
{
    read_whole(alloc, shelf, name, MAX_REQUEST_BYTES)
}
