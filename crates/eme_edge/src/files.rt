// Named files in a list.
ghost use Rattle.std.specs.Prelude.{◌≡◌, ◌≢◌, ◌<◌, ◌++◌, [], length, take, OnOk, OnErr, IsSome, Some, None, MatchOption, ℕ, List};
ghost use Rattle.eme_edge.specs.Files.{file_in, StandsAt};
ghost use Rattle.eme_edge.specs.Shelf.{OthersKept, FilesKept, HoldsMore};

use eme_types::Bytes;
use std::alloc::{AllocError, Global};

#[derive(Drop)]
pub struct Saved {
    pub name: Bytes,
    pub bytes: Bytes,
}

fn place_of(files: &[Saved], name: &[u8]) -> Option<usize>
    ensures { MatchOption result (file_in files.now name.now ≡ None) (StandsAt files.now name.now) }
{
    for (i, saved) in files.iter().enumerate() {
        if saved.name.as_slice() == name {
            return Some(i);
        }
    }
    None
}

/// The bytes of the file of that name.
pub fn bytes_of<'a>(files: &'a [Saved], name: &[u8]) -> Option<&'a [u8]>
    ensures { MatchOption result (file_in files.now name.now ≡ None) (λ b. file_in files.now name.now ≡ Some b.now) }
{
    match place_of(files, name) {
        None => None,
        Some(i) => Some(files[i].bytes.as_slice()),
    }
}

/// Adds the piece at the end of the file.
pub fn add_to(files: &mut Vec<Saved>, name: &[u8], piece: &[u8]) -> Result<(), AllocError>
    requires { IsSome (file_in files.old.items name.now) }
    ensures ok { OnOk result (HoldsMore (file_in files.old.items name.now) piece.now (file_in files.new.items name.now)) }
    ensures others { OthersKept (file_in files.old.items) (file_in files.new.items) name.now }
    ensures err { OnErr result (FilesKept (file_in files.old.items) (file_in files.new.items)) }
{
    match place_of(files, name) {
        None => Ok(()),
        Some(i) => {
            let saved = &mut files[i];
            saved.bytes.extend_from_slice(piece)?;
            Ok(())
        }
    }
}

/// Sets the file to these bytes.
pub fn put(
    alloc: Global,
    files: &mut Vec<Saved>,
    name: &[u8],
    bytes: Bytes,
) -> Result<(), AllocError>
    ensures ok { OnOk result (file_in files.new.items name.now ≡ Some bytes) }
    ensures others { OthersKept (file_in files.old.items) (file_in files.new.items) name.now }
    ensures err { OnErr result (FilesKept (file_in files.old.items) (file_in files.new.items)) }
{
    match place_of(files, name) {
        None => {
            let name = Bytes::from_slice(alloc, name)?;
            files.push(Saved { name, bytes })?;
            Ok(())
        }
        Some(i) => {
            let saved = &mut files[i];
            saved.bytes = bytes;
            Ok(())
        }
    }
}
