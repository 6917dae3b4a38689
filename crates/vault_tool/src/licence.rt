// The file of a licence.
ghost use Rattle.std.specs.Prelude.{◌≡◌, length, IfOk, IfErr};
ghost use Rattle.vault_tool.specs.Licence.{LicenceRead, LicenceEnds, end_outcome};
ghost use Rattle.vault_tool.specs.Said.{Unsaid};

use crate::outcome::VaultOutcome;
use eme_edge::{Shelf, ShelfFault};
use eme_types::{Bytes, MAX_KEY_SET_BYTES};
use std::alloc::{AllocError, Global};

/// Why a file gave no licence.
#[derive(Clone, Copy, Debug, PartialEq, Eq)]
pub enum LicenceEnd {
    /// The file has more bytes than a key set may have.
    TooLarge,
    /// A read failed, or the file is not there.
    Fault,
    OutOfMemory,
}

/// What is answered where a file gave no licence.
pub fn end_outcome(end: LicenceEnd) -> VaultOutcome
    ensures { result ≡ end_outcome end }
{
    match end {
        LicenceEnd::TooLarge => VaultOutcome::TooLarge,
        LicenceEnd::Fault => VaultOutcome::ReadFault,
        LicenceEnd::OutOfMemory => VaultOutcome::OutOfMemory,
    }
}

/// Bytes to read into: one more than a licence may have.
fn room_for(alloc: Global) -> Result<Vec<u8>, AllocError>
    ensures { IfOk result (λ room. length room.items ≡ 65537) }
{
    vec![in alloc; 0u8; MAX_KEY_SET_BYTES + 1]
}

/// The bytes of the licence file, by one read.
pub fn read_licence<S: Shelf>(alloc: Global, shelf: &mut S, name: &str) -> Result<Bytes, LicenceEnd>
    ensures read { IfOk result (λ licence. LicenceRead (S.state shelf.old) name.now licence) }
    ensures end { IfErr result (λ end. LicenceEnds end (S.state shelf.old) (S.state shelf.new) name.now) }
    ensures shelf { Unsaid (S.state shelf.old) (S.state shelf.new) }
{
    let Ok(mut room) = room_for(alloc) else {
        return Err(LicenceEnd::OutOfMemory);
    };
    match shelf.read(name, 0, room.as_mut_slice()) {
        Ok(count) => {
            if count > MAX_KEY_SET_BYTES {
                return Err(LicenceEnd::TooLarge);
            }
            room.truncate(count);
            Ok(Bytes::from_vec(room))
        }
        Err(ShelfFault::Failed) => Err(LicenceEnd::Fault),
        Err(ShelfFault::OutOfMemory) => Err(LicenceEnd::OutOfMemory),
    }
}
