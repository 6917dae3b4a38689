// A whole file, up to a limit.
ghost use Rattle.std.specs.Prelude.{◌≡◌, ◌≤◌, ◌<◌, ◌^◌, length, IsTrue, IfOk, IfErr, Some};
ghost use Rattle.player_cli.specs.ReadAll.{LeavesShelf, ReadEnds, end_of};

use eme_edge::{Shelf, ShelfFault};
use eme_types::Bytes;
use std::alloc::{AllocError, Global};

/// Bytes of one read.
const PIECE: usize = 1_048_576;

/// Why a file was not read.
#[derive(Clone, Copy, Debug, PartialEq, Eq)]
pub enum ReadEnd {
    /// The file has more bytes than the limit.
    TooLarge,
    /// A read failed, or the file is not there.
    Fault,
    OutOfMemory,
}

fn end_of(fault: ShelfFault) -> ReadEnd
    ensures { result ≡ end_of fault }
{
    match fault {
        ShelfFault::Failed => ReadEnd::Fault,
        ShelfFault::OutOfMemory => ReadEnd::OutOfMemory,
    }
}

/// Bytes to read into.
fn room_for(alloc: Global, size: usize) -> Result<Vec<u8>, AllocError>
    ensures { IfOk result (λ room. length room.items ≡ size) }
{
    vec![in alloc; 0u8; size]
}

/// Tests the size with one read of one byte at the limit, and reads the file.
pub fn read_whole<S: Shelf>(
    alloc: Global,
    shelf: &mut S,
    name: &str,
    limit: u64,
) -> Result<Bytes, ReadEnd>
    requires { limit < 2 ^ 63 }
    ensures bytes { IfOk result (λ b. IsTrue (S.state shelf.old).tells_files → (S.state shelf.old).file name.now ≡ Some b) }
    ensures limit { IfOk result (λ b. length b ≤ limit) }
    ensures end { IfErr result (λ end. ReadEnds end (S.state shelf.old) (S.state shelf.new) name.now limit) }
    ensures shelf { LeavesShelf (S.state shelf.old) (S.state shelf.new) }
{
    let Ok(mut piece) = room_for(alloc, PIECE) else {
        return Err(ReadEnd::OutOfMemory);
    };
    read_pieces(alloc, shelf, name, limit, piece.as_mut_slice())
}

/// The same by pieces of a length.
fn read_pieces<S: Shelf>(
    alloc: Global,
    shelf: &mut S,
    name: &str,
    limit: u64,
    piece: &mut [u8],
) -> Result<Bytes, ReadEnd>
    requires fits { limit < 2 ^ 63 }
    requires some { 0 < length piece.old }
    ensures bytes { IfOk result (λ b. IsTrue (S.state shelf.old).tells_files → (S.state shelf.old).file name.now ≡ Some b) }
    ensures limit { IfOk result (λ b. length b ≤ limit) }
    ensures end { IfErr result (λ end. ReadEnds end (S.state shelf.old) (S.state shelf.new) name.now limit) }
    ensures shelf { LeavesShelf (S.state shelf.old) (S.state shelf.new) }
{
    let mut probe = [0u8; 1];
    match shelf.read(name, limit, &mut probe) {
        Ok(0) => {}
        Ok(_) => return Err(ReadEnd::TooLarge),
        Err(fault) => return Err(end_of(fault)),
    }
    let mut out = Bytes::new(alloc);
    let limit = limit as usize;
    'pieces: while out.len() < limit {
        let n = match shelf.read(name, out.len() as u64, piece) {
            Ok(n) => n,
            Err(fault) => return Err(end_of(fault)),
        };
        if n == 0 {
            return Ok(out);
        }
        let taken = n.min(limit - out.len());
        if out.extend_from_slice(&piece[..taken]).is_err() {
            return Err(ReadEnd::OutOfMemory);
        }
    }
    Ok(out)
}
