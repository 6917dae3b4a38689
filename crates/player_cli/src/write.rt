// Texts into files.
ghost use Rattle.std.specs.Prelude.{◌≡◌, ◌⊎◌, [], OnOk, OnErr, IsTrue, Some, length};
ghost use Rattle.eme_edge.specs.Shelf.{OthersKept, TellsAlike};
ghost use Rattle.player_cli.specs.Files.{HaveDistinctNames};
ghost use Rattle.player_cli.specs.Written.{WritesCause, HoldsFront, FilesSoFar, StopsAtStart, StopsInText, IsWritten, IsStopped};

use crate::texts::TextFile;
use eme_edge::{Shelf, ShelfFault};

const PIECE: usize = 65536;

/// Appends a text to a file that was just started, in pieces. An empty text takes no append.
fn append_text<S: Shelf>(shelf: &mut S, name: &str, text: &[u8]) -> Result<(), ShelfFault>
    requires { IsTrue (S.state shelf.old).tells_files → (S.state shelf.old).file name.now ≡ Some [] }
    ensures file { OnOk result (IsTrue (S.state shelf.old).tells_files → (S.state shelf.new).file name.now ≡ Some text.now) }
    ensures front { OnErr result (IsTrue (S.state shelf.old).tells_files → HoldsFront text.now ((S.state shelf.new).file name.now)) }
    ensures others { OthersKept (S.state shelf.old).file (S.state shelf.new).file name.now }
    ensures said { (S.state shelf.new).said ≡ (S.state shelf.old).said }
    ensures tells { TellsAlike (S.state shelf.old) (S.state shelf.new) }
    ensures cause { WritesCause (S.state shelf.old) (S.state shelf.new) result }
{
    let mut rest = text;
    while !rest.is_empty() {
        let (piece, after) = rest.split_at(rest.len().min(PIECE));
        shelf.append(name, piece)?;
        rest = after;
    }
    Ok(())
}

/// Writes each file by one start and then appends, in order.
pub fn write_files<S: Shelf>(shelf: &mut S, files: &[TextFile]) -> Result<(), ShelfFault>
    requires { HaveDistinctNames files.now }
    ensures ok { OnOk result (FilesSoFar (S.state shelf.old) (S.state shelf.new) files.now (length files.now)) }
    ensures err { OnErr result (StopsAtStart (S.state shelf.old) (S.state shelf.new) files.now ⊎ StopsInText (S.state shelf.old) (S.state shelf.new) files.now) }
    ensures cause { WritesCause (S.state shelf.old) (S.state shelf.new) result }
{
    'files: for (i, file) in files.iter().enumerate() {
        shelf.start(file.name())?;
        append_text(shelf, file.name(), file.text())?;
    }
    Ok(())
}

/// Writes the files and says the summary.
pub fn write_texts<S: Shelf>(
    shelf: &mut S,
    files: &[TextFile],
    summary: &[u8],
) -> Result<(), ShelfFault>
    requires { HaveDistinctNames files.now }
    ensures ok { OnOk result (IsWritten (S.state shelf.old) (S.state shelf.new) files.now summary.now) }
    ensures err { OnErr result (IsStopped (S.state shelf.old) (S.state shelf.new) files.now summary.now) }
    ensures cause { WritesCause (S.state shelf.old) (S.state shelf.new) result }
{
    write_files(shelf, files)?;
    shelf.say(summary)?;
    Ok(())
}
