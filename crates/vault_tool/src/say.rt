// The text of a call, said.
ghost use Rattle.std.specs.Prelude.{◌≡◌, ◌++◌, codes, OnOk, OnErr, IsErrOf};
ghost use Rattle.eme_edge.specs.Shelf.{Rose};
ghost use Rattle.eme_edge.specs.declared.shelf.ShelfFault.TheVariants.{Failed};
ghost use Rattle.vault_tool.specs.Said.{HasSaid, HasPartlySaid, IsSaid, IsPartlySaid};

use eme_edge::{Shelf, ShelfFault};
use eme_types::Bytes;

/// Says the text and a line feed. It takes no memory: the text of a release is given once.
fn say_line<S: Shelf>(shelf: &mut S, text: &[u8]) -> Result<(), ShelfFault>
    ensures ok { OnOk result (HasSaid (S.state shelf.old) (S.state shelf.new) (text.now ++ codes "\n")) }
    ensures part { OnErr result (HasPartlySaid (S.state shelf.old) (S.state shelf.new) (text.now ++ codes "\n")) }
    ensures cause { IsErrOf result Failed → Rose (S.state shelf.old).write_faults (S.state shelf.new).write_faults }
    ensures unread { (S.state shelf.new).read_faults ≡ (S.state shelf.old).read_faults }
{
    shelf.say(text)?;
    shelf.say(b"\n")?;
    Ok(())
}

/// Says the text, if there is one.
pub fn say_text<S: Shelf>(shelf: &mut S, text: &Option<Bytes>) -> Result<(), ShelfFault>
    ensures ok { OnOk result (IsSaid text.now (S.state shelf.old) (S.state shelf.new)) }
    ensures part { OnErr result (IsPartlySaid text.now (S.state shelf.old) (S.state shelf.new)) }
    ensures cause { IsErrOf result Failed → Rose (S.state shelf.old).write_faults (S.state shelf.new).write_faults }
    ensures unread { (S.state shelf.new).read_faults ≡ (S.state shelf.old).read_faults }
{
    match text {
        None => Ok(()),
        Some(text) => say_line(shelf, text.as_slice()),
    }
}
