// The commands that say a text: one arm for each.
ghost use Rattle.std.specs.Prelude.{IfOk, IfErr};
ghost use Rattle.player_cli.specs.Command.{Tell, query_of, HasData};
ghost use Rattle.player_cli.specs.Inputs.{FirstEnds, Unread};
ghost use Rattle.player_cli.specs.ReadAll.{LeavesShelf};
ghost use Rattle.player_cli.specs.Says.{EndSays};
ghost use Rattle.player_cli.specs.Told.{inputs_of, IsText};

use crate::demo::demo_summary;
use crate::desk::desk_line;
use crate::end::{End, Refusal, writing_end};
use crate::inspect::inspection;
use crate::quiet::QuietWords;
use crate::request::answer;
use crate::write::write_texts;
use eme_edge::Shelf;
use eme_types::Bytes;
use std::alloc::Global;

/// The text that is asked for.
fn text_of<S: Shelf>(alloc: Global, asked: QuietWords<'_>, shelf: &mut S) -> Result<Bytes, Refusal>
    requires { HasData asked }
    ensures text { IfOk result (λ text. IsText (S.state shelf.old) (query_of asked.entry) text) }
    ensures refused { IfErr result (λ refusal. FirstEnds (inputs_of (query_of asked.entry)) refusal (S.state shelf.old) (S.state shelf.new)) }
    ensures unread { Unread (inputs_of (query_of asked.entry)) (S.state shelf.old) (S.state shelf.new) }
    ensures shelf { LeavesShelf (S.state shelf.old) (S.state shelf.new) }
{
    let made = match asked {
        QuietWords::Inspect(name) => return inspection(alloc, name, shelf),
        QuietWords::Desk(asked) => return desk_line(alloc, asked, shelf),
        QuietWords::Request(asked) => answer(alloc, asked.kind, asked.hex),
        QuietWords::Demo(n) => demo_summary(alloc, n),
    };
    match made {
        Ok(text) => Ok(text),
        Err(_) => Err(Refusal::OutOfMemory),
    }
}

/// Says the text that is asked for.
pub fn tell<S: Shelf>(alloc: Global, asked: QuietWords<'_>, shelf: &mut S) -> End
    requires { HasData asked }
    ensures { EndSays result (Tell (query_of asked.entry)) (S.state shelf.old) (S.state shelf.new) }
{
    let text = match text_of(alloc, asked, shelf) {
        Ok(text) => text,
        Err(refusal) => return End::Refused(refusal),
    };
    writing_end(write_texts(shelf, &[], text.as_slice()))
}
