// The command `desk`: what a table of keys answers to a licence request.
ghost use Rattle.std.specs.Prelude.{[], ◌∷◌, IfOk, IfErr};
ghost use Rattle.license_desk.specs.Answer.{given, requested, answer_of};
ghost use Rattle.player_cli.specs.Command.{desk_names};
ghost use Rattle.player_cli.specs.Inputs.{DeskFile, RequestFile, FirstEnds};
ghost use Rattle.player_cli.specs.ReadAll.{LeavesShelf};
ghost use Rattle.player_cli.specs.Told.{IsLicenceLine, IsDeskAnswer};

use crate::end::Refusal;
use crate::inputs::{desk_in, request_in};
use crate::quiet::DeskWords;
use eme_edge::Shelf;
use eme_types::Bytes;
use license_desk::{AnswerFault, KeyDesk, answer};
use std::alloc::{AllocError, Global};

/// The licence and a line feed, or the line of the refusal.
fn answer_line(
    alloc: Global,
    desk: &KeyDesk,
    request: &[u8],
    moment: u64,
) -> Result<Bytes, AllocError>
    ensures { IfOk result (IsLicenceLine (answer_of desk.now moment request.now) (given desk.now moment (requested request.now))) }
{
    match answer(alloc, desk, request, moment) {
        Ok(licence) => {
            let mut text = licence;
            text.push(b'\n')?;
            Ok(text)
        }
        Err(AnswerFault::Invalid) => Bytes::from_slice(alloc, b"refused Invalid\n"),
        Err(AnswerFault::NoKids) => Bytes::from_slice(alloc, b"refused NoKids\n"),
        Err(AnswerFault::Kind) => Bytes::from_slice(alloc, b"refused Kind\n"),
        Err(AnswerFault::NoKeys) => Bytes::from_slice(alloc, b"refused NoKeys\n"),
        Err(AnswerFault::TooMany) => Bytes::from_slice(alloc, b"refused TooMany\n"),
        Err(AnswerFault::TooLong) => Bytes::from_slice(alloc, b"refused TooLong\n"),
        Err(AnswerFault::OutOfMemory) => Err(AllocError),
    }
}

/// The line of the answer. The table is read before the request.
pub fn desk_line<S: Shelf>(
    alloc: Global,
    asked: DeskWords<'_>,
    shelf: &mut S,
) -> Result<Bytes, Refusal>
    ensures text { IfOk result (λ text. IsDeskAnswer (S.state shelf.old) (desk_names asked.entry) text) }
    ensures refused { IfErr result (λ refusal. FirstEnds (DeskFile asked.entry.table.now ∷ (RequestFile asked.entry.request.now ∷ [])) refusal (S.state shelf.old) (S.state shelf.new)) }
    ensures shelf { LeavesShelf (S.state shelf.old) (S.state shelf.new) }
{
    let desk = match desk_in(alloc, shelf, asked.table) {
        Ok(desk) => desk,
        Err(end) => return Err(Refusal::Desk(end)),
    };
    let request = match request_in(alloc, shelf, asked.request) {
        Ok(request) => request,
        Err(end) => return Err(Refusal::Request(end)),
    };
    let Ok(text) = answer_line(alloc, &desk, request.as_slice(), asked.moment) else {
        return Err(Refusal::OutOfMemory);
    };
    Ok(text)
}
