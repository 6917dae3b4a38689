// How a command ends, in the small types of its steps, and what the top call answers then.
ghost use Rattle.std.specs.Prelude.{◌≡◌};
ghost use Rattle.player_cli.specs.Ends.{read_outcome, script_outcome, media_outcome, desk_outcome, refusal_outcome, outcome_of, writing_end};

use crate::outcome::{Outcome, SealKind, Which};
use crate::read::ReadEnd;
use eme_edge::ShelfFault;
use eme_types::{MAX_MEDIA_BYTES, MAX_SCRIPT_BYTES};
use license_desk::{DeskKind, MAX_DESK_BYTES, MAX_REQUEST_BYTES};
use script_lang::ScriptKind;
use track_media::MediaKind;

/// Why a file gave no script.
#[derive(Clone, Copy, Debug, PartialEq, Eq)]
pub enum ScriptEnd {
    Unread(ReadEnd),
    /// The first line with a broken rule, counted from 1, and its first broken rule.
    Refused { line: u32, kind: ScriptKind },
}

/// Why a file gave no media.
#[derive(Clone, Copy, Debug, PartialEq, Eq)]
pub enum MediaEnd {
    Unread(ReadEnd),
    /// The first byte of what breaks the first broken rule, counted from 0.
    Refused { place: u64, kind: MediaKind },
}

/// Why a file gave no table of keys.
#[derive(Clone, Copy, Debug, PartialEq, Eq)]
pub enum DeskEnd {
    Unread(ReadEnd),
    /// The first line with a broken rule, counted from 1, and its first broken rule.
    Refused { line: u32, kind: DeskKind },
}

/// Why a command ended before it wrote or said anything.
#[derive(Clone, Copy, Debug, PartialEq, Eq)]
pub enum Refusal {
    Script(ScriptEnd),
    Media(MediaEnd),
    Desk(DeskEnd),
    /// The licence request was not read.
    Request(ReadEnd),
    /// The media are read, and may not be sealed.
    Seal(SealKind),
    OutOfMemory,
}

/// How a command ended whose words are in their grammar.
#[derive(Clone, Copy, Debug, PartialEq, Eq)]
pub enum End {
    /// Its files are written, and its text is said.
    Whole,
    Refused(Refusal),
    /// Writing or saying stopped.
    Stopped(ShelfFault),
}

/// How a command ends that has nothing left but to write and to say.
pub fn writing_end(written: Result<(), ShelfFault>) -> End
    ensures { result ≡ writing_end written }
{
    match written {
        Ok(()) => End::Whole,
        Err(fault) => End::Stopped(fault),
    }
}

fn read_outcome(which: Which, limit: u64, end: ReadEnd) -> Outcome
    ensures { result ≡ read_outcome which limit end }
{
    match end {
        ReadEnd::TooLarge => Outcome::TooLarge { which, limit },
        ReadEnd::Fault => Outcome::ReadFault,
        ReadEnd::OutOfMemory => Outcome::OutOfMemory,
    }
}

fn script_outcome(end: ScriptEnd) -> Outcome
    ensures { result ≡ script_outcome end }
{
    match end {
        ScriptEnd::Unread(end) => read_outcome(Which::Script, MAX_SCRIPT_BYTES, end),
        ScriptEnd::Refused { line, kind } => Outcome::ScriptRefused { line, kind },
    }
}

fn media_outcome(end: MediaEnd) -> Outcome
    ensures { result ≡ media_outcome end }
{
    match end {
        MediaEnd::Unread(end) => read_outcome(Which::Media, MAX_MEDIA_BYTES, end),
        MediaEnd::Refused { place, kind } => Outcome::MediaRefused { place, kind },
    }
}

fn desk_outcome(end: DeskEnd) -> Outcome
    ensures { result ≡ desk_outcome end }
{
    match end {
        DeskEnd::Unread(end) => read_outcome(Which::Desk, MAX_DESK_BYTES, end),
        DeskEnd::Refused { line, kind } => Outcome::DeskRefused { line, kind },
    }
}

fn refusal_outcome(refusal: Refusal) -> Outcome
    ensures { result ≡ refusal_outcome refusal }
{
    match refusal {
        Refusal::Script(end) => script_outcome(end),
        Refusal::Media(end) => media_outcome(end),
        Refusal::Desk(end) => desk_outcome(end),
        Refusal::Request(end) => read_outcome(Which::Request, MAX_REQUEST_BYTES, end),
        Refusal::Seal(kind) => Outcome::SealRefused(kind),
        Refusal::OutOfMemory => Outcome::OutOfMemory,
    }
}

/// What the top call answers for a command whose good end is `good`.
pub fn outcome_of(good: Outcome, end: End) -> Outcome
    ensures { result ≡ outcome_of good end }
{
    match end {
        End::Whole => good,
        End::Refused(refusal) => refusal_outcome(refusal),
        End::Stopped(ShelfFault::Failed) => Outcome::WriteFault,
        End::Stopped(ShelfFault::OutOfMemory) => Outcome::OutOfMemory,
    }
}
