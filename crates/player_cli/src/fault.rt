// What an outcome means to the outside: an exit status and a line on standard error.
ghost use Rattle.std.specs.Prelude.{◌≡◌, IfOk, string_bytes};
ghost use Rattle.player_cli.specs.Faults.{status_of, text_of, usage_name, script_name, media_name, desk_name, seal_name};

use crate::outcome::{Outcome, SealKind, Which};
use eme_edge::{UsageFault, UsageKind};
use eme_types::Bytes;
use license_desk::DeskKind;
use script_lang::ScriptKind;
use std::alloc::{AllocError, Global};
use track_media::MediaKind;

/// The exit status of the program.
pub fn status(outcome: &Outcome) -> u8
    ensures { result ≡ status_of outcome.now }
{
    match outcome {
        Outcome::Played => 0,
        Outcome::Done => 0,
        Outcome::Usage(_) => 2,
        Outcome::ScriptRefused { line: _, kind: _ } => 3,
        Outcome::MediaRefused { place: _, kind: _ } => 4,
        Outcome::TooLarge { which: _, limit: _ } => 5,
        Outcome::ReadFault => 6,
        Outcome::WriteFault => 7,
        Outcome::OutOfMemory => 8,
        Outcome::SealRefused(_) => 9,
        Outcome::DeskRefused { line: _, kind: _ } => 10,
    }
}

fn usage_name(kind: UsageKind) -> &'static str
    ensures { result.now ≡ usage_name kind }
{
    match kind {
        UsageKind::MissingCommand => "MissingCommand",
        UsageKind::UnknownCommand => "UnknownCommand",
        UsageKind::MissingWord => "MissingWord",
        UsageKind::ExtraWord => "ExtraWord",
        UsageKind::BadNumber => "BadNumber",
        UsageKind::BadKind => "BadKind",
        UsageKind::BadHex => "BadHex",
        UsageKind::EmptyName => "EmptyName",
        UsageKind::NameClash => "NameClash",
    }
}

fn script_name(kind: ScriptKind) -> &'static str
    ensures { result.now ≡ script_name kind }
{
    match kind {
        ScriptKind::NotUtf8 => "NotUtf8",
        ScriptKind::Header => "Header",
        ScriptKind::TooManyLines => "TooManyLines",
        ScriptKind::Lane => "Lane",
        ScriptKind::Verb => "Verb",
        ScriptKind::LaneKind => "LaneKind",
        ScriptKind::Words => "Words",
        ScriptKind::Label => "Label",
        ScriptKind::DuplicateLabel => "DuplicateLabel",
        ScriptKind::Form => "Form",
        ScriptKind::Hex => "Hex",
        ScriptKind::Number => "Number",
        ScriptKind::ClockBack => "ClockBack",
    }
}

fn media_name(kind: MediaKind) -> &'static str
    ensures { result.now ≡ media_name kind }
{
    match kind {
        MediaKind::Short => "Short",
        MediaKind::SizeTooSmall => "SizeTooSmall",
        MediaKind::PastEnd => "PastEnd",
        MediaKind::Version => "Version",
        MediaKind::IsProtected => "IsProtected",
        MediaKind::IvSize => "IvSize",
        MediaKind::Pattern => "Pattern",
        MediaKind::Scheme => "Scheme",
        MediaKind::NoTenc => "NoTenc",
        MediaKind::CountDiffers => "CountDiffers",
        MediaKind::NoTrackId => "NoTrackId",
        MediaKind::SecondTrack => "SecondTrack",
        MediaKind::TooManyTracks => "TooManyTracks",
        MediaKind::EntryType => "EntryType",
        MediaKind::AudioVersion => "AudioVersion",
        MediaKind::NoSinf => "NoSinf",
        MediaKind::Progressive => "Progressive",
        MediaKind::NoTfhd => "NoTfhd",
        MediaKind::UnknownTrack => "UnknownTrack",
        MediaKind::NoTrex => "NoTrex",
        MediaKind::Description => "Description",
        MediaKind::TooManySamples => "TooManySamples",
        MediaKind::TooManyBytes => "TooManyBytes",
        MediaKind::DataPastEnd => "DataPastEnd",
        MediaKind::GroupIndex => "GroupIndex",
        MediaKind::AuxSize => "AuxSize",
        MediaKind::OffsetPastEnd => "OffsetPastEnd",
        MediaKind::NoAux => "NoAux",
        MediaKind::SubsSum => "SubsSum",
        MediaKind::NoMoov => "NoMoov",
        MediaKind::SecondMoov => "SecondMoov",
        MediaKind::Line => "Line",
        MediaKind::TrackId => "TrackId",
        MediaKind::Hex => "Hex",
        MediaKind::Kid => "Kid",
    }
}

fn desk_name(kind: DeskKind) -> &'static str
    ensures { result.now ≡ desk_name kind }
{
    match kind {
        DeskKind::Header => "Header",
        DeskKind::Line => "Line",
        DeskKind::Kid => "Kid",
        DeskKind::Key => "Key",
        DeskKind::Number => "Number",
        DeskKind::DuplicateKid => "DuplicateKid",
    }
}

fn seal_name(kind: SealKind) -> &'static str
    ensures { result.now ≡ seal_name kind }
{
    match kind {
        SealKind::HasInit => "HasInit",
        SealKind::Protected => "Protected",
        SealKind::TooLarge => "TooLarge",
    }
}

fn text_of(alloc: Global, outcome: &Outcome) -> Result<String, AllocError>
    ensures { IfOk result (λ text. string_bytes text ≡ text_of outcome.now) }
{
    match outcome {
        Outcome::Played => Ok(String::new(alloc)),
        Outcome::Done => Ok(String::new(alloc)),
        Outcome::Usage(UsageFault { place, kind }) => {
            let name = usage_name(*kind);
            format!(in alloc; "usage: word {place}: {name}\n")
        }
        Outcome::ScriptRefused { line, kind } => {
            let name = script_name(*kind);
            format!(in alloc; "script: line {line}: {name}\n")
        }
        Outcome::MediaRefused { place, kind } => {
            let name = media_name(*kind);
            format!(in alloc; "media: byte {place}: {name}\n")
        }
        Outcome::SealRefused(kind) => {
            let name = seal_name(*kind);
            format!(in alloc; "seal: {name}\n")
        }
        Outcome::TooLarge {
            which: Which::Script,
            limit,
        } => { format!(in alloc; "too large: script: limit {limit}\n") }
        Outcome::TooLarge {
            which: Which::Media,
            limit,
        } => { format!(in alloc; "too large: media: limit {limit}\n") }
        Outcome::TooLarge {
            which: Which::Desk,
            limit,
        } => { format!(in alloc; "too large: desk: limit {limit}\n") }
        Outcome::TooLarge {
            which: Which::Request,
            limit,
        } => { format!(in alloc; "too large: request: limit {limit}\n") }
        Outcome::ReadFault => String::from_str(alloc, "read fault\n"),
        Outcome::WriteFault => String::from_str(alloc, "write fault\n"),
        Outcome::OutOfMemory => String::from_str(alloc, "out of memory\n"),
        Outcome::DeskRefused { line, kind } => {
            let name = desk_name(*kind);
            format!(in alloc; "desk: line {line}: {name}\n")
        }
    }
}

/// The line for standard error; no byte where all went well.
pub fn fault_text(alloc: Global, outcome: &Outcome) -> Result<Bytes, AllocError>
    ensures { IfOk result (λ text. text ≡ text_of outcome.now) }
{
    let text = text_of(alloc, outcome)?;
    Bytes::from_slice(alloc, text.as_bytes())
}
