// The line of an entry.
ghost use Rattle.std.specs.Prelude.{◌≡◌, ◌<◌, ◌-◌, ◌^◌, ◌+◌, IfOk, string_bytes};
ghost use Rattle.output_order.specs.Log.{entry_line};

use crate::names::{hex_text, verdict_name};
use eme_types::Entry;
use std::alloc::{AllocError, Global};

/// The line of an entry at its place, where `fed` fragments were fed before.
pub fn entry_text(alloc: Global, place: u64, fed: u64, entry: &Entry) -> Result<String, AllocError>
    requires { fed < 2 ^ 64 - 1 }
    ensures { IfOk result (λ s. string_bytes s ≡ entry_line place fed entry.now) }
{
    match entry {
        Entry::Call {
            lane,
            line,
            call: _,
        } => format!(in alloc; "{place} call {lane} {line}\n"),
        Entry::Job => format!(in alloc; "{place} job\n"),
        Entry::Task => format!(in alloc; "{place} task\n"),
        Entry::Tick { line, moment } => format!(in alloc; "{place} tick {line} {moment}\n"),
        Entry::Feed {
            line,
            fragment: None,
        } => format!(in alloc; "{place} feed {line} -\n"),
        Entry::Feed {
            line,
            fragment: Some(_),
        } => {
            let number = fed + 1;
            format!(in alloc; "{place} feed {line} {number}\n")
        }
        Entry::Evict { line, label: _ } => format!(in alloc; "{place} evict {line}\n"),
        Entry::Claim {
            worker,
            track,
            index,
            session,
            kid,
        } => {
            let kid = hex_text(alloc, kid.bytes())?;
            format!(in alloc; "{place} claim {worker} {track} {index} {session} {kid}\n")
        }
        Entry::Deliver {
            place: claim,
            verdict,
        } => {
            let verdict = verdict_name(*verdict);
            format!(in alloc; "{place} deliver {claim} {verdict}\n")
        }
        Entry::GiveUp { place: claim } => format!(in alloc; "{place} giveup {claim}\n"),
        Entry::Publish {
            track,
            index,
            place: claim,
        } => format!(in alloc; "{place} publish {track} {index} {claim}\n"),
        Entry::PassClear { track, index } => format!(in alloc; "{place} clear {track} {index}\n"),
        Entry::WaitForKey { track } => format!(in alloc; "{place} wait {track}\n"),
        Entry::Settle { line } => format!(in alloc; "{place} settle {line}\n"),
    }
}
