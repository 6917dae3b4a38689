//! The player: `bittorgas play <script> <media> <prefix> [--workers <n>]` with n from 0 to 16 and 4 where it is not named,
//! `bittorgas inspect <media>`, `bittorgas request <type> <hex>` and `bittorgas demo <n>`.
#![tactic(auto)]

use eme_edge::HostShelf;
use player_cli::{FreeGate, Outcome, fault_text, run_player, status};
use std::env::args;
use std::io;
use std::io::{ErrorKind, Write};
use std::process::ExitCode;
use std::rt::Env;

/// The words of the command line, without the program's name.
fn words<R: Env + AllocGlobal>(rt: &R) -> io::Result<Vec<String>> {
    let mut words = Vec::new(rt.alloc());
    for word in args(rt)?.skip(1) {
        words.push(word)?;
    }
    Ok(words)
}

fn main(rt: HostRuntime) -> ExitCode {
    let outcome = match words(&rt) {
        Ok(words) => {
            let mut shelf = HostShelf::new(&rt);
            run_player(&rt, rt.alloc(), words.as_slice(), &mut shelf, &FreeGate)
        }
        Err(e) => {
            if e.kind() == ErrorKind::OutOfMemory {
                Outcome::OutOfMemory
            } else {
                Outcome::ReadFault
            }
        }
    };
    if let Ok(text) = fault_text(rt.alloc(), &outcome) {
        let _ = rt.stderr().write_all(text.as_slice());
    }
    ExitCode::from(status(&outcome))
}
