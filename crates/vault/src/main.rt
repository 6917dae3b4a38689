//! The licence vault: `vault <file> create`, `vault <file> store <label> <licence file>`, `vault <file> load <label>`,
//! `vault <file> release <label>` and `vault <file> ack <label>`. It ends with the status of the outcome, and prints no text of a fault.
#![tactic(auto)]

use eme_edge::HostShelf;
use std::env::args;
use std::fs::{File, Files};
use std::io;
use std::io::ErrorKind;
use std::process::ExitCode;
use std::rt::Env;
use vault_disk::HostDisk;
use vault_tool::{UsageFault, UsageKind, VaultOutcome, run_vault, status};

/// The words of the command line, without the program's name.
fn words<R: Env + AllocGlobal>(rt: &R) -> io::Result<Vec<String>> {
    let mut words = Vec::new(rt.alloc());
    for word in args(rt)?.skip(1) {
        words.push(word)?;
    }
    Ok(words)
}

/// The first word names the file; the others say what to do with its vault.
fn run<R: Files<File = File> + Print + AllocGlobal>(rt: &R, words: &[String]) -> VaultOutcome {
    let place = 1;
    let Some((name, rest)) = words.split_first() else {
        let kind = UsageKind::MissingWord;
        return VaultOutcome::Usage(UsageFault { place, kind });
    };
    if name.is_empty() {
        let kind = UsageKind::EmptyName;
        return VaultOutcome::Usage(UsageFault { place, kind });
    }
    let mut shelf = HostShelf::new(rt);
    let disk = HostDisk::new(rt, name.as_str());
    let (_, outcome) = run_vault(rt.alloc(), rest, disk, &mut shelf);
    outcome
}

fn main(rt: HostRuntime) -> ExitCode {
    let outcome = match words(&rt) {
        Ok(words) => run(&rt, words.as_slice()),
        Err(e) => {
            if e.kind() == ErrorKind::OutOfMemory {
                VaultOutcome::OutOfMemory
            } else {
                VaultOutcome::ReadFault
            }
        }
    };
    ExitCode::from(status(&outcome))
}
