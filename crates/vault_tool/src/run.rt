// The top call.
ghost use Rattle.std.specs.Prelude.{◌≡◌, map, string_bytes};
ghost use Rattle.vault_tool.specs.Words.{command, asked_of};
ghost use Rattle.vault_tool.specs.Calls.{call_of};
ghost use Rattle.vault_tool.specs.Says.{CallSays, StoreSays, AskedSays, SaysOf, outcome_of};
ghost use Rattle.vault_tool.specs.Exact.{IsExact};

use crate::call::VaultCall;
use crate::licence::{end_outcome, read_licence};
use crate::outcome::VaultOutcome;
use crate::say::say_text;
use crate::serve::{call_on, create_on};
use crate::words::{VaultWords, read_words};
use eme_edge::{Shelf, ShelfFault};
use key_vault::VaultDisk;
use std::alloc::Global;

/// Does what the words ask of the vault on the disk: `create`, `store <label> <licence file>`, `load <label>`, `release <label>` or
/// `ack <label>`. The licence is read before the vault is opened. A text that the vault gives is said, with a line feed.
pub fn run_vault<D: VaultDisk, S: Shelf>(
    alloc: Global,
    words: &[String],
    disk: D,
    shelf: &mut S,
) -> (D, VaultOutcome)
    ensures says { SaysOf D.state D.may_leave D.left_since disk result.0 (S.state shelf.old) (S.state shelf.new) (command (map string_bytes words.now)) result.1 }
    ensures exact { IsExact D.state D.may_leave D.left_since disk result.0 (S.state shelf.old) (S.state shelf.new) (command (map string_bytes words.now)) result.1 }
{
    run_words(alloc, words, disk, shelf)
}

fn run_words<D: VaultDisk, S: Shelf>(
    alloc: Global,
    words: &[String],
    disk: D,
    shelf: &mut S,
) -> (D, VaultOutcome)
    ensures { SaysOf D.state D.may_leave D.left_since disk result.0 (S.state shelf.old) (S.state shelf.new) (command (map string_bytes words.now)) result.1 }
{
    match read_words(words) {
        Err(fault) => (disk, VaultOutcome::Usage(fault)),
        Ok(asked) => run_asked(alloc, &asked, disk, shelf),
    }
}

fn run_asked<D: VaultDisk, S: Shelf>(
    alloc: Global,
    asked: &VaultWords<'_>,
    disk: D,
    shelf: &mut S,
) -> (D, VaultOutcome)
    ensures { AskedSays D.state D.may_leave D.left_since disk result.0 (S.state shelf.old) (S.state shelf.new) (asked_of asked.now) result.1 }
{
    match asked {
        VaultWords::Create => create_on(alloc, disk),
        VaultWords::Store { label, licence } => run_store(alloc, label, licence, disk, shelf),
        VaultWords::Load { label } => {
            let label = label.as_bytes();
            run_call(alloc, &VaultCall::Load { label }, disk, shelf)
        }
        VaultWords::Release { label } => {
            let label = label.as_bytes();
            run_call(alloc, &VaultCall::Release { label }, disk, shelf)
        }
        VaultWords::Ack { label } => {
            let label = label.as_bytes();
            run_call(alloc, &VaultCall::Ack { label }, disk, shelf)
        }
    }
}

/// Reads the licence, and stores it.
fn run_store<D: VaultDisk, S: Shelf>(
    alloc: Global,
    label: &str,
    name: &str,
    disk: D,
    shelf: &mut S,
) -> (D, VaultOutcome)
    ensures { StoreSays D.state D.may_leave D.left_since disk result.0 (S.state shelf.old) (S.state shelf.new) label.now name.now result.1 }
{
    match read_licence(alloc, shelf, name) {
        Err(end) => (disk, end_outcome(end)),
        Ok(licence) => {
            let (label, licence) = (label.as_bytes(), licence.as_slice());
            run_call(alloc, &VaultCall::Store { label, licence }, disk, shelf)
        }
    }
}

/// Makes the call, and says its text.
fn run_call<D: VaultDisk, S: Shelf>(
    alloc: Global,
    call: &VaultCall<'_>,
    disk: D,
    shelf: &mut S,
) -> (D, VaultOutcome)
    ensures says { CallSays D.state D.may_leave D.left_since disk result.0 (S.state shelf.old) (S.state shelf.new) (call_of call.now) result.1 }
    ensures unread { (S.state shelf.new).read_faults ≡ (S.state shelf.old).read_faults }
{
    let (disk, answer) = call_on(alloc, call, disk);
    match answer {
        Ok(text) => (disk, outcome_of(say_text(shelf, &text))),
        Err(outcome) => (disk, outcome),
    }
}

/// What is answered once the text was said, or where saying stopped.
fn outcome_of(said: Result<(), ShelfFault>) -> VaultOutcome
    ensures { result ≡ outcome_of said }
{
    match said {
        Ok(()) => VaultOutcome::Done,
        Err(ShelfFault::Failed) => VaultOutcome::WriteFault,
        Err(ShelfFault::OutOfMemory) => VaultOutcome::OutOfMemory,
    }
}
