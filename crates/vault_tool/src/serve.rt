// A vault on a disk that is made, or opened for one call.
ghost use Rattle.std.specs.Prelude.{◌≡◌};
ghost use Rattle.vault_tool.specs.Calls.{call_of};
ghost use Rattle.vault_tool.specs.Accepted.{AnswersWith, CreatesWith};
ghost use Rattle.vault_tool.specs.Called.{Called};
ghost use Rattle.vault_tool.specs.Outcomes.{answer_of};
ghost use Rattle.key_vault.specs.Opening.{IsOpened};
ghost use Rattle.key_vault.specs.Crash.{HasGate};

use crate::call::{VaultCall, call_vault};
use crate::outcome::{VaultOutcome, fault_outcome, open_outcome};
use eme_types::Bytes;
use key_vault::{KeyVault, OpenBack, VaultDisk, VaultFault};
use std::alloc::Global;

/// Makes a vault on an empty disk.
pub fn create_on<D: VaultDisk>(alloc: Global, disk: D) -> (D, VaultOutcome)
    ensures { CreatesWith D.state D.may_leave D.left_since disk result.0 result.1 }
{
    match KeyVault::create(alloc, disk) {
        Ok(vault) => (vault.into_disk(), VaultOutcome::Done),
        Err(OpenBack { disk, fault }) => (disk, open_outcome(fault)),
    }
}

fn answer_of(answer: Result<Option<Bytes>, VaultFault>) -> Result<Option<Bytes>, VaultOutcome>
    ensures { result ≡ answer_of answer }
{
    match answer {
        Ok(text) => Ok(text),
        Err(fault) => Err(fault_outcome(fault)),
    }
}

/// Opens the vault on the disk and makes the call.
pub fn call_on<D: VaultDisk>(
    alloc: Global,
    call: &VaultCall<'_>,
    disk: D,
) -> (D, Result<Option<Bytes>, VaultOutcome>)
    ensures { AnswersWith D.state D.may_leave D.left_since disk result.0 (call_of call.now) result.1 }
{
    match KeyVault::open(alloc, disk) {
        Ok(opened) => {
            let mut vault = opened;
            let answer = answer_of(call_vault(&mut vault, call));
            (vault.into_disk(), answer)
        }
        Err(OpenBack { disk, fault }) => (disk, Err(open_outcome(fault))),
    }
}
