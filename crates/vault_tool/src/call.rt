// A call of an open vault.
ghost use Rattle.key_vault.specs.Crash.{HasGate};
ghost use Rattle.vault_tool.specs.Calls.{call_of};
ghost use Rattle.vault_tool.specs.Called.{Called};

use eme_types::Bytes;
use key_vault::{KeyVault, VaultDisk, VaultFault};

/// What is asked of a vault. The licence is at hand.
#[derive(Clone, Copy)]
pub enum VaultCall<'a> {
    Store { label: &'a [u8], licence: &'a [u8] },
    Load { label: &'a [u8] },
    Release { label: &'a [u8] },
    Ack { label: &'a [u8] },
}

/// Makes the call. Its text, if it gives one.
pub fn call_vault<D: VaultDisk>(
    vault: &mut KeyVault<D>,
    call: &VaultCall<'_>,
) -> Result<Option<Bytes>, VaultFault>
    requires { HasGate (D.state vault.old.disk) vault.old.gate vault.old.must_reopen }
    ensures { Called D.state D.may_leave D.left_since vault.old vault.new (call_of call.now) result }
{
    match call {
        VaultCall::Store { label, licence } => match vault.store(label, licence) {
            Ok(()) => Ok(None),
            Err(fault) => Err(fault),
        },
        VaultCall::Load { label } => match vault.load(label) {
            Ok(licence) => Ok(Some(licence)),
            // It makes no call of the disk.
            Err(VaultFault::Disk) => unreachable!(),
            Err(fault) => Err(fault),
        },
        VaultCall::Release { label } => match vault.release(label) {
            Ok(text) => Ok(Some(text)),
            Err(fault) => Err(fault),
        },
        VaultCall::Ack { label } => match vault.ack(label) {
            Ok(()) => Ok(None),
            Err(fault) => Err(fault),
        },
    }
}
