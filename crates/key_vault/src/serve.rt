// Commands given to a vault, one after the other.
ghost use Rattle.std.specs.Prelude.{◌≡◌, [], ◌∷◌, Ok, Err};
ghost use Rattle.key_vault.specs.Crash.{HasGate, Commits};
ghost use Rattle.key_vault.specs.Served.{Serves};
ghost use Rattle.key_vault.specs.Serving.{passed};

use crate::command::Command;
use crate::fault::VaultFault;
use crate::vault::KeyVault;
use vault_disk::VaultDisk;

/// A refusal by a rule is passed over.
fn passed(outcome: Result<(), VaultFault>) -> Result<(), VaultFault>
    ensures { result ≡ passed outcome }
{
    match outcome {
        Ok(()) => Ok(()),
        Err(VaultFault::MustReopen) => Err(VaultFault::MustReopen),
        Err(VaultFault::Disk) => Err(VaultFault::Disk),
        Err(VaultFault::OutOfMemory) => Err(VaultFault::OutOfMemory),
        Err(_) => Ok(()),
    }
}

impl<D: VaultDisk> KeyVault<D> {
    /// Gives the vault these commands, in order. One that a rule refuses is passed over; want of memory and the disk's
    /// failure end it.
    pub fn serve_all(&mut self, commands: &[Command]) -> Result<(), VaultFault>
        requires { HasGate (D.state self.old.disk) self.old.gate self.old.must_reopen }
        ensures { Serves D.state D.may_leave D.left_since self.old self.new commands.now result }
    {
        for command in commands {
            self.offer(command)?;
        }
        Ok(())
    }

    fn offer(&mut self, command: &Command) -> Result<(), VaultFault>
        requires { HasGate (D.state self.old.disk) self.old.gate self.old.must_reopen }
        ensures { Serves D.state D.may_leave D.left_since self.old self.new (command.now ∷ []) result }
    {
        passed(self.give(command))
    }

    fn give(&mut self, command: &Command) -> Result<(), VaultFault>
        requires { HasGate (D.state self.old.disk) self.old.gate self.old.must_reopen }
        ensures { Commits D.state D.may_leave D.left_since self.old self.new command.now result }
    {
        match command {
            Command::Store { label, licence } => self.store(label.as_slice(), licence.as_slice()),
            Command::Release { label } => match self.release(label.as_slice()) {
                Ok(_) => Ok(()),
                Err(fault) => Err(fault),
            },
            Command::Ack { label } => self.ack(label.as_slice()),
        }
    }
}
