// A vault on a disk, and the calls that change it.
ghost use Rattle.std.specs.Prelude.{◌≡◌, ◌≢◌, ◌<◌, ◌≤◌, ◌+◌, ◌^◌, [], ◌∷◌, ◌++◌, List, ℕ, length, false, IsTrue, IfOk, IfErr, OnOk, OnErr, IsOk, IsErrOf};
ghost use Rattle.vault_disk.specs.Disk.{DiskState};
ghost use Rattle.key_vault.specs.declared.command.Command.{Command};
ghost use Rattle.key_vault.specs.declared.command.Command.TheVariants.{Store, Release, Ack};
ghost use Rattle.key_vault.specs.declared.fault.VaultFault.TheVariants.{MustReopen, Disk};
ghost use Rattle.key_vault.specs.declared.limits.TheConstants.{MAX_VAULT_BYTES};
ghost use Rattle.key_vault.specs.Bytes.{behind_gate};
ghost use Rattle.key_vault.specs.Records.{kids_in};
ghost use Rattle.key_vault.specs.Rules.{loaded, allowed, Obeys};
ghost use Rattle.key_vault.specs.Texts.{release_text};
ghost use Rattle.key_vault.specs.Crash.{HasGate, Answers, SameDisk, Kept, Prepared, Appended, Commits};

use crate::commit::commit;
use crate::fault::VaultFault;
use crate::frame::behind_gate;
use crate::kids::release_text;
use crate::records::{
    add_held, check_ack, check_store, freed, loaded, make_releasing, put_releasing, remove,
};
use crate::stored::VaultRecord;
use eme_types::Bytes;
use std::alloc::{AllocError, Global};
use vault_disk::VaultDisk;

/// The records in memory, and the place of the closed gate at the end of the file.
#[derive(Drop)]
pub struct KeyVault<D> {
    pub(crate) alloc: Global,
    pub(crate) disk: D,
    pub(crate) records: Vec<VaultRecord>,
    pub(crate) gate: u64,
    pub(crate) must_reopen: bool,
}

/// Makes room on the disk for a command and the opening of its gate.
fn make_room<D: VaultDisk>(disk: &mut D, behind: &Bytes) -> Result<(), AllocError>
    requires { length behind.now < 2 ^ 32 }
    ensures room { OnOk result (length behind.now + 3 ≤ (D.state disk.new).spare) }
    ensures disk { SameDisk D.state D.may_leave D.left_since disk.old disk.new }
{
    disk.ready(behind.len() as u64 + 3)
}

impl<D: VaultDisk> KeyVault<D> {
    /// Keeps a licence under a label.
    pub fn store(&mut self, label: &[u8], licence: &[u8]) -> Result<(), VaultFault>
        requires { HasGate (D.state self.old.disk) self.old.gate self.old.must_reopen }
        ensures { Commits D.state D.may_leave D.left_since self.old self.new (Store label.now licence.now) result }
    {
        if self.must_reopen {
            return Err(VaultFault::MustReopen);
        }
        let behind = self.prepare_store(label, licence)?;
        self.append(behind.as_slice())
    }

    /// The licence that is kept under a label.
    pub fn load(&self, label: &[u8]) -> Result<Bytes, VaultFault>
        ensures ok { IfOk result (λ licence. loaded self.now.records.items label.now ≡ Ok licence) }
        ensures answer { Answers self.now.must_reopen (loaded self.now.records.items label.now) result }
        ensures no_disk { IsErrOf result Disk → ⊥ }
    {
        if self.must_reopen {
            return Err(VaultFault::MustReopen);
        }
        let licence = loaded(&self.records, label)?;
        Ok(Bytes::from_slice(self.alloc, licence)?)
    }

    /// Lets a licence go: from now on it is kept no more, and its key ids are told until the release is acknowledged.
    pub fn release(&mut self, label: &[u8]) -> Result<Bytes, VaultFault>
        requires { HasGate (D.state self.old.disk) self.old.gate self.old.must_reopen }
        ensures commits { Commits D.state D.may_leave D.left_since self.old self.new (Release label.now) result }
        ensures text { IfOk result (λ text. IfOk (loaded self.old.records.items label.now) (λ licence. text ≡ release_text (kids_in licence))) }
    {
        if self.must_reopen {
            return Err(VaultFault::MustReopen);
        }
        let (behind, text) = self.prepare_release(label)?;
        self.append(behind.as_slice())?;
        Ok(text)
    }

    /// Forgets a licence whose release was acknowledged.
    pub fn ack(&mut self, label: &[u8]) -> Result<(), VaultFault>
        requires { HasGate (D.state self.old.disk) self.old.gate self.old.must_reopen }
        ensures { Commits D.state D.may_leave D.left_since self.old self.new (Ack label.now) result }
    {
        if self.must_reopen {
            return Err(VaultFault::MustReopen);
        }
        let behind = self.prepare_ack(label)?;
        self.append(behind.as_slice())
    }

    /// The vault's disk.
    pub fn disk(&self) -> &D
        ensures { result.now ≡ self.now.disk }
    {
        &self.disk
    }

    /// The vault's disk, without the vault.
    pub fn into_disk(self) -> D
        ensures { result ≡ self.disk }
    {
        let KeyVault {
            alloc: _,
            disk,
            records: _,
            gate: _,
            must_reopen: _,
        } = self;
        disk
    }

    fn prepare_store(&mut self, label: &[u8], licence: &[u8]) -> Result<Bytes, VaultFault>
        requires { self.old.gate + 1 ≤ MAX_VAULT_BYTES }
        ensures ok { IfOk result (λ behind. Prepared D.state D.may_leave D.left_since self.old self.new (Store label.now licence.now) behind) }
        ensures err { OnErr result (Kept D.state D.may_leave D.left_since self.old self.new) }
        ensures follows { Obeys (allowed (Store label.now licence.now) self.old.records.items self.old.gate) result }
    {
        check_store(self.alloc, &self.records, self.gate, label, licence)?;
        let behind = behind_gate(self.alloc, 1, label, licence)?;
        make_room(&mut self.disk, &behind)?;
        add_held(self.alloc, &mut self.records, label, licence)?;
        Ok(behind)
    }

    fn prepare_release(&mut self, label: &[u8]) -> Result<(Bytes, Bytes), VaultFault>
        requires { self.old.gate + 1 ≤ MAX_VAULT_BYTES }
        ensures ok { IfOk result (λ made. Prepared D.state D.may_leave D.left_since self.old self.new (Release label.now) made.0) }
        ensures text { IfOk result (λ made. IfOk (loaded self.old.records.items label.now) (λ licence. made.1 ≡ release_text (kids_in licence))) }
        ensures err { OnErr result (Kept D.state D.may_leave D.left_since self.old self.new) }
        ensures follows { Obeys (allowed (Release label.now) self.old.records.items self.old.gate) result }
    {
        let kids = freed(self.alloc, &self.records, self.gate, label)?;
        let text = release_text(self.alloc, kids.as_slice())?;
        let entry = make_releasing(self.alloc, label, kids)?;
        let behind = behind_gate(self.alloc, 2, label, &[])?;
        make_room(&mut self.disk, &behind)?;
        put_releasing(&mut self.records, label, entry);
        Ok((behind, text))
    }

    fn prepare_ack(&mut self, label: &[u8]) -> Result<Bytes, VaultFault>
        requires { self.old.gate + 1 ≤ MAX_VAULT_BYTES }
        ensures ok { IfOk result (λ behind. Prepared D.state D.may_leave D.left_since self.old self.new (Ack label.now) behind) }
        ensures err { OnErr result (Kept D.state D.may_leave D.left_since self.old self.new) }
        ensures follows { Obeys (allowed (Ack label.now) self.old.records.items self.old.gate) result }
    {
        check_ack(&self.records, self.gate, label)?;
        let behind = behind_gate(self.alloc, 3, label, &[])?;
        make_room(&mut self.disk, &behind)?;
        remove(&mut self.records, label);
        Ok(behind)
    }

    /// Writes a command behind the gate, and opens the gate.
    fn append(&mut self, behind: &[u8]) -> Result<(), VaultFault>
        requires gate { HasGate (D.state self.old.disk) self.old.gate self.old.must_reopen }
        requires opened { self.old.must_reopen ≡ false }
        requires room { length behind.now + 3 ≤ (D.state self.old.disk).spare }
        requires fits { self.old.gate + length behind.now + 1 ≤ MAX_VAULT_BYTES }
        ensures { Appended D.state D.may_leave D.left_since self.old self.new behind.now result }
    {
        match commit(&mut self.disk, self.gate, behind) {
            Ok(()) => {
                self.gate += behind.len() as u64;
                Ok(())
            }
            Err(_) => {
                self.must_reopen = true;
                Err(VaultFault::Disk)
            }
        }
    }
}
