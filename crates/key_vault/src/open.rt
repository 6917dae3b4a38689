// A vault made on a disk, and one found there.
ghost use Rattle.std.specs.Prelude.{◌≡◌, ◌≤◌, [], ◌∷◌, length, take, IsTrue, IfOk, IfErr, OnOk};
ghost use Rattle.vault_disk.specs.Disk.{Only};
ghost use Rattle.key_vault.specs.declared.limits.TheConstants.{MAX_VAULT_BYTES};
ghost use Rattle.key_vault.specs.Opening.{WritesNothing, FailsToRead, RefusesDisk, RefusesToMake, IsMade, IsOpened};
ghost use Rattle.key_vault.specs.Crash.{Rests};

use crate::fault::{OpenBack, OpenFault};
use crate::limits::MAX_VAULT_BYTES;
use crate::replay::replay;
use crate::vault::KeyVault;
use std::alloc::Global;
use vault_disk::VaultDisk;

/// Syncs the disk and reads it, as far as a vault's file may go.
fn read_file<D: VaultDisk>(alloc: Global, disk: &mut D) -> Result<Vec<u8>, OpenFault>
    ensures disk { WritesNothing D.state D.may_leave D.left_since disk.old disk.new }
    ensures bytes { IfOk result (λ bytes. IsTrue (D.state disk.old).tells → bytes.items ≡ take MAX_VAULT_BYTES (D.state disk.old).seen) }
    ensures durable { OnOk result (IsTrue (D.state disk.old).tells → Only (D.state disk.old).seen (D.may_leave disk.new)) }
    ensures short { IfOk result (λ bytes. length bytes.items ≤ MAX_VAULT_BYTES) }
    ensures refused { IfErr result (FailsToRead D.state D.may_leave D.left_since disk.old disk.new) }
{
    disk.ready(1)?;
    disk.sync()?;
    let size = disk.size()?;
    let mut bytes = vec![in alloc; 0; size.min(MAX_VAULT_BYTES) as usize]?;
    let count = disk.read(0, &mut bytes)?;
    bytes.truncate(count);
    Ok(bytes)
}

/// Writes the first gate, closed, on an empty disk.
fn start<D: VaultDisk>(disk: &mut D) -> Result<(), OpenFault>
    ensures tells { (D.state disk.new).tells ≡ (D.state disk.old).tells }
    ensures empty { OnOk result (IsTrue (D.state disk.old).tells → (D.state disk.old).seen ≡ []) }
    ensures rests { OnOk result (IsTrue (D.state disk.old).tells → Rests (D.state disk.new) (D.may_leave disk.new) 0 []) }
    ensures refused { IfErr result (RefusesToMake D.state D.may_leave D.left_since disk.old disk.new) }
{
    if disk.size()? != 0 {
        return Err(OpenFault::NotEmpty);
    }
    disk.ready(2)?;
    disk.write_at(0, &[0])?;
    disk.sync()?;
    Ok(())
}

impl<D: VaultDisk> KeyVault<D> {
    /// Makes a vault without a record on an empty disk.
    pub fn create(alloc: Global, mut disk: D) -> Result<KeyVault<D>, OpenBack<D>>
        ensures made { IfOk result (IsMade D.state D.may_leave D.left_since disk) }
        ensures refused { IfErr result (λ back. RefusesToMake D.state D.may_leave D.left_since disk back.disk back.fault) }
    {
        match start(&mut disk) {
            Ok(()) => Ok(KeyVault {
                alloc,
                disk,
                records: Vec::new(alloc),
                gate: 0,
                must_reopen: false,
            }),
            Err(fault) => Err(OpenBack { disk, fault }),
        }
    }

    /// Finds the vault on a disk, also on one that a crash left. It begins with a sync and writes nothing.
    pub fn open(alloc: Global, mut disk: D) -> Result<KeyVault<D>, OpenBack<D>>
        ensures opened { IfOk result (IsOpened D.state D.may_leave D.left_since disk) }
        ensures disk { IfErr result (λ back. WritesNothing D.state D.may_leave D.left_since disk back.disk) }
        ensures refused { IfErr result (λ back. RefusesDisk D.state D.may_leave D.left_since disk back.disk back.fault) }
    {
        let bytes = match read_file(alloc, &mut disk) {
            Ok(bytes) => bytes,
            Err(fault) => return Err(OpenBack { disk, fault }),
        };
        match replay(alloc, &bytes) {
            Ok((records, gate)) => Ok(KeyVault {
                alloc,
                disk,
                records,
                gate,
                must_reopen: false,
            }),
            Err(fault) => Err(OpenBack { disk, fault }),
        }
    }
}
