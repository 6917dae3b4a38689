// A gate that is opened once what stands behind it is on the disk.
ghost use Rattle.std.specs.Prelude.{◌≡◌, ◌≢◌, ◌<◌, ◌≤◌, ◌+◌, ◌^◌, ◌++◌, ◌∷◌, ℕ, List, length, IsTrue, OnOk};
ghost use Rattle.vault_disk.specs.Disk.{HasCause, Only, LeavesOnly};
ghost use Rattle.key_vault.specs.Gates.{IsOpen, IsShutOrOpen};

use vault_disk::{DiskFailed, VaultDisk};

/// Writes the bytes behind the closed gate and syncs, then opens the gate and syncs.
pub fn commit<D: VaultDisk>(disk: &mut D, gate: u64, behind: &[u8]) -> Result<(), DiskFailed>
    requires room { length behind.now + 3 ≤ (D.state disk.old).spare }
    requires place { gate + 1 < 2 ^ 64 }
    requires inside { IsTrue (D.state disk.old).tells → gate < length (D.state disk.old).seen }
    ensures tells { (D.state disk.new).tells ≡ (D.state disk.old).tells }
    ensures written { OnOk result (IsTrue (D.state disk.old).tells → (front rest : List ℕ) (g : ℕ) → (D.state disk.old).seen ≡ front ++ g ∷ rest → length front ≡ gate
        → IsOpen front behind.now (D.state disk.new).seen × Only (D.state disk.new).seen (D.may_leave disk.new)) }
    // A crash at any moment leaves the gate shut, or open before all of the bytes.
    ensures any_moment { IsTrue (D.state disk.old).tells → (front rest : List ℕ) (g : ℕ) → g ≢ 1 → (D.state disk.old).seen ≡ front ++ g ∷ rest → length front ≡ gate
        → Only (D.state disk.old).seen (D.may_leave disk.old)
        → LeavesOnly (λ d. (D.state d).moment) D.left_since disk.old disk.new (IsShutOrOpen front behind.now) }
    ensures cause { HasCause (D.state disk.old) (D.state disk.new) result }
{
    disk.write_at(gate + 1, behind)?;
    disk.sync()?;
    disk.write_at(gate, &[1])?;
    disk.sync()?;
    Ok(())
}
