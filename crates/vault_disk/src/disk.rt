// A disk, by what it shows of itself and what a crash may leave of it.
ghost use Rattle.std.specs.Prelude.{◌≡◌, ◌≤◌, ◌+◌, List, ℕ, length, IfOk, OnOk, OnErr, IsTrue};
ghost use Rattle.vault_disk.specs.Disk.{DiskState, HasCause, ReadsAt, Holds, Torn, Follows, Only, Unmoved, Elapses};

use std::alloc::AllocError;

/// The disk did not do what a call asked.
#[derive(Clone, Copy, Debug, PartialEq, Eq)]
pub struct DiskFailed;

pub trait VaultDisk {
    ghost use Rattle.vault_disk.specs.Disk.{DiskState};

    /// What a read gives where the disk tells it, the room made, the faults so far, and the moment.
    ghost state: { Self → DiskState };

    /// What a crash at this moment may leave, where the disk tells it.
    ghost may_leave: { Self → List ℕ → Type 0 };

    /// What a crash at some moment from that one on might have left, during a call or between two.
    ghost left_since: { Self → ℕ → List ℕ → Type 0 };

    /// Makes room for `n` bytes and syncs.
    fn ready(&mut self, n: u64) -> Result<(), AllocError>
        ensures room { OnOk result (n ≤ (state self.new).spare) }
        ensures no_less { (state self.old).spare ≤ (state self.new).spare }
        ensures err { OnErr result ((state self.new).spare ≡ (state self.old).spare) }
        ensures others { state self.new ≡ record (state self.old) { spare = (state self.new).spare } }
        ensures crash { Unmoved (may_leave self.old) (may_leave self.new) (left_since self.old) (left_since self.new) };

    /// The number of bytes.
    fn size(&mut self) -> Result<u64, DiskFailed>
        ensures length { IfOk result (λ n. IsTrue (state self.old).tells → n ≡ length (state self.old).seen) }
        ensures others { state self.new ≡ record (state self.old) { faults = (state self.new).faults } }
        ensures crash { Unmoved (may_leave self.old) (may_leave self.new) (left_since self.old) (left_since self.new) }
        ensures cause { HasCause (state self.old) (state self.new) result };

    /// Fills the front of `buf` with the bytes from `place`.
    fn read(&mut self, place: u64, buf: &mut [u8]) -> Result<usize, DiskFailed>
        ensures within { IfOk result (λ n. n ≤ length buf.new) }
        ensures bytes { IfOk result (λ n. IsTrue (state self.old).tells → ReadsAt (state self.old).seen place n buf.new) }
        ensures others { state self.new ≡ record (state self.old) { faults = (state self.new).faults } }
        ensures crash { Unmoved (may_leave self.old) (may_leave self.new) (left_since self.old) (left_since self.new) }
        ensures cause { HasCause (state self.old) (state self.new) result };

    /// Writes over what is there, and past the end. Until a sync a crash may leave any bytes in the range.
    fn write_at(&mut self, place: u64, bytes: &[u8]) -> Result<(), DiskFailed>
        requires room { length bytes.now ≤ (state self.old).spare }
        requires inside { IsTrue (state self.old).tells → place ≤ length (state self.old).seen }
        ensures tells { (state self.new).tells ≡ (state self.old).tells }
        ensures spare { (state self.old).spare ≤ (state self.new).spare + length bytes.now }
        ensures written { OnOk result (IsTrue (state self.old).tells → Holds (state self.old).seen place bytes.now (state self.new).seen) }
        ensures torn { OnErr result (IsTrue (state self.old).tells → Torn place (length bytes.now) (state self.old).seen (state self.new).seen) }
        ensures crash { IsTrue (state self.old).tells → Follows (Torn place (length bytes.now)) (may_leave self.old) (may_leave self.new) }
        ensures time { IsTrue (state self.old).tells → Elapses (state self.old).moment (state self.new).moment (left_since self.old) (left_since self.new) (may_leave self.new) }
        ensures cause { HasCause (state self.old) (state self.new) result };

    /// After it, a crash leaves what a read gives.
    fn sync(&mut self) -> Result<(), DiskFailed>
        requires { 1 ≤ (state self.old).spare }
        ensures tells { (state self.new).tells ≡ (state self.old).tells }
        ensures spare { (state self.old).spare ≤ (state self.new).spare + 1 }
        ensures seen { (state self.new).seen ≡ (state self.old).seen }
        ensures durable { OnOk result (IsTrue (state self.old).tells → Only (state self.old).seen (may_leave self.new)) }
        ensures crash { IsTrue (state self.old).tells → (c : List ℕ) → may_leave self.new c → may_leave self.old c }
        ensures time { IsTrue (state self.old).tells → Elapses (state self.old).moment (state self.new).moment (left_since self.old) (left_since self.new) (may_leave self.new) }
        ensures cause { HasCause (state self.old) (state self.new) result };

    /// This moment is one of those since an earlier one.
    ghost counts_now: { (disk : Self) (t : ℕ) (c : List ℕ) → t ≤ (state disk).moment → may_leave disk c → left_since disk t c };

    /// Since this moment there is no other.
    ghost only_now: { (disk : Self) (c : List ℕ) → left_since disk (state disk).moment c → may_leave disk c };

    /// What a read gives is one of the contents that a crash may leave.
    ghost reads_left: { (disk : Self) → IsTrue (state disk).tells → may_leave disk (state disk).seen };
}
