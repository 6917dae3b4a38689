// Why a vault refuses.

use std::alloc::AllocError;
use vault_disk::DiskFailed;

/// The first rule that a call of a vault breaks.
#[derive(Clone, Copy, Debug, PartialEq, Eq)]
pub enum VaultFault {
    /// The disk failed in an earlier call of this vault. It has to be opened again.
    MustReopen,
    /// The label is not 1 to 32 of `a` to `z`, `0` to `9` and `_`.
    Label,
    /// The licence is no key set.
    Licence,
    /// A record has the label.
    Exists,
    /// No record has the label.
    Unknown,
    /// The record of that label is being released.
    NotHeld,
    /// The record of that label is held.
    NotReleasing,
    /// The file would end past 16,777,216 bytes.
    Full,
    /// The disk failed.
    Disk,
    OutOfMemory,
}

/// Why a disk becomes no vault.
#[derive(Clone, Copy, Debug, PartialEq, Eq)]
pub enum OpenFault {
    /// A vault is made on an empty disk alone.
    NotEmpty,
    /// The gate at this place is open and no whole command that is accepted there stands behind it, or the file ends there.
    NotVault { place: u64 },
    /// The disk failed.
    Disk,
    OutOfMemory,
}

/// The disk that became no vault.
#[derive(Drop)]
pub struct OpenBack<D> {
    pub disk: D,
    pub fault: OpenFault,
}

impl From<AllocError> for VaultFault {
    ghost use Rattle.std.specs.Prelude.{◌≡◌};
    ghost use Rattle.key_vault.specs.declared.fault.VaultFault.TheVariants.{OutOfMemory};

    ghost from_gives = { λ _ e. e ≡ OutOfMemory };

    fn from(_: AllocError) -> VaultFault {
        VaultFault::OutOfMemory
    }
}

impl From<AllocError> for OpenFault {
    ghost use Rattle.std.specs.Prelude.{◌≡◌};
    ghost use Rattle.key_vault.specs.declared.fault.OpenFault.TheVariants.{OutOfMemory};

    ghost from_gives = { λ _ e. e ≡ OutOfMemory };

    fn from(_: AllocError) -> OpenFault {
        OpenFault::OutOfMemory
    }
}

impl From<DiskFailed> for OpenFault {
    ghost use Rattle.std.specs.Prelude.{◌≡◌};
    ghost use Rattle.key_vault.specs.declared.fault.OpenFault.TheVariants.{Disk};

    ghost from_gives = { λ _ e. e ≡ Disk };

    fn from(_: DiskFailed) -> OpenFault {
        OpenFault::Disk
    }
}
