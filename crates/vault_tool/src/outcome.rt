// How the tool ends, and its exit status.
ghost use Rattle.std.specs.Prelude.{◌≡◌};
ghost use Rattle.vault_tool.specs.Outcomes.{status_of, open_outcome, fault_outcome};

use eme_edge::UsageFault;
use key_vault::{OpenFault, VaultFault};

/// The rule that a command breaks.
#[derive(Clone, Copy, Debug, PartialEq, Eq)]
pub enum VaultKind {
    /// A vault is made on an empty disk alone.
    NotEmpty,
    /// The label is not 1 to 32 of `a` to `z`, `0` to `9` and `_`.
    Label,
    /// The licence is no key set.
    Licence,
    /// A record has the label.
    Exists,
    /// No record has the label.
    Unknown,
    /// The record of that label is being released.
    NotHeld,
    /// The record of that label is held.
    NotReleasing,
    /// The file would end past 16,777,216 bytes.
    Full,
}

/// What `run_vault` answers.
#[derive(Clone, Copy, Debug, PartialEq, Eq)]
pub enum VaultOutcome {
    /// The command was accepted, and its text is said.
    Done,
    /// The words are outside their grammar; disk and shelf were not touched.
    Usage(UsageFault),
    /// The first rule that the command breaks; vault and shelf are as before.
    Refused(VaultKind),
    /// The gate at this place of the file is open and no whole command that is accepted there stands behind it, or the file ends
    /// there; vault and shelf are as before.
    NotVault { place: u64 },
    /// The disk failed; nothing was said. The vault is as before or has the command.
    DiskFault,
    /// The licence file has more than 65,536 bytes; the disk was not touched.
    TooLarge,
    /// A read of the licence file failed, or it is not there; the disk was not touched.
    ReadFault,
    /// Saying failed; the command was accepted, and a front of its text may be said.
    WriteFault,
    /// As before the call, or as after `WriteFault`.
    OutOfMemory,
}

/// The exit status of the program.
pub fn status(outcome: &VaultOutcome) -> u8
    ensures { result ≡ status_of outcome.now }
{
    match outcome {
        VaultOutcome::Done => 0,
        VaultOutcome::Usage(_) => 2,
        VaultOutcome::Refused(_) => 3,
        VaultOutcome::NotVault { place: _ } => 4,
        VaultOutcome::DiskFault => 5,
        VaultOutcome::TooLarge => 6,
        VaultOutcome::ReadFault => 7,
        VaultOutcome::WriteFault => 8,
        VaultOutcome::OutOfMemory => 9,
    }
}

/// What is answered where the disk became no vault.
pub fn open_outcome(fault: OpenFault) -> VaultOutcome
    ensures { result ≡ open_outcome fault }
{
    match fault {
        OpenFault::NotEmpty => VaultOutcome::Refused(VaultKind::NotEmpty),
        OpenFault::NotVault { place } => VaultOutcome::NotVault { place },
        OpenFault::Disk => VaultOutcome::DiskFault,
        OpenFault::OutOfMemory => VaultOutcome::OutOfMemory,
    }
}

/// What is answered where the vault refuses.
pub fn fault_outcome(fault: VaultFault) -> VaultOutcome
    ensures { result ≡ fault_outcome fault }
{
    match fault {
        VaultFault::MustReopen => VaultOutcome::DiskFault,
        VaultFault::Label => VaultOutcome::Refused(VaultKind::Label),
        VaultFault::Licence => VaultOutcome::Refused(VaultKind::Licence),
        VaultFault::Exists => VaultOutcome::Refused(VaultKind::Exists),
        VaultFault::Unknown => VaultOutcome::Refused(VaultKind::Unknown),
        VaultFault::NotHeld => VaultOutcome::Refused(VaultKind::NotHeld),
        VaultFault::NotReleasing => VaultOutcome::Refused(VaultKind::NotReleasing),
        VaultFault::Full => VaultOutcome::Refused(VaultKind::Full),
        VaultFault::Disk => VaultOutcome::DiskFault,
        VaultFault::OutOfMemory => VaultOutcome::OutOfMemory,
    }
}
