// Why media are not sealed.
use std::alloc::AllocError;

/// Why media are not sealed.
#[derive(Clone, Copy, Debug, PartialEq, Eq)]
pub enum SealFault {
    /// A fragment, counted from 1, has initialization data.
    HasInit { fragment: u32 },
    /// A fragment, counted from 1, has a protected sample of this track id.
    Protected { fragment: u32, track: u32 },
    /// The file would have more than 67,108,864 bytes.
    TooLarge,
    OutOfMemory,
}

impl From<AllocError> for SealFault {
    ghost use Rattle.std.specs.Prelude.{◌≡◌};
    ghost use Rattle.seal_media.specs.declared.fault.SealFault.TheVariants.{OutOfMemory};

    ghost from_gives = { λ _ e. e ≡ OutOfMemory };

    fn from(_: AllocError) -> SealFault {
        SealFault::OutOfMemory
    }
}
