// Refusals.
use std::alloc::{AllocError, AllocFailed};

/// Why initialization data gives no key ids.
#[derive(Clone, Copy, Debug, PartialEq, Eq)]
pub enum InitFault {
    /// The bytes are outside the grammar of their type.
    Invalid,
    /// They name no key id.
    NoKids,
    OutOfMemory,
}

impl From<AllocError> for InitFault {
    ghost use Rattle.std.specs.Prelude.{◌≡◌};
    ghost use Rattle.init_data.specs.declared.fault.InitFault.TheVariants.{OutOfMemory};

    ghost from_gives = { λ _ e. e ≡ OutOfMemory };

    fn from(_: AllocError) -> InitFault {
        InitFault::OutOfMemory
    }
}

impl<T: Drop> From<AllocFailed<T>> for InitFault {
    ghost use Rattle.std.specs.Prelude.{◌≡◌};
    ghost use Rattle.init_data.specs.declared.fault.InitFault.TheVariants.{OutOfMemory};

    ghost from_gives = { λ _ e. e ≡ OutOfMemory };

    fn from(_: AllocFailed<T>) -> InitFault {
        InitFault::OutOfMemory
    }
}
