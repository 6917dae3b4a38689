// Why a step is refused.
use std::alloc::AllocError;

/// Why no job or task was run.
#[derive(Clone, Copy, Debug, PartialEq, Eq)]
pub enum StepFault {
    /// Nothing is queued.
    Empty,
    OutOfMemory,
}

impl From<AllocError> for StepFault {
    ghost use Rattle.std.specs.Prelude.{◌≡◌};
    ghost use Rattle.key_sessions.specs.declared.fault.StepFault.TheVariants.{OutOfMemory};

    ghost from_gives = { λ _ e. e ≡ OutOfMemory };

    fn from(_e: AllocError) -> StepFault {
        StepFault::OutOfMemory
    }
}
