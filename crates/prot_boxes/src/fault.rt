// Why a protection box is refused.
use iso_boxes::BoxFault;
use std::alloc::AllocError;

/// The first broken rule of a protection box.
#[derive(Clone, Copy, Debug, PartialEq, Eq)]
pub enum ProtKind {
    /// A header or a field ends behind its box.
    Short,
    SizeTooSmall,
    PastEnd,
    /// A version of `sgpd` above 1.
    Version,
    /// isProtected is neither 0 nor 1.
    IsProtected,
    /// An IV size that is not among 0, 8 and 16, or does not suit the scheme.
    IvSize,
    /// A pattern that encrypts nothing.
    Pattern,
    /// No scheme, or another one than `cenc` and `cbcs`.
    Scheme,
    NoTenc,
    /// Another count than the number of samples.
    CountDiffers,
    OutOfMemory,
}

/// A broken rule and the place of the first byte of the box that breaks it.
#[derive(Clone, Copy, Debug, PartialEq, Eq)]
pub struct ProtFault {
    pub place: u64,
    pub kind: ProtKind,
}

impl From<AllocError> for ProtKind {
    ghost use Rattle.std.specs.Prelude.{◌≡◌};
    ghost use Rattle.prot_boxes.specs.declared.fault.ProtKind.TheVariants.{OutOfMemory};

    ghost from_gives = { λ _ e. e ≡ OutOfMemory };

    fn from(_: AllocError) -> ProtKind {
        ProtKind::OutOfMemory
    }
}

impl From<BoxFault> for ProtFault {
    ghost use Rattle.std.specs.Prelude.{◌≡◌};
    ghost use Rattle.prot_boxes.specs.Answers.{header_fault};

    ghost from_gives = { λ f e. e ≡ header_fault f };

    fn from(fault: BoxFault) -> ProtFault {
        match fault {
            BoxFault::Short { place } => ProtFault {
                place,
                kind: ProtKind::Short,
            },
            BoxFault::SizeTooSmall { place } => ProtFault {
                place,
                kind: ProtKind::SizeTooSmall,
            },
            BoxFault::PastEnd { place } => ProtFault {
                place,
                kind: ProtKind::PastEnd,
            },
        }
    }
}
