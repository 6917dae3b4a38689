// Why a movie or a movie fragment is refused.
use pattern_map::SampleFault;
use prot_boxes::{ProtFault, ProtKind};
use std::alloc::AllocError;

/// The first broken rule of a movie's protection or of a movie fragment.
#[derive(Clone, Copy, Debug, PartialEq, Eq)]
pub enum AuxKind {
    /// A track fragment of no track of the movie.
    UnknownTrack,
    /// A track without `trex`.
    NoTrex,
    /// A description index that names no sample entry.
    Description,
    /// More samples than the limits leave.
    TooManySamples,
    /// More bytes than the limits leave.
    TooManyBytes,
    /// A sample that is not whole inside the file.
    DataPastEnd,
    /// A group index that names no entry.
    GroupIndex,
    /// No scheme that is known, or a protected group on a clear sample entry.
    Scheme,
    /// A count that does not suit the number of samples or of runs.
    CountDiffers,
    /// Auxiliary data of another size than its IV and its subsamples have.
    AuxSize,
    /// Auxiliary data that is not whole inside the file.
    OffsetPastEnd,
    /// A protected sample without IV, or sizes or offsets of another scheme alone.
    NoAux,
    /// Subsamples that are not as long as the sample.
    SubsSum,
    /// An IV size that is not among 0, 8 and 16, or does not suit the scheme.
    IvSize,
    /// A pattern that encrypts nothing.
    Pattern,
    /// A header or a field ends behind its box.
    Short,
    SizeTooSmall,
    PastEnd,
    /// A version of `sgpd` above 1.
    Version,
    /// isProtected is neither 0 nor 1.
    IsProtected,
    NoTenc,
    OutOfMemory,
}

/// A broken rule and the place, in the file, of the first byte of the box that breaks it.
#[derive(Clone, Copy, Debug, PartialEq, Eq)]
pub struct AuxFault {
    pub place: u64,
    pub kind: AuxKind,
}

impl From<AllocError> for AuxFault {
    ghost use Rattle.std.specs.Prelude.{◌≡◌};
    ghost use Rattle.sample_aux.specs.declared.fault.AuxKind.TheVariants.{OutOfMemory};

    ghost from_gives = { λ _ e. e.kind ≡ OutOfMemory };

    fn from(_: AllocError) -> AuxFault {
        AuxFault {
            place: 0,
            kind: AuxKind::OutOfMemory,
        }
    }
}

impl From<ProtKind> for AuxKind {
    ghost use Rattle.std.specs.Prelude.{◌≡◌};
    ghost use Rattle.sample_aux.specs.Faults.{aux_kind};

    ghost from_gives = { λ k e. e ≡ aux_kind k };

    fn from(kind: ProtKind) -> AuxKind {
        match kind {
            ProtKind::Short => AuxKind::Short,
            ProtKind::SizeTooSmall => AuxKind::SizeTooSmall,
            ProtKind::PastEnd => AuxKind::PastEnd,
            ProtKind::Version => AuxKind::Version,
            ProtKind::IsProtected => AuxKind::IsProtected,
            ProtKind::IvSize => AuxKind::IvSize,
            ProtKind::Pattern => AuxKind::Pattern,
            ProtKind::Scheme => AuxKind::Scheme,
            ProtKind::NoTenc => AuxKind::NoTenc,
            ProtKind::CountDiffers => AuxKind::CountDiffers,
            ProtKind::OutOfMemory => AuxKind::OutOfMemory,
        }
    }
}

impl From<ProtFault> for AuxFault {
    ghost use Rattle.std.specs.Prelude.{◌≡◌};
    ghost use Rattle.sample_aux.specs.Faults.{aux_fault};

    ghost from_gives = { λ f e. e ≡ aux_fault f };

    fn from(fault: ProtFault) -> AuxFault {
        AuxFault {
            place: fault.place,
            kind: AuxKind::from(fault.kind),
        }
    }
}

impl From<SampleFault> for AuxKind {
    ghost use Rattle.std.specs.Prelude.{◌≡◌};
    ghost use Rattle.sample_aux.specs.Faults.{sample_kind};

    ghost from_gives = { λ f e. e ≡ sample_kind f };

    fn from(fault: SampleFault) -> AuxKind {
        match fault {
            SampleFault::Sum => AuxKind::SubsSum,
            SampleFault::IvSize => AuxKind::IvSize,
            SampleFault::Pattern => AuxKind::Pattern,
        }
    }
}
