// Why a movie or a fragment of one is refused.
use iso_boxes::BoxFault;
use std::alloc::AllocError;

/// The first broken rule of a movie or of a fragment, in the order of reading: boxes in file order, each whole; a rule on a missing
/// box at the end of the box around it.
#[derive(Clone, Copy, Debug, PartialEq, Eq)]
pub enum FragKind {
    /// A header or a field ends behind its box, or an `stsd` has fewer entries than it counts.
    Short,
    /// A box is shorter than its header.
    SizeTooSmall,
    /// A box ends behind the box around it.
    PastEnd,
    /// A `trak` without `tkhd`.
    NoTrackId,
    /// A `tkhd` with the id of a track before it.
    SecondTrack,
    /// A ninth `trak`.
    TooManyTracks,
    /// A sample entry whose type begins with `enc` and is neither `encv` nor `enca`.
    EntryType,
    /// An `enca` whose version is not 0.
    AudioVersion,
    /// An `encv` or `enca` without `sinf`.
    NoSinf,
    /// An `stsz` that counts samples: they do not stand in fragments.
    Progressive,
    /// A `traf` without `tfhd`.
    NoTfhd,
    OutOfMemory,
}

/// A broken rule and the place of the first byte of the box that breaks it. Where memory ran out the place says nothing.
#[derive(Clone, Copy, Debug, PartialEq, Eq)]
pub struct FragFault {
    pub place: u64,
    pub kind: FragKind,
}

impl From<AllocError> for FragKind {
    ghost use Rattle.std.specs.Prelude.{◌≡◌};
    ghost use Rattle.frag_boxes.specs.declared.fault.FragKind.TheVariants.{OutOfMemory};

    ghost from_gives = { λ _ e. e ≡ OutOfMemory };

    fn from(_: AllocError) -> FragKind {
        FragKind::OutOfMemory
    }
}

impl From<AllocError> for FragFault {
    ghost use Rattle.std.specs.Prelude.{◌≡◌};
    ghost use Rattle.frag_boxes.specs.declared.fault.FragKind.TheVariants.{OutOfMemory};

    ghost from_gives = { λ _ e. e.kind ≡ OutOfMemory };

    fn from(_: AllocError) -> FragFault {
        FragFault {
            place: 0,
            kind: FragKind::OutOfMemory,
        }
    }
}

impl From<BoxFault> for FragFault {
    ghost use Rattle.std.specs.Prelude.{◌≡◌};
    ghost use Rattle.frag_boxes.specs.Moof.{header_fault};

    ghost from_gives = { λ f e. e ≡ header_fault f };

    fn from(fault: BoxFault) -> FragFault {
        match fault {
            BoxFault::Short { place } => FragFault {
                place,
                kind: FragKind::Short,
            },
            BoxFault::SizeTooSmall { place } => FragFault {
                place,
                kind: FragKind::SizeTooSmall,
            },
            BoxFault::PastEnd { place } => FragFault {
                place,
                kind: FragKind::PastEnd,
            },
        }
    }
}
