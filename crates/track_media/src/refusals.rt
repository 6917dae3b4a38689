// The refusals of boxes and of the samples in them, as refusals of the file.
ghost use Rattle.std.specs.Prelude.{◌≡◌};
ghost use Rattle.track_media.specs.Refusals.{refused, frag_kind, aux_kind};

use crate::kind::{MediaFault, MediaKind};
use frag_boxes::{FragFault, FragKind};
use iso_boxes::BoxFault;
use sample_aux::{AuxFault, AuxKind};

fn refused(place: u64, kind: Option<MediaKind>) -> MediaFault
    ensures { result ≡ refused place kind }
{
    match kind {
        None => MediaFault::OutOfMemory,
        Some(kind) => MediaFault::Refused { place, kind },
    }
}

fn frag_kind(kind: FragKind) -> Option<MediaKind>
    ensures { result ≡ frag_kind kind }
{
    let kind = match kind {
        FragKind::Short => MediaKind::Short,
        FragKind::SizeTooSmall => MediaKind::SizeTooSmall,
        FragKind::PastEnd => MediaKind::PastEnd,
        FragKind::NoTrackId => MediaKind::NoTrackId,
        FragKind::SecondTrack => MediaKind::SecondTrack,
        FragKind::TooManyTracks => MediaKind::TooManyTracks,
        FragKind::EntryType => MediaKind::EntryType,
        FragKind::AudioVersion => MediaKind::AudioVersion,
        FragKind::NoSinf => MediaKind::NoSinf,
        FragKind::Progressive => MediaKind::Progressive,
        FragKind::NoTfhd => MediaKind::NoTfhd,
        FragKind::OutOfMemory => return None,
    };
    Some(kind)
}

fn aux_kind(kind: AuxKind) -> Option<MediaKind>
    ensures { result ≡ aux_kind kind }
{
    let kind = match kind {
        AuxKind::UnknownTrack => MediaKind::UnknownTrack,
        AuxKind::NoTrex => MediaKind::NoTrex,
        AuxKind::Description => MediaKind::Description,
        AuxKind::TooManySamples => MediaKind::TooManySamples,
        AuxKind::TooManyBytes => MediaKind::TooManyBytes,
        AuxKind::DataPastEnd => MediaKind::DataPastEnd,
        AuxKind::GroupIndex => MediaKind::GroupIndex,
        AuxKind::Scheme => MediaKind::Scheme,
        AuxKind::CountDiffers => MediaKind::CountDiffers,
        AuxKind::AuxSize => MediaKind::AuxSize,
        AuxKind::OffsetPastEnd => MediaKind::OffsetPastEnd,
        AuxKind::NoAux => MediaKind::NoAux,
        AuxKind::SubsSum => MediaKind::SubsSum,
        AuxKind::IvSize => MediaKind::IvSize,
        AuxKind::Pattern => MediaKind::Pattern,
        AuxKind::Short => MediaKind::Short,
        AuxKind::SizeTooSmall => MediaKind::SizeTooSmall,
        AuxKind::PastEnd => MediaKind::PastEnd,
        AuxKind::Version => MediaKind::Version,
        AuxKind::IsProtected => MediaKind::IsProtected,
        AuxKind::NoTenc => MediaKind::NoTenc,
        AuxKind::OutOfMemory => return None,
    };
    Some(kind)
}

impl From<BoxFault> for MediaFault {
    ghost use Rattle.std.specs.Prelude.{◌≡◌};
    ghost use Rattle.track_media.specs.Refusals.{header_fault};

    ghost from_gives = { λ f e. e ≡ header_fault f };

    fn from(fault: BoxFault) -> MediaFault {
        match fault {
            BoxFault::Short { place } => MediaFault::Refused {
                place,
                kind: MediaKind::Short,
            },
            BoxFault::SizeTooSmall { place } => MediaFault::Refused {
                place,
                kind: MediaKind::SizeTooSmall,
            },
            BoxFault::PastEnd { place } => MediaFault::Refused {
                place,
                kind: MediaKind::PastEnd,
            },
        }
    }
}

impl From<FragFault> for MediaFault {
    ghost use Rattle.std.specs.Prelude.{◌≡◌};
    ghost use Rattle.track_media.specs.Refusals.{frag_fault};

    ghost from_gives = { λ f e. e ≡ frag_fault f };

    fn from(fault: FragFault) -> MediaFault {
        refused(fault.place, frag_kind(fault.kind))
    }
}

impl From<AuxFault> for MediaFault {
    ghost use Rattle.std.specs.Prelude.{◌≡◌};
    ghost use Rattle.track_media.specs.Refusals.{aux_fault};

    ghost from_gives = { λ f e. e ≡ aux_fault f };

    fn from(fault: AuxFault) -> MediaFault {
        refused(fault.place, aux_kind(fault.kind))
    }
}
