// Why media are refused.
use std::alloc::AllocError;
use thiserror::Error;

/// The first broken rule of a media file.
#[derive(Clone, Copy, Debug, PartialEq, Eq)]
pub enum MediaKind {
    /// A box, a field or a list of entries ends before it should: the file was cut, or a count or a size is too high.
    Short,
    /// A box whose size is below that of its own header.
    SizeTooSmall,
    /// A box that ends behind the box or the file that it stands in. A file of another format is mostly told so.
    PastEnd,
    /// An `sgpd` of a version above 1.
    Version,
    /// A `tenc` or a group whose isProtected is neither 0 nor 1.
    IsProtected,
    /// An IV size other than 0, 8 and 16, or 8 with `cbcs`, whose IVs have 16 bytes.
    IvSize,
    /// A pattern that skips blocks and encrypts none.
    Pattern,
    /// A protected sample entry without a `sinf` of `cenc` or `cbcs`, or a protected group of a clear sample entry.
    Scheme,
    /// A `sinf` of `cenc` or `cbcs` without `tenc`.
    NoTenc,
    /// A `senc` that does not count the samples, a `saiz` that counts more, or a `saio` with neither one offset nor one a run.
    CountDiffers,
    /// A `trak` without `tkhd`.
    NoTrackId,
    /// A `tkhd` with the id of a track before it.
    SecondTrack,
    /// A ninth track.
    TooManyTracks,
    /// A sample entry whose type begins with `enc` and is neither `encv` nor `enca`.
    EntryType,
    /// An `enca` of a version other than 0, such as a QuickTime entry.
    AudioVersion,
    /// An `encv` or `enca` without `sinf`.
    NoSinf,
    /// An `stsz` that counts samples in the movie: the file is not fragmented.
    Progressive,
    /// A `traf` without `tfhd`.
    NoTfhd,
    /// A `tfhd` with a track id that the movie does not have.
    UnknownTrack,
    /// A track fragment of a track without `trex` in the `mvex`.
    NoTrex,
    /// A sample description index that names no sample entry of the track.
    Description,
    /// More than 1,048,576 samples in the file.
    TooManySamples,
    /// More than 67,108,864 bytes of samples in the file.
    TooManyBytes,
    /// A sample that is not whole inside the file.
    DataPastEnd,
    /// An `sbgp` that names a group which no `sgpd` describes.
    GroupIndex,
    /// Auxiliary data whose size in the `saiz` is not that of its IV and its subsamples.
    AuxSize,
    /// Auxiliary data, found by a `saio`, that is not whole inside the file.
    OffsetPastEnd,
    /// A protected sample without an IV of its own and without a constant one, or a `saiz` or `saio` of another scheme alone.
    NoAux,
    /// Subsamples that are together not as long as their sample.
    SubsSum,
    /// A `moof` before any `moov`: an initialization segment is missing.
    NoMoov,
    /// A second `moov`: files were joined.
    SecondMoov,
    /// A line of a sample list has none of the forms, or stands where it may not.
    Line,
    /// A track id of a sample list that is repeated, or not known.
    TrackId,
    /// Data of a sample list that is not pairs of hexadecimal digits.
    Hex,
    /// A key id of a sample list that is not 1 to 512 bytes in hexadecimal.
    Kid,
}

/// Why bytes are no media.
#[derive(Clone, Copy, Debug, PartialEq, Eq, Error)]
pub enum MediaFault {
    /// The first byte of what is refused, counted from 0.
    #[error("the media is refused")]
    Refused { place: u64, kind: MediaKind },
    #[error("out of memory")]
    OutOfMemory,
}

/// Why a line is refused.
#[derive(Clone, Copy, Debug, PartialEq, Eq)]
pub enum LineFault {
    /// The first rule that it breaks.
    Broken(MediaKind),
    OutOfMemory,
}

impl From<AllocError> for LineFault {
    ghost use Rattle.std.specs.Prelude.{◌≡◌};
    ghost use Rattle.track_media.specs.declared.kind.LineFault.TheVariants.{OutOfMemory};

    ghost from_gives = { λ _ e. e ≡ OutOfMemory };

    fn from(_: AllocError) -> LineFault {
        LineFault::OutOfMemory
    }
}

impl From<AllocError> for MediaFault {
    ghost use Rattle.std.specs.Prelude.{◌≡◌};
    ghost use Rattle.track_media.specs.declared.kind.MediaFault.TheVariants.{OutOfMemory};

    ghost from_gives = { λ _ e. e ≡ OutOfMemory };

    fn from(_: AllocError) -> MediaFault {
        MediaFault::OutOfMemory
    }
}
