// Records of the boxes of a movie and of its fragments. A `place` is that of the first byte of a box, in the bytes that were walked.
use eme_types::Items;

/// Where a box stands whose content is not read here.
#[derive(Clone, Copy, Debug, PartialEq, Eq)]
pub struct Span {
    pub place: u64,
    /// The place of the first byte behind its header.
    pub body_place: u64,
    /// The bytes of its body.
    pub len: u64,
}

/// A track fragment header (ISO/IEC 14496-12 section 8.8.7). A field is none where its flag is not set.
#[derive(Clone, Copy, Debug, PartialEq, Eq)]
pub struct Tfhd {
    pub place: u64,
    /// The id of the track.
    pub track: u32,
    /// The 24 flags of the box. 0x20000: offsets count from the `moof`.
    pub flags: u32,
    /// The base data offset, in bytes of the file (0x1).
    pub base: Option<u64>,
    /// The number of a sample entry, counted from 1 (0x2).
    pub description: Option<u32>,
    /// The duration of a sample, in the track's time scale (0x8).
    pub duration: Option<u32>,
    /// The bytes of a sample (0x10).
    pub size: Option<u32>,
    /// The flags of a sample (0x20).
    pub sample_flags: Option<u32>,
}

/// What a run says of one sample. A field is none where its flag in the run is not set.
#[derive(Clone, Copy, Debug, PartialEq, Eq)]
pub struct RunItem {
    /// In the track's time scale (0x100).
    pub duration: Option<u32>,
    /// In bytes (0x200).
    pub size: Option<u32>,
    /// The sample's flags (0x400).
    pub flags: Option<u32>,
    /// The composition time offset, its 32 bits as they stand (0x800).
    pub composition: Option<u32>,
}

/// A run of samples (ISO/IEC 14496-12 section 8.8.8).
#[derive(Drop)]
pub struct Trun {
    pub place: u64,
    /// The number of samples.
    pub count: u32,
    /// The data offset in bytes, from the base of the track fragment; none where 0x1 is not set.
    pub offset: Option<i32>,
    /// The flags of the first sample; none where 0x4 is not set.
    pub first_flags: Option<u32>,
    /// One item a sample, and no item where no flag gives a field of each sample.
    pub items: RunItems,
}

/// A track fragment (ISO/IEC 14496-12 section 8.8.6): its first header, and its other boxes in file order.
#[derive(Drop)]
pub struct Traf {
    pub place: u64,
    pub tfhd: Tfhd,
    pub runs: Truns,
    pub senc: Spans,
    pub saiz: Spans,
    pub saio: Spans,
    pub sgpd: Spans,
    pub sbgp: Spans,
}

/// A movie fragment (ISO/IEC 14496-12 section 8.8.4): its track fragments and `pssh` boxes, each in file order.
#[derive(Drop)]
pub struct Moof {
    pub place: u64,
    pub trafs: Trafs,
    pub psshs: Spans,
}

pub type Spans = Items<Span>;

pub type RunItems = Items<RunItem>;

pub type Truns = Items<Trun>;

pub type Trafs = Items<Traf>;

/// What holds for the samples of a track where its fragments say nothing else (ISO/IEC 14496-12 section 8.8.3).
#[derive(Clone, Copy, Debug, PartialEq, Eq)]
pub struct Trex {
    pub place: u64,
    /// The number of a sample entry, counted from 1.
    pub description: u32,
    /// In the track's time scale.
    pub duration: u32,
    /// In bytes.
    pub size: u32,
    pub flags: u32,
}

/// A sample entry (ISO/IEC 14496-12 section 8.5.2) and its `sinf` boxes in file order. It has none exactly where it is clear.
#[derive(Drop)]
pub struct SampleEntry {
    pub place: u64,
    pub sinfs: Spans,
}

pub type SampleEntries = Items<SampleEntry>;

/// A `trex` and the id of the track that it is for.
#[derive(Clone, Copy, Debug)]
pub struct TrackTrex {
    pub track: u32,
    pub trex: Trex,
}

pub type TrackTrexes = Items<TrackTrex>;

/// A track (ISO/IEC 14496-12 section 8.3.1).
#[derive(Drop)]
pub struct MovieTrack {
    pub place: u64,
    pub id: u32,
    /// The counted entries of the used `stsd`; none without one.
    pub entries: SampleEntries,
    /// The first `trex` of the movie with the track's id.
    pub trex: Option<Trex>,
    /// The `sgpd` boxes of the used `stbl`, in file order.
    pub groups: Spans,
}

/// A movie (ISO/IEC 14496-12 section 8.2.1): its tracks, no two with one id, and its `pssh` boxes, each in file order.
#[derive(Drop)]
pub struct Movie {
    pub place: u64,
    pub tracks: MovieTracks,
    pub psshs: Spans,
}

pub type MovieTracks = Items<MovieTrack>;
