// A sample line.
ghost use Rattle.std.specs.Prelude.{◌≡◌, ◌≤◌, ◌<◌, length, IfOk, Ok, Err};
ghost use Rattle.track_media.specs.ListLine.{Gives, kind_of, sample_data, formed, clear_line, protected_line, cenc_line, cbcs_line, scheme_line, sample_line, known_track};
ghost use Rattle.eme_types.specs.Fed.{is_among};
ghost use Rattle.std.specs.Prelude.{true};
ghost use Rattle.track_media.specs.Views.{protection_of};

use crate::kind::{LineFault, MediaKind};
use crate::line::{Known, LINE, ListLine, Mode};
use crate::number::{pattern_in, subs_in, track_id};
use crate::words::{Protected, data_in, five_words, four_words, iv_in, kid_in, one_word};
use eme_types::{Bytes, EncSample, Protect, Scheme};
use pattern_map::{SampleFault, check_sample};
use std::alloc::Global;
use text_words::Pieces;

/// The data of a sample, for which there has to be room.
#[tactic(auto, unfolding(crate::specs::ListLine::sample_data))]
fn sample_data(alloc: Global, known: &Known, word: &[u8]) -> Result<Bytes, LineFault>
    ensures { Gives result (sample_data known.now word.now) }
{
    let Some(bytes) = data_in(alloc, word)? else {
        return Err(LineFault::Broken(MediaKind::Hex));
    };
    if known.samples == 0 {
        return Err(LineFault::Broken(MediaKind::TooManySamples));
    }
    if known.bytes < bytes.len() as u64 {
        return Err(LineFault::Broken(MediaKind::TooManyBytes));
    }
    Ok(bytes)
}

fn kind_of(fault: SampleFault) -> MediaKind
    ensures { result ≡ kind_of fault }
{
    match fault {
        SampleFault::Sum => MediaKind::SubsSum,
        SampleFault::IvSize => MediaKind::IvSize,
        SampleFault::Pattern => MediaKind::Pattern,
    }
}

/// A sample that is well formed.
fn formed(id: u32, sample: EncSample) -> Result<ListLine, LineFault>
    ensures { Gives result (formed id sample) }
{
    match check_sample(&sample) {
        Ok(()) => Ok(ListLine::Sample(id, sample)),
        Err(fault) => Err(LineFault::Broken(kind_of(fault))),
    }
}

#[tactic(auto, unfolding(crate::specs::ListLine::clear_line))]
fn clear_line(
    alloc: Global,
    known: &Known,
    id: u32,
    words: Pieces<'_>,
) -> Result<ListLine, LineFault>
    requires { known.now.begun ≡ true }
    ensures { Gives result (clear_line known.now id words.entry) }
{
    let Some(word) = one_word(words) else {
        return Err(LINE);
    };
    if !known.has_track(id) {
        return Err(LineFault::Broken(MediaKind::TrackId));
    }
    let bytes = sample_data(alloc, known, word)?;
    let sample = EncSample {
        protect: None,
        bytes,
    };
    formed(id, sample)
}

#[tactic(auto, unfolding(crate::specs::ListLine::protected_line))]
fn protected_line(
    alloc: Global,
    known: &Known,
    id: u32,
    mode: Mode,
    words: &Protected<'_>,
) -> Result<ListLine, LineFault>
    requires { known.now.begun ≡ true }
    ensures { Gives result (protected_line known.now id mode (protection_of words.now)) }
{
    let Some(subs) = subs_in(alloc, words.subs)? else {
        return Err(LINE);
    };
    if !known.has_track(id) {
        return Err(LineFault::Broken(MediaKind::TrackId));
    }
    let Some(kid) = kid_in(alloc, words.kid)? else {
        return Err(LineFault::Broken(MediaKind::Kid));
    };
    let Some(iv) = iv_in(words.iv) else {
        return Err(LineFault::Broken(MediaKind::IvSize));
    };
    let bytes = sample_data(alloc, known, words.bytes)?;
    let protect = Protect {
        scheme: mode.scheme,
        kid,
        iv,
        crypt: mode.crypt,
        skip: mode.skip,
        subs,
    };
    let sample = EncSample {
        protect: Some(protect),
        bytes,
    };
    formed(id, sample)
}

#[tactic(auto, unfolding(crate::specs::ListLine::cenc_line))]
fn cenc_line(
    alloc: Global,
    known: &Known,
    id: u32,
    words: Pieces<'_>,
) -> Result<ListLine, LineFault>
    requires { known.now.begun ≡ true }
    ensures { Gives result (cenc_line known.now id words.entry) }
{
    let Some(words) = four_words(words) else {
        return Err(LINE);
    };
    let mode = Mode {
        scheme: Scheme::Cenc,
        crypt: 0,
        skip: 0,
    };
    protected_line(alloc, known, id, mode, &words)
}

#[tactic(auto, unfolding(crate::specs::ListLine::cbcs_line))]
fn cbcs_line(
    alloc: Global,
    known: &Known,
    id: u32,
    words: Pieces<'_>,
) -> Result<ListLine, LineFault>
    requires { known.now.begun ≡ true }
    ensures { Gives result (cbcs_line known.now id words.entry) }
{
    let Some((words, pattern)) = five_words(words) else {
        return Err(LINE);
    };
    let Some((crypt, skip)) = pattern_in(pattern) else {
        return Err(LINE);
    };
    let mode = Mode {
        scheme: Scheme::Cbcs,
        crypt,
        skip,
    };
    protected_line(alloc, known, id, mode, &words)
}

/// By the scheme of the sample.
#[tactic(auto, unfolding(crate::specs::ListLine::scheme_line))]
fn scheme_line(
    alloc: Global,
    known: &Known,
    id: u32,
    scheme: &[u8],
    words: Pieces<'_>,
) -> Result<ListLine, LineFault>
    requires { known.now.begun ≡ true }
    ensures { Gives result (scheme_line known.now id scheme.now words.entry) }
{
    if scheme == b"clear".as_slice() {
        clear_line(alloc, known, id, words)
    } else if scheme == b"cenc".as_slice() {
        cenc_line(alloc, known, id, words)
    } else if scheme == b"cbcs".as_slice() {
        cbcs_line(alloc, known, id, words)
    } else {
        Err(LINE)
    }
}

/// What follows the word `sample`.
#[tactic(auto, unfolding(crate::specs::ListLine::sample_line))]
pub fn sample_line(
    alloc: Global,
    known: &Known,
    mut words: Pieces<'_>,
) -> Result<ListLine, LineFault>
    ensures { Gives result (sample_line known.now words.entry) }
{
    let Some(word) = words.next() else {
        return Err(LINE);
    };
    let Some(scheme) = words.next() else {
        return Err(LINE);
    };
    let Some(id) = track_id(word) else {
        return Err(LINE);
    };
    if !known.begun {
        return Err(LINE);
    }
    scheme_line(alloc, known, id, scheme, words)
}
