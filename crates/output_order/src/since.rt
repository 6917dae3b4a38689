// What a history has beyond a mark.
ghost use Rattle.std.specs.Prelude.{◌≡◌, ◌≤◌, ◌++◌, All, IfOk, length, map, take};
ghost use Rattle.std.specs.List.{sum_by};
ghost use Rattle.cdm_state.specs.Feeds.{fragments_fed};
ghost use Rattle.output_order.specs.TrackFile.{file_of};
ghost use Rattle.output_order.specs.News.{counts_out, IsMarkOf, IsMark, IsNewsSince};

use crate::log::log_beyond;
use crate::marks::{Counts, Mark};
use crate::track::track_beyond;
use cdm_state::{Cdm, fragments_fed};
use eme_types::{Bytes, TrackTexts};
use std::alloc::{AllocError, Global};

/// What the log and the file of each track have beyond a mark, and the mark of the whole history.
#[derive(Drop)]
pub struct News {
    pub log: Bytes,
    pub tracks: TrackTexts,
    pub mark: Mark,
}

/// What the files have beyond a mark, in track order, and how many samples are out now.
#[derive(Drop)]
struct Files {
    texts: TrackTexts,
    published: Counts,
}

fn files_beyond(alloc: Global, cdm: &Cdm, mark: &Mark) -> Result<Files, AllocError>
    requires { IsMarkOf cdm.now.tracks (take mark.now.entries cdm.now.history) mark.now }
    ensures order { IfOk result (λ f. map (λ x. x.0) f.texts ≡ cdm.now.tracks) }
    ensures texts { IfOk result (λ f. All (λ x. file_of cdm.now.tracks cdm.now.history x.0 ≡ file_of cdm.now.tracks (take mark.now.entries cdm.now.history) x.0 ++ x.1) f.texts) }
    ensures published { IfOk result (λ f. f.published ≡ counts_out cdm.now.tracks cdm.now.history) }
{
    let tracks = cdm.tracks().as_slice();
    let before = mark.published.as_slice();
    let mut texts = TrackTexts::with_capacity(alloc, tracks.len())?;
    let mut published = Counts::with_capacity(alloc, tracks.len())?;
    for (at, track) in tracks.iter().enumerate() {
        let beyond = track_beyond(alloc, cdm, *track, before[at])?;
        texts.push((*track, beyond.bytes))?;
        published.push(beyond.samples)?;
    }
    Ok(Files { texts, published })
}

/// How many fragments the first entries of the history feed: those of the whole history less those of the entries behind them.
fn fed_first(cdm: &Cdm, first: u64) -> u64
    requires { first ≤ length cdm.now.history }
    ensures { result ≡ sum_by fragments_fed (take first cdm.now.history) }
{
    let history = cdm.history();
    let mut fed = cdm.fragments();
    for i in first as usize..history.len() {
        fed -= fragments_fed(&history[i]);
    }
    fed
}

/// What the core's history has beyond a mark of it.
pub fn news_since(alloc: Global, cdm: &Cdm, mark: &Mark) -> Result<News, AllocError>
    requires { IsMark cdm.now.tracks cdm.now.history mark.now }
    ensures { IfOk result (IsNewsSince cdm.now.tracks cdm.now.history mark.now) }
{
    let before = fed_first(cdm, mark.entries);
    let log = log_beyond(alloc, cdm, mark.entries, before)?;
    let files = files_beyond(alloc, cdm, mark)?;
    Ok(News {
        log,
        tracks: files.texts,
        mark: Mark {
            entries: cdm.history().len() as u64,
            published: files.published,
        },
    })
}
