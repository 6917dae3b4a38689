// The entries of a history.
ghost use Rattle.std.specs.Prelude.{◌≡◌, IfOk};

use crate::call::AppCall;
use crate::items::{Bytes, Copies};
use crate::kid::KeyId;
use crate::media::Fragment;
use std::alloc::AllocError;

/// Whether a delivered sample was taken: its claim was still live.
#[derive(Clone, Copy, Debug, PartialEq, Eq)]
pub enum Verdict {
    Taken,
    Stale,
}

/// One entry of the history: one step of an algorithm, a claim, a delivery, a publication.
/// A `place` names an earlier entry, counted from 1; an `index` is the place of a sample in its track, counted from 0.
#[derive(Drop)]
pub enum Entry {
    /// A call of the application.
    Call {
        lane: u8,
        line: u32,
        call: AppCall,
    },
    /// The front parallel part ran.
    Job,
    /// The front task ran.
    Task,
    /// The moment was set, in milliseconds.
    Tick {
        line: u32,
        moment: u64,
    },
    /// A fragment was fed, or none was left.
    Feed {
        line: u32,
        fragment: Option<Fragment>,
    },
    /// The CDM ended the session with the label, where it was open.
    Evict {
        line: u32,
        label: Bytes,
    },
    /// A worker took a sample, to be opened under the key that the session holds for its key id.
    Claim {
        worker: u8,
        track: u32,
        index: u32,
        session: u32,
        kid: KeyId,
    },
    /// The clear bytes of a claim came back.
    Deliver {
        place: u64,
        verdict: Verdict,
    },
    /// A worker gave its claim up.
    GiveUp {
        place: u64,
    },
    /// The next sample of a track was published from a delivered claim.
    Publish {
        track: u32,
        index: u32,
        place: u64,
    },
    /// The next sample of a track was published unprotected.
    PassClear {
        track: u32,
        index: u32,
    },
    /// A track began to wait for a key.
    WaitForKey {
        track: u32,
    },
    /// Everything had settled.
    Settle {
        line: u32,
    },
}

impl Copies for Entry {
    fn copy(&self) -> Result<Entry, AllocError> {
        match self {
            Entry::Call { lane, line, call } => Ok(Entry::Call {
                lane: *lane,
                line: *line,
                call: call.copy()?,
            }),
            Entry::Job => Ok(Entry::Job),
            Entry::Task => Ok(Entry::Task),
            Entry::Tick { line, moment } => Ok(Entry::Tick {
                line: *line,
                moment: *moment,
            }),
            Entry::Feed { line, fragment } => {
                let fragment = match fragment {
                    None => None,
                    Some(fragment) => Some(fragment.copy()?),
                };
                Ok(Entry::Feed {
                    line: *line,
                    fragment,
                })
            }
            Entry::Evict { line, label } => Ok(Entry::Evict {
                line: *line,
                label: label.copy()?,
            }),
            Entry::Claim {
                worker,
                track,
                index,
                session,
                kid,
            } => Ok(Entry::Claim {
                worker: *worker,
                track: *track,
                index: *index,
                session: *session,
                kid: kid.copy()?,
            }),
            Entry::Deliver { place, verdict } => Ok(Entry::Deliver {
                place: *place,
                verdict: *verdict,
            }),
            Entry::GiveUp { place } => Ok(Entry::GiveUp { place: *place }),
            Entry::Publish {
                track,
                index,
                place,
            } => Ok(Entry::Publish {
                track: *track,
                index: *index,
                place: *place,
            }),
            Entry::PassClear { track, index } => Ok(Entry::PassClear {
                track: *track,
                index: *index,
            }),
            Entry::WaitForKey { track } => Ok(Entry::WaitForKey { track: *track }),
            Entry::Settle { line } => Ok(Entry::Settle { line: *line }),
        }
    }
}
