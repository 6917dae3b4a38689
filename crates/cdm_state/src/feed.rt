// What a feed brings, and the events that it queues.
ghost use Rattle.std.specs.Prelude.{◌≡◌, ◌≤◌, map, length, IfOk, IfSome};
ghost use Rattle.std.specs.List.{sum_by};
ghost use Rattle.eme_types.specs.Fed.{part_samples};
ghost use Rattle.eme_types.specs.declared.call.Event.TheVariants.{Encrypted};
ghost use Rattle.cdm_state.specs.Feeds.{parts_in, inits_in, fired_all, fragments_fed};

use eme_types::{Copies, Entry, Event, Fragment, InitData, TrackPart};
use key_sessions::Sessions;
use std::alloc::{AllocError, Global};

/// What a feed brings: so many samples, and these events.
pub struct News {
    pub samples: usize,
    pub events: Vec<Event>,
}

/// How many fragments an entry feeds.
pub fn fragments_fed(entry: &Entry) -> u64
    ensures value { result ≡ fragments_fed entry.now }
    ensures one { result ≤ 1 }
{
    match entry {
        Entry::Feed {
            fragment: Some(_),
            ..
        } => 1,
        _ => 0,
    }
}

/// The number of samples, if it can be counted.
fn count_of(parts: &[TrackPart]) -> Option<usize>
    ensures { IfSome result (λ n. n ≡ sum_by part_samples parts.now) }
{
    let mut count = 0usize;
    for part in parts {
        count = count.checked_add(part.samples.len())?;
    }
    Some(count)
}

/// The events of a fragment's initialization data.
fn events_of(alloc: Global, inits: &[InitData]) -> Result<Vec<Event>, AllocError>
    ensures { IfOk result (λ events. events.items ≡ map Encrypted inits.now) }
{
    let mut events = Vec::new(alloc);
    for init in inits {
        events.push(Event::Encrypted { init: init.copy()? })?;
    }
    Ok(events)
}

/// What a fragment brings, or, where none is left, nothing.
pub fn news_of(alloc: Global, fragment: &Option<Fragment>) -> Result<News, AllocError>
    ensures samples { IfOk result (λ news. news.samples ≡ sum_by part_samples (parts_in fragment.now)) }
    ensures events { IfOk result (λ news. news.events.items ≡ map Encrypted (inits_in fragment.now)) }
{
    let Some(fragment) = fragment else {
        return Ok(News {
            samples: 0,
            events: Vec::new(alloc),
        });
    };
    let samples = match count_of(fragment.parts.as_slice()) {
        None => return Err(AllocError),
        Some(samples) => samples,
    };
    let events = events_of(alloc, fragment.inits.as_slice())?;
    Ok(News { samples, events })
}

/// The events are queued, in order.
pub fn queue_events(sessions: &mut Sessions, events: Vec<Event>)
    requires { length events.items ≤ sessions.old.room }
    ensures { sessions.new ≡ fired_all events.items sessions.old }
{
    for event in events {
        sessions.queue_event(event);
    }
}
