// The sessions by tables of lines: what each line does, and what it tells.
use crate::{Sessions, StepFault};
use eme_types::{AppCall, Bytes, Effect, Event, KeyId, Settled, StatusList};
use key_statuses::Picks;
use std::alloc::{AllocError, Global};
use std::str::from_utf8;
use std::test::Fail;

fn bytes(alloc: Global, text: &str) -> Result<Bytes, AllocError> {
    Bytes::from_slice(alloc, text.as_bytes())
}

/// The first word, and the rest.
fn cut(text: &str) -> (&str, &str) {
    match text.split_once(' ') {
        Some(parts) => parts,
        None => (text, ""),
    }
}

fn add(text: &mut String, piece: &str) -> Result<(), AllocError> {
    if !text.is_empty() {
        text.push_str("; ")?;
    }
    text.push_str(piece)
}

/// The bytes of a key id as numbers.
fn add_kid(text: &mut String, kid: &KeyId) -> Result<(), AllocError> {
    for byte in kid.bytes() {
        write!(text, ".{byte}")?;
    }
    Ok(())
}

fn text_of(bytes: &Bytes) -> &str {
    match from_utf8(bytes.as_slice()) {
        Ok(text) => text,
        Err(_) => "not UTF-8",
    }
}

fn settled(alloc: Global, promise: u64, how: &Settled) -> Result<String, AllocError> {
    match how {
        Settled::Resolved => format!(in alloc; "promise {promise} resolved"),
        Settled::ResolvedFalse => format!(in alloc; "promise {promise} resolved false"),
        Settled::ResolvedConfig(config) => {
            let config = text_of(config);
            format!(in alloc; "promise {promise} resolved {config}")
        }
        Settled::Rejected(error) => format!(in alloc; "promise {promise} rejected {error:?}"),
    }
}

fn fired(alloc: Global, event: &Event) -> Result<String, AllocError> {
    match event {
        Event::Message { session, id, text } => {
            let text = text_of(text);
            format!(in alloc; "message {session} {id} {text}")
        }
        Event::KeyStatuses { session } => format!(in alloc; "keystatuseschange {session}"),
        Event::WaitingForKey { track } => format!(in alloc; "waitingforkey {track}"),
        Event::Encrypted { .. } => format!(in alloc; "encrypted"),
    }
}

fn reported(alloc: Global, session: u32, list: &StatusList) -> Result<String, AllocError> {
    let mut text = format!(in alloc; "statuses {session}")?;
    for (kid, status) in list.as_slice() {
        text.push_str(" ")?;
        add_kid(&mut text, kid)?;
        write!(&mut text, "={status:?}")?;
    }
    Ok(text)
}

/// What the last step did, and which keys it ended.
fn told(alloc: Global, sessions: &Sessions) -> Result<String, AllocError> {
    let mut text = String::new(alloc);
    for effect in sessions.effects() {
        let piece = match effect {
            Effect::Statuses { session, list } => reported(alloc, *session, list)?,
            Effect::Closed { session, reason } => {
                format!(in alloc; "closed {session} {reason:?}")?
            }
            Effect::Promise { promise, how } => settled(alloc, *promise, how)?,
            Effect::Fired { event } => fired(alloc, event)?,
        };
        add(&mut text, piece.as_str())?;
    }
    for lost in sessions.lost() {
        let session = lost.session;
        let mut piece = format!(in alloc; "lost {session} ")?;
        add_kid(&mut piece, &lost.kid)?;
        add(&mut text, piece.as_str())?;
    }
    if text.is_empty() {
        text.push_str("nothing")?;
    }
    Ok(text)
}

/// A member that is a moment; none for `-`.
fn add_moment(text: &mut String, name: &str, moment: &str) -> Result<(), AllocError> {
    if moment != "-" {
        write!(text, ",\"{name}\":{moment}")?;
    }
    Ok(())
}

/// A key set, from an expiration or `-`, before which a start and `..` may stand, and of each key its id and itself as
/// they stand there.
fn key_set(alloc: Global, words: &str) -> Result<String, AllocError> {
    let (moments, pairs) = cut(words);
    let (from, expires) = match moments.split_once("..") {
        Some(parts) => parts,
        None => ("-", moments),
    };
    let mut text = String::from_str(alloc, "{\"keys\":[")?;
    let mut first = true;
    for pair in pairs.split(' ') {
        let (kid, k) = match pair.split_once(':') {
            Some(parts) => parts,
            None => (pair, ""),
        };
        if !first {
            text.push_str(",")?;
        }
        first = false;
        write!(
            &mut text,
            "{{\"kty\":\"oct\",\"kid\":\"{kid}\",\"k\":\"{k}\"}}"
        )?;
    }
    text.push_str("]")?;
    add_moment(&mut text, "from", from)?;
    add_moment(&mut text, "expires", expires)?;
    text.push_str("}")?;
    Ok(text)
}

/// The call of a line: the verb, the label or name, and data. `keys` is an update with a key set.
fn call_of(alloc: Global, line: &str) -> Result<AppCall, AllocError> {
    let (verb, words) = cut(line);
    let (name, rest) = cut(words);
    let label = bytes(alloc, name)?;
    match verb {
        "access" => Ok(AppCall::Access {
            name: label,
            list: bytes(alloc, rest)?,
        }),
        "create" => Ok(AppCall::Create {
            label,
            kind: bytes(alloc, rest)?,
        }),
        "request" => {
            let (kind, init) = cut(rest);
            Ok(AppCall::Request {
                label,
                kind: bytes(alloc, kind)?,
                init: bytes(alloc, init)?,
            })
        }
        "update" => Ok(AppCall::Update {
            label,
            response: bytes(alloc, rest)?,
        }),
        "keys" => Ok(AppCall::Update {
            label,
            response: bytes(alloc, key_set(alloc, rest)?.as_str())?,
        }),
        "close" => Ok(AppCall::Close { label }),
        "remove" => Ok(AppCall::Remove { label }),
        _ => Ok(AppCall::Certificate { cert: label }),
    }
}

/// Sets a later moment.
fn clock(sessions: &mut Sessions, moment: u64) -> Result<(), AllocError> {
    if sessions.moment() <= moment {
        sessions.tick(moment)?;
    }
    Ok(())
}

/// Runs up to nine tasks.
fn run_tasks(sessions: &mut Sessions) -> Result<(), Fail> {
    for _ in 0..9 {
        if sessions.task_left() {
            sessions.task()?;
        }
    }
    Ok(())
}

/// Runs the front job or task. It is told whether there was one.
fn step(sessions: &mut Sessions, job: bool) -> Result<bool, Fail> {
    let fault = if job {
        sessions.job().err()
    } else {
        sessions.task().err()
    };
    match fault {
        None => Ok(true),
        Some(StepFault::Empty) => Ok(false),
        Some(fault) => Err(Fail::from(fault)),
    }
}

/// A call, again and again.
fn ask(alloc: Global, sessions: &mut Sessions, line: &str, times: u32) -> Result<(), Fail> {
    let call = call_of(alloc, line)?;
    for _ in 0..times {
        sessions.call(&call)?;
    }
    Ok(())
}

/// The bytes of numbers with dots between them.
fn kid_of(alloc: Global, numbers: &str) -> Result<KeyId, Fail> {
    let mut bytes = Vec::new(alloc);
    for number in numbers.split('.') {
        bytes.push(number.parse::<u8>()?)?;
    }
    Ok(KeyId::new(alloc, bytes.as_slice())?)
}

/// The session and the first byte of the key that would be used.
fn picked(alloc: Global, sessions: &Sessions, numbers: &str) -> Result<String, Fail> {
    let kid = kid_of(alloc, numbers)?;
    match sessions.choose(&kid) {
        None => Ok(String::from_str(alloc, "no pick")?),
        Some(pick) => {
            let session = pick.session;
            let first = pick.key.bytes[0];
            Ok(format!(in alloc; "session {session} {first}")?)
        }
    }
}

/// Whether a key is usable later.
fn later(alloc: Global, sessions: &Sessions, numbers: &str) -> Result<String, Fail> {
    let later = sessions.later(&kid_of(alloc, numbers)?);
    Ok(format!(in alloc; "{later}")?)
}

/// The sessions that hold a key.
fn holders(alloc: Global, sessions: &Sessions, numbers: &str) -> Result<String, Fail> {
    let kid = kid_of(alloc, numbers)?;
    let mut text = String::new(alloc);
    for number in sessions.holders(&kid) {
        write!(&mut text, "{number} ")?;
    }
    text.push_str("hold it")?;
    Ok(text)
}

/// Whether no two sessions hold usable keys of one id that differ.
fn agreed(alloc: Global, sessions: &Sessions) -> Result<String, Fail> {
    let yes = sessions.agree()?;
    Ok(format!(in alloc; "{yes}")?)
}

/// Whether a session was evicted, and what the eviction did.
fn evicted(alloc: Global, sessions: &mut Sessions, label: &str) -> Result<String, Fail> {
    let ended = sessions.evict(label.as_bytes())?;
    let told = told(alloc, sessions)?;
    Ok(format!(in alloc; "{ended}; {told}")?)
}

/// Does what a line says, and tells what came of it: a job, a task, every task, a moment, a pick, a key that is usable
/// later, the holders of an id, whether the sessions agree, an eviction or a call.
fn act(alloc: Global, sessions: &mut Sessions, line: &str) -> Result<String, Fail> {
    let (verb, rest) = cut(line);
    let did = match verb {
        "pick" => return picked(alloc, sessions, rest),
        "later" => return later(alloc, sessions, rest),
        "holders" => return holders(alloc, sessions, rest),
        "agree" => return agreed(alloc, sessions),
        "evict" => return evicted(alloc, sessions, rest),
        "job" => step(sessions, true)?,
        "task" => step(sessions, false)?,
        "tasks" => {
            run_tasks(sessions)?;
            true
        }
        "clock" => {
            clock(sessions, rest.parse::<u64>()?)?;
            true
        }
        "64" => {
            ask(alloc, sessions, rest, 64)?;
            true
        }
        "many" => {
            ask(alloc, sessions, many_keys(alloc, rest)?.as_str(), 1)?;
            true
        }
        _ => {
            ask(alloc, sessions, line, 1)?;
            true
        }
    };
    if did {
        Ok(told(alloc, sessions)?)
    } else {
        Ok(String::from_str(alloc, "empty")?)
    }
}

/// The first line that does not do what stands behind its arrow, with what it did.
fn differing(alloc: Global, sessions: &mut Sessions, lines: &[u8]) -> Result<String, Fail> {
    for row in from_utf8(lines)?.lines() {
        if let Some((line, want)) = row.split_once(" -> ") {
            let text = act(alloc, sessions, line)?;
            if text.as_str() != want {
                return Ok(format!(in alloc; "{line} -> {text}")?);
            }
        }
    }
    Ok(String::new(alloc))
}

/// Whether all lines of both tables do what they say, one after the other in new sessions.
fn holds(alloc: Global, first: &[u8], second: &[u8]) -> Result<bool, Fail> {
    let mut sessions = Sessions::new(alloc);
    if !differing(alloc, &mut sessions, first)?.is_empty() {
        return Ok(false);
    }
    Ok(differing(alloc, &mut sessions, second)?.is_empty())
}

const CALLS: &[u8] = br#"
create a persistent-license -> promise 1 rejected NotSupported
create a temporary -> promise 2 resolved
update b x -> promise 3 rejected UnknownLabel
update a -> promise 4 rejected InvalidState
request a keyids -> promise 5 rejected TypeFault
request a keyids {"kids":["AQ"]} -> promise 6 rejected InvalidState
create b temporary -> promise 7 resolved
request b webm x -> promise 8 rejected NotSupported
close b -> promise 9 rejected InvalidState
certificate x -> promise 10 resolved false
access  [{}] -> promise 11 rejected TypeFault
access org.w3.clearkey {} -> promise 12 rejected TypeFault
access org.w3.clearkey [{"videoCapabilities":[{"contentType":""},{"contentType":"video/mp4"}]}] -> promise 13 rejected NotSupported
access org.w3.clearkey [{"videoCapabilities":[{"contentType":"video/mp4; codecs=\"xyz1\""}]},{"initDataTypes":["webm","cenc"],"videoCapabilities":[{"contentType":"video/mp4; codecs=\"avc1.42E01E\""}]}] -> promise 14 resolved {"label":"","initDataTypes":["cenc"],"audioCapabilities":[],"videoCapabilities":[{"contentType":"video/mp4; codecs=\"avc1.42E01E\"","robustness":""}],"distinctiveIdentifier":"not-allowed","persistentState":"not-allowed","sessionTypes":["temporary"]}
"#;

const OPENED: &[u8] = br#"
create a temporary -> promise 1 resolved
request a keyids {"kids":["AQ"]} -> nothing
job -> nothing
task -> promise 2 resolved
task -> message 1 1 {"kids":["AQ"],"type":"temporary"}
"#;

const UPDATED: &[u8] = br#"
update a {"keys":[]} -> nothing
job -> nothing
task -> promise 3 rejected TypeFault
keys a - Ag:K34VFiiu0qar9xWICc9PPA AQ:K34VFiiu0qar9xWICc9PPA AQA:K34VFiiu0qar9xWICc9PPA -> nothing
job -> nothing
task -> statuses 1 .1=Usable .1.0=Usable .2=Usable; promise 4 resolved
task -> keystatuseschange 1
task -> nothing
close a -> nothing
close a -> promise 6 resolved
keys a - AQ:K34VFiiu0qar9xWICc9PPA -> promise 7 rejected InvalidState
job -> lost 1 .2; lost 1 .1; lost 1 .1.0
task -> statuses 1; closed 1 ClosedByApplication; promise 5 resolved
task -> keystatuseschange 1
task -> nothing
job -> empty
task -> empty
"#;

const LOST: &[u8] = br#"
keys a - AQ:K34VFiiu0qar9xWICc9PPA -> nothing
job -> nothing
keys a - AQ:K34VFiiu0qar9xWICc9PPA -> nothing
job -> nothing
keys a - AQ:AAAAAAAAAAAAAAAAAAAAAA AQ:K34VFiiu0qar9xWICc9PPA -> nothing
job -> nothing
keys a - AQ:AAAAAAAAAAAAAAAAAAAAAA -> nothing
job -> lost 1 .1
tasks -> nothing
remove a -> nothing
job -> lost 1 .1
task -> statuses 1 .1=Released; promise 7 resolved
tasks -> nothing
keys a 1000 AQ:K34VFiiu0qar9xWICc9PPA -> nothing
job -> nothing
tasks -> nothing
clock 999 -> nothing
clock 1000 -> lost 1 .1
task -> statuses 1 .1=Expired
task -> keystatuseschange 1
task -> nothing
keys a - AQ:K34VFiiu0qar9xWICc9PPA -> nothing
job -> nothing
"#;

const STARTED: &[u8] = br#"
keys a 1000..500 AQ:K34VFiiu0qar9xWICc9PPA -> nothing
job -> nothing
task -> statuses 1 .1=UsableInFuture; promise 3 resolved
tasks -> nothing
later 1 -> true
later 2 -> false
pick 1 -> no pick
clock 499 -> nothing
task -> empty
later 1 -> true
clock 500 -> nothing
later 1 -> false
task -> statuses 1 .1=Expired
tasks -> nothing
clock 1000 -> nothing
task -> empty
later 1 -> false
pick 1 -> no pick
keys a 1000..- AQ:K34VFiiu0qar9xWICc9PPA -> nothing
job -> nothing
task -> statuses 1 .1=Usable; promise 4 resolved
tasks -> nothing
later 1 -> false
pick 1 -> session 1 43
keys a 2000..- AQ:K34VFiiu0qar9xWICc9PPA -> nothing
job -> lost 1 .1
pick 1 -> no pick
task -> statuses 1 .1=UsableInFuture; promise 5 resolved
tasks -> nothing
clock 1999 -> nothing
task -> empty
pick 1 -> no pick
clock 2000 -> nothing
pick 1 -> session 1 43
task -> statuses 1 .1=Usable
task -> keystatuseschange 1
task -> nothing
keys a 3000..4000 AQ:K34VFiiu0qar9xWICc9PPA -> nothing
job -> lost 1 .1
tasks -> nothing
clock 5000 -> nothing
task -> statuses 1 .1=Expired
tasks -> nothing
keys a 6000..- AQ:K34VFiiu0qar9xWICc9PPA -> nothing
job -> nothing
tasks -> nothing
later 1 -> true
close a -> nothing
job -> nothing
later 1 -> false
clock 6000 -> nothing
task -> statuses 1; closed 1 ClosedByApplication; promise 8 resolved
"#;

const EVICTED: &[u8] = br#"
keys a - AQ:K34VFiiu0qar9xWICc9PPA Ag:K34VFiiu0qar9xWICc9PPA -> nothing
job -> nothing
task -> statuses 1 .1=Usable .2=Usable; promise 3 resolved
tasks -> nothing
update a x -> nothing
remove a -> nothing
evict b -> false; nothing
evict a -> true; lost 1 .1; lost 1 .2
evict a -> false; nothing
pick 1 -> no pick
close a -> promise 6 resolved
update a x -> promise 7 rejected InvalidState
job -> nothing
job -> nothing
job -> empty
task -> statuses 1; closed 1 ResourceEvicted
evict a -> false; nothing
task -> promise 4 rejected InvalidState
task -> promise 5 rejected InvalidState
task -> keystatuseschange 1
task -> nothing
task -> empty
create b temporary -> promise 8 resolved
request b keyids {"kids":["AQ"]} -> nothing
evict b -> true; nothing
job -> nothing
task -> statuses 2; closed 2 ResourceEvicted
task -> promise 9 rejected InvalidState
tasks -> nothing
create c temporary -> promise 10 resolved
request c keyids {"kids":["AQ"]} -> nothing
job -> nothing
task -> promise 11 resolved
tasks -> message 3 2 {"kids":["AQ"],"type":"temporary"}
close c -> nothing
evict c -> false; nothing
job -> nothing
evict c -> false; nothing
task -> statuses 3; closed 3 ClosedByApplication; promise 12 resolved
evict c -> false; nothing
tasks -> nothing
create d temporary -> promise 13 resolved
request d keyids {"kids":["AQ"]} -> nothing
job -> nothing
task -> promise 14 resolved
tasks -> message 4 3 {"kids":["AQ"],"type":"temporary"}
keys d - AQ:K34VFiiu0qar9xWICc9PPA -> nothing
job -> nothing
evict d -> true; lost 4 .1
task -> statuses 4; promise 15 resolved
task -> statuses 4; closed 4 ResourceEvicted
"#;

const EMPTY: &[u8] = br#"
job -> empty
task -> empty
"#;

const QUOTA: &[u8] = br#"
many a -> nothing
job -> nothing
tasks -> nothing
keys a - AAZZ:K34VFiiu0qar9xWICc9PPA -> nothing
job -> nothing
task -> promise 4 rejected Quota
keys a - AA01:AAAAAAAAAAAAAAAAAAAAAA -> nothing
job -> nothing
task -> promise 5 resolved
keys a - AA00:K34VFiiu0qar9xWICc9PPA -> nothing
job -> lost 1 .0.13.52
pick 0.13.53 -> session 1 0
pick 0.13.52 -> session 1 43
pick 0.6.89 -> no pick
"#;

const HELD: &[u8] = br#"
keys a - AQ:K34VFiiu0qar9xWICc9PPA Ag:K34VFiiu0qar9xWICc9PPA -> nothing
holders 1 -> hold it
job -> nothing
holders 1 -> 1 hold it
create b temporary -> promise 4 resolved
request b keyids {"kids":["AQ"]} -> nothing
job -> nothing
tasks -> message 2 2 {"kids":["AQ"],"type":"temporary"}
keys b 1000 AQ:K34VFiiu0qar9xWICc9PPA -> nothing
job -> nothing
holders 1 -> 1 2 hold it
tasks -> nothing
close a -> nothing
holders 1 -> 1 2 hold it
job -> lost 1 .1; lost 1 .2
holders 1 -> 2 hold it
holders 2 -> hold it
pick 1 -> session 2 43
clock 1000 -> lost 2 .1
holders 1 -> 2 hold it
pick 1 -> no pick
tasks -> nothing
keys b - Ag:K34VFiiu0qar9xWICc9PPA -> nothing
job -> nothing
holders 2 -> 2 hold it
remove b -> nothing
job -> lost 2 .1; lost 2 .2
holders 1 -> hold it
tasks -> nothing
keys b - Ag:K34VFiiu0qar9xWICc9PPA -> nothing
job -> nothing
holders 1 -> hold it
holders 2 -> 2 hold it
evict b -> true; lost 2 .2
holders 2 -> hold it
"#;

const AGREED: &[u8] = br#"
agree -> true
keys a - AQ:K34VFiiu0qar9xWICc9PPA -> nothing
job -> nothing
tasks -> nothing
create b temporary -> promise 4 resolved
request b keyids {"kids":["AQ"]} -> nothing
job -> nothing
tasks -> message 2 2 {"kids":["AQ"],"type":"temporary"}
keys b 500..1000 AQ:AAAAAAAAAAAAAAAAAAAAAA -> nothing
job -> nothing
tasks -> nothing
holders 1 -> 1 2 hold it
agree -> true
clock 500 -> nothing
agree -> false
tasks -> nothing
clock 1000 -> lost 2 .1
agree -> true
tasks -> nothing
create c temporary -> promise 7 resolved
request c keyids {"kids":["AQ"]} -> nothing
job -> nothing
tasks -> message 3 3 {"kids":["AQ"],"type":"temporary"}
keys c - AQ:AAAAAAAAAAAAAAAAAAAAAA -> nothing
job -> nothing
holders 1 -> 1 2 3 hold it
agree -> false
pick 1 -> session 1 43
evict a -> true; lost 1 .1
agree -> true
pick 1 -> session 3 0
"#;

const FULL: &[u8] = br#"
64 create a temporary -> promise 64 resolved
create a temporary -> promise 65 rejected Quota
"#;

/// An update with 256 key ids of three bytes each.
fn many_keys(alloc: Global, label: &str) -> Result<String, AllocError> {
    let mut line = format!(in alloc; "keys {label} -")?;
    for n in 0..256u32 {
        write!(&mut line, " AA{n:02x}:AAAAAAAAAAAAAAAAAAAAAA")?;
    }
    Ok(line)
}

#[test]
fn calls_are_refused_for_the_first_cause(rt: HostRuntime) -> Result<(), Fail> {
    assert!(rt; holds(rt.alloc(), CALLS, EMPTY)?);
    Ok(())
}

#[test]
fn a_session_is_opened_updated_and_closed(rt: HostRuntime) -> Result<(), Fail> {
    assert!(rt; holds(rt.alloc(), OPENED, UPDATED)?);
    Ok(())
}

#[test]
fn keys_are_lost_by_change_removal_and_time(rt: HostRuntime) -> Result<(), Fail> {
    assert!(rt; holds(rt.alloc(), OPENED, LOST)?);
    Ok(())
}

#[test]
fn keys_are_usable_from_their_start(rt: HostRuntime) -> Result<(), Fail> {
    assert!(rt; holds(rt.alloc(), OPENED, STARTED)?);
    Ok(())
}

#[test]
fn an_evicted_session_ends(rt: HostRuntime) -> Result<(), Fail> {
    assert!(rt; holds(rt.alloc(), OPENED, EVICTED)?);
    Ok(())
}

#[test]
fn the_index_follows_the_tables(rt: HostRuntime) -> Result<(), Fail> {
    assert!(rt; holds(rt.alloc(), OPENED, HELD)?);
    Ok(())
}

#[test]
fn sessions_agree_where_usable_keys_are_equal(rt: HostRuntime) -> Result<(), Fail> {
    assert!(rt; holds(rt.alloc(), OPENED, AGREED)?);
    Ok(())
}

#[test]
fn a_session_knows_256_key_ids(rt: HostRuntime) -> Result<(), Fail> {
    assert!(rt; holds(rt.alloc(), OPENED, QUOTA)?);
    Ok(())
}

#[test]
fn there_are_at_most_64_sessions(rt: HostRuntime) -> Result<(), Fail> {
    assert!(rt; holds(rt.alloc(), FULL, EMPTY)?);
    Ok(())
}

#[test]
fn an_event_has_its_room(rt: HostRuntime) -> Result<(), Fail> {
    let mut sessions = Sessions::new(rt.alloc());
    sessions.reserve_events(2)?;
    sessions.queue_event(Event::WaitingForKey { track: 7 });
    sessions.task()?;
    assert_eq!(rt; sessions.take_step().effects.len(), 1);
    assert_eq!(rt; sessions.take_effects().len(), 0);
    Ok(())
}
