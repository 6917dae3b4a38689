// The keys that a step will end.
ghost use Rattle.std.specs.Prelude.{◌≡◌, ◌≤◌, ◌&&◌, not, map, length, IfOk, None, if◌then◌else◌};
ghost use Rattle.eme_types.specs.declared.limits.TheConstants.{MAX_SESSIONS};
ghost use Rattle.key_sessions.specs.SessionOf.{session_of};
ghost use Rattle.key_sessions.specs.LostPair.{pair_of};
ghost use Rattle.key_sessions.specs.Keys.{usable_key};
ghost use Rattle.key_sessions.specs.Changes.{changed};
ghost use Rattle.key_sessions.specs.Ended.{AreEnded, key_if};
ghost use Rattle.key_sessions.specs.Losses.{LosesBy, LosesInTime};

use crate::change::Change;
use crate::ended::ended;
use crate::lost::Lost;
use crate::session::{Session, find_number};
use key_statuses::{KeyTable, usable_at};
use std::alloc::{AllocError, Global};

fn open_and(session: &Session, usable: bool) -> bool
    ensures { result ≡ (not session.now.closed && usable) }
{
    !session.closed && usable
}

/// The keys that a session loses where it gets this table, whose keys are then usable or not.
fn ended_with(
    alloc: Global,
    number: u32,
    session: &Session,
    table: &KeyTable,
    usable: bool,
    moment: u64,
) -> Result<Vec<Lost>, AllocError>
    ensures { IfOk result (λ list. AreEnded number (usable_key moment (session_of session.now)) (λ kid. if session.now.closed then None else key_if usable table.now.keys kid) (map pair_of list.items)) }
{
    let was = open_and(
        session,
        usable_at(session.start, session.expiration, moment),
    );
    let is = open_and(session, usable);
    let list = ended(alloc, number, &session.keys, was, table, is)?;
    Ok(list)
}

/// The keys that a session loses by a change.
fn ended_by(
    alloc: Global,
    number: u32,
    session: &Session,
    change: &Change,
    moment: u64,
) -> Result<Vec<Lost>, AllocError>
    ensures { IfOk result (λ list. AreEnded number (usable_key moment (session_of session.now)) (usable_key moment (changed change.now (session_of session.now))) (map pair_of list.items)) }
{
    match change {
        Change::Started => Ok(Vec::new(alloc)),
        Change::Callable { .. } => Ok(Vec::new(alloc)),
        Change::Closing => Ok(Vec::new(alloc)),
        Change::Keys {
            table,
            start,
            expiration,
        } => {
            let usable = usable_at(*start, *expiration, moment);
            ended_with(alloc, number, session, table, usable, moment)
        }
        Change::Released => {
            let none = KeyTable::new(alloc);
            let list = ended_with(alloc, number, session, &none, true, moment)?;
            Ok(list)
        }
        Change::Evicted => {
            let none = KeyTable::new(alloc);
            let list = ended_with(alloc, number, session, &none, true, moment)?;
            Ok(list)
        }
        Change::Reported { .. } => Ok(Vec::new(alloc)),
        Change::Closed { .. } => {
            let none = KeyTable::new(alloc);
            let list = ended_with(alloc, number, session, &none, true, moment)?;
            Ok(list)
        }
    }
}

/// The keys that a change of the session with the number ends.
pub fn lost_by(
    alloc: Global,
    sessions: &[Session],
    number: u32,
    change: &Option<Change>,
    moment: u64,
) -> Result<Vec<Lost>, AllocError>
    ensures { IfOk result (λ list. LosesBy number change.now (map session_of sessions.now) moment (map pair_of list.items)) }
{
    match change {
        None => Ok(Vec::new(alloc)),
        Some(change) => match find_number(sessions, number) {
            None => Ok(Vec::new(alloc)),
            Some(session) => {
                let list = ended_by(alloc, number, session, change, moment)?;
                Ok(list)
            }
        },
    }
}

/// The keys of a session that expire between two moments.
fn expired(
    alloc: Global,
    number: u32,
    session: &Session,
    before: u64,
    after: u64,
) -> Result<Vec<Lost>, AllocError>
    ensures { IfOk result (λ list. AreEnded number (usable_key before (session_of session.now)) (usable_key after (session_of session.now)) (map pair_of list.items)) }
{
    if usable_at(session.start, session.expiration, after) {
        return Ok(Vec::new(alloc));
    }
    let list = ended_with(alloc, number, session, &session.keys, false, before)?;
    Ok(list)
}

/// The keys that end as the moment changes.
pub fn lost_in_time(
    alloc: Global,
    sessions: &[Session],
    before: u64,
    after: u64,
) -> Result<Vec<Lost>, AllocError>
    requires { length sessions.now ≤ MAX_SESSIONS }
    ensures { IfOk result (λ list. LosesInTime before after (map session_of sessions.now) (map pair_of list.items)) }
{
    let mut list = Vec::new(alloc);
    for (i, session) in sessions.iter().enumerate() {
        let mut more = expired(alloc, i as u32 + 1, session, before, after)?;
        list.append(&mut more)?;
    }
    Ok(list)
}
