// What a step changes of one session.
ghost use Rattle.std.specs.Prelude.{◌≡◌, length, map};
ghost use Rattle.key_sessions.specs.SessionOf.{session_of};
ghost use Rattle.key_sessions.specs.Changes.{changed, changed_in};

use crate::session::Session;
use eme_types::{Reason, StatusList};
use key_statuses::KeyTable;

/// A change of a session, with all memory that it takes.
#[derive(Drop)]
pub enum Change {
    /// It is no longer uninitialized.
    Started,
    /// It gets its id and can be called.
    Callable {
        id: u32,
    },
    /// Its end was asked for.
    Closing,
    /// It gets another table, start and expiration.
    Keys {
        table: KeyTable,
        start: Option<u64>,
        expiration: Option<u64>,
    },
    /// Its ids stay known, without their keys.
    Released,
    /// It is evicted: its end is asked for, and no id stays known.
    Evicted,
    /// Its reported statuses are replaced.
    Reported {
        list: StatusList,
    },
    /// Its reported statuses are replaced, and it is closed for the reason.
    Closed {
        list: StatusList,
        reason: Reason,
    },
}

fn change_one(session: &mut Session, change: Change)
    ensures { session_of session.new ≡ changed change (session_of session.old) }
{
    match change {
        Change::Started => session.uninitialized = false,
        Change::Callable { id } => {
            session.id = Some(id);
            session.callable = true;
        }
        Change::Closing => session.closing = true,
        Change::Keys {
            table,
            start,
            expiration,
        } => {
            session.keys = table;
            session.start = start;
            session.expiration = expiration;
        }
        Change::Released => {
            session.keys.release_all();
            session.start = None;
            session.expiration = None;
        }
        Change::Evicted => {
            session.keys.clear();
            session.start = None;
            session.expiration = None;
            session.closing = true;
            session.evicted = true;
        }
        Change::Reported { list } => session.reported = list,
        Change::Closed { list, reason } => {
            session.reported = list;
            session.closed = true;
            session.reason = Some(reason);
        }
    }
}

/// The session with the number is changed, if it is there and a change is wanted.
pub fn change_session(sessions: &mut Vec<Session>, number: u32, change: Option<Change>)
    ensures states { map session_of sessions.new.items ≡ changed_in (map session_of sessions.old.items) number change }
    ensures length { length sessions.new.items ≡ length sessions.old.items }
{
    let change = match change {
        None => return,
        Some(change) => change,
    };
    if number == 0 {
        return;
    }
    let at = (number - 1) as usize;
    if at < sessions.len() {
        let found = &mut sessions[at];
        change_one(found, change);
    }
}
