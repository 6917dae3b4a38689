// One session.
ghost use Rattle.std.specs.Prelude.{◌≡◌, ◌+◌, ◌≤◌, [], map, Some, None, IfOk, MatchOption, length};
ghost use Rattle.eme_types.specs.declared.limits.TheConstants.{MAX_SESSIONS};
ghost use Rattle.key_sessions.specs.SessionOf.{session_of};
ghost use Rattle.key_sessions.specs.Machine.{new_session, session_at};
ghost use Rattle.key_sessions.specs.Keys.{usable_key, holds_later as later_holds};
ghost use Rattle.key_sessions.specs.Calls.{find_from, is_ending, state_fault as fault_of_state, or_empty};
ghost use Rattle.key_sessions.specs.Evict.{open_number};
ghost use Rattle.key_sessions.specs.Changes.{LabelFound};
ghost use Rattle.key_sessions.specs.Queued.{IsNumber};

use eme_types::{Bytes, Copies, DomError, KeyBytes, KeyId, Reason, Status, StatusList};
use key_statuses::{KeyTable, held_status, usable_at};
use std::alloc::{AllocError, Global};

/// A session with its key table.
#[derive(Drop)]
pub struct Session {
    pub label: Bytes,
    pub id: Option<u32>,
    pub uninitialized: bool,
    pub callable: bool,
    pub closing: bool,
    pub closed: bool,
    pub evicted: bool,
    pub reason: Option<Reason>,
    pub keys: KeyTable,
    pub start: Option<u64>,
    pub expiration: Option<u64>,
    pub reported: StatusList,
}

/// A session as it is created.
pub fn labelled(alloc: Global, label: &Bytes) -> Result<Session, AllocError>
    ensures { IfOk result (λ s. session_of s ≡ new_session label.now) }
{
    let label = label.copy()?;
    Ok(Session {
        label,
        id: None,
        uninitialized: true,
        callable: false,
        closing: false,
        closed: false,
        evicted: false,
        reason: None,
        keys: KeyTable::new(alloc),
        start: None,
        expiration: None,
        reported: StatusList::new(alloc),
    })
}

/// The place of the first session with the label.
pub fn find_label(sessions: &[Session], label: &[u8]) -> Option<usize>
    ensures { LabelFound sessions.now label.now result }
{
    for (i, session) in sessions.iter().enumerate() {
        if session.label.as_slice() == label {
            return Some(i);
        }
    }
    None
}

/// The session with the number, from 1.
pub fn find_number(sessions: &[Session], number: u32) -> Option<&Session>
    ensures { MatchOption result (session_at (map session_of sessions.now) number ≡ None) (λ s. session_at (map session_of sessions.now) number ≡ Some (session_of s.now)) }
{
    if number == 0 {
        return None;
    }
    let at = (number - 1) as usize;
    if at < sessions.len() {
        return Some(&sessions[at]);
    }
    None
}

/// The session with the number, which is there.
pub fn numbered(sessions: &[Session], number: u32) -> &Session
    requires { IsNumber (length sessions.now) number }
    ensures { session_at (map session_of sessions.now) number ≡ Some (session_of result.now) }
{
    let at = (number - 1) as usize;
    &sessions[at]
}

/// Closing or closed.
pub fn ends(session: &Session) -> bool
    ensures { result ≡ is_ending (session_of session.now) }
{
    session.closing || session.closed
}

/// The number of the first session with the label, where it is neither closing nor closed.
pub fn open_session(sessions: &[Session], label: &[u8]) -> Option<u32>
    requires { length sessions.now ≤ MAX_SESSIONS }
    ensures { result ≡ open_number (find_from 1 (map session_of sessions.now) label.now) }
{
    let at = find_label(sessions, label)?;
    if ends(&sessions[at]) {
        return None;
    }
    Some(at as u32 + 1)
}

/// Why a session refuses an update or a removal by its state.
pub fn state_fault(session: &Session) -> Option<DomError>
    ensures { result ≡ fault_of_state (session_of session.now) }
{
    if ends(session) {
        return Some(DomError::InvalidState);
    }
    if !session.callable {
        return Some(DomError::InvalidState);
    }
    None
}

/// Why a session refuses an update at once.
pub fn update_fault(session: &Session, response: &[u8]) -> Option<DomError>
    ensures { result ≡ or_empty (fault_of_state (session_of session.now)) response.now }
{
    match state_fault(session) {
        Some(error) => Some(error),
        None => {
            if response.is_empty() {
                Some(DomError::TypeFault)
            } else {
                None
            }
        }
    }
}

/// The key that a session holds usable under an id.
pub fn usable(session: &Session, moment: u64, kid: &KeyId) -> Option<KeyBytes>
    ensures { result ≡ usable_key moment (session_of session.now) kid.now }
{
    if session.closed {
        return None;
    }
    if usable_at(session.start, session.expiration, moment) {
        session.keys.holds(kid)
    } else {
        None
    }
}

/// Whether a session that is not closed holds under an id a key whose status is `usable-in-future`.
pub fn holds_later(session: &Session, moment: u64, kid: &KeyId) -> bool
    ensures { result ≡ later_holds moment kid.now (session_of session.now) }
{
    if session.closed {
        return false;
    }
    match held_status(session.start, session.expiration, moment) {
        Status::UsableInFuture => session.keys.holds(kid).is_some(),
        Status::Usable => false,
        Status::Expired => false,
        Status::Released => false,
    }
}
