// The usable keys of the sessions that hold one under an id.
ghost use Rattle.std.specs.Prelude.{◌≡◌, map};
ghost use Rattle.std.specs.List.{list_all};
ghost use Rattle.key_statuses.specs.Index.{holders_of};
ghost use Rattle.key_statuses.specs.Picked.{picked};
ghost use Rattle.key_sessions.specs.SessionOf.{session_of};
ghost use Rattle.key_sessions.specs.Keys.{held_in, pick_from};
ghost use Rattle.key_sessions.specs.Holders.{holders_from};
ghost use Rattle.key_sessions.specs.Loops.{first_usable as first_in, is_no_other, hold_one_key as one_key_in};

use crate::session::{Session, find_number, usable};
use eme_types::{KeyBytes, KeyId};
use key_statuses::{KeyIndex, Pick};

/// The key that the session with the number holds usable under an id, if it is there.
fn usable_of(sessions: &[Session], number: u32, moment: u64, kid: &KeyId) -> Option<KeyBytes>
    ensures { result ≡ held_in moment (map session_of sessions.now) number kid.now }
{
    match find_number(sessions, number) {
        None => None,
        Some(session) => usable(session, moment, kid),
    }
}

/// The first of the sessions with these numbers that holds a usable key under an id, and the key.
fn first_usable(sessions: &[Session], moment: u64, numbers: &[u32], kid: &KeyId) -> Option<Pick>
    ensures { result ≡ picked (first_in moment (map session_of sessions.now) numbers.now kid.now) }
{
    for number in numbers {
        if let Some(key) = usable_of(sessions, *number, moment, kid) {
            return Some(Pick {
                session: *number,
                key,
            });
        }
    }
    None
}

/// The pick of a key id, whose holders are these.
pub fn choose_of(sessions: &[Session], moment: u64, holders: &[u32], kid: &KeyId) -> Option<Pick>
    requires { holders.now ≡ holders_from 1 (map session_of sessions.now) kid.now }
    ensures { result ≡ picked (pick_from moment 1 (map session_of sessions.now) kid.now) }
{
    first_usable(sessions, moment, holders, kid)
}

fn no_other(key: KeyBytes, other: Option<KeyBytes>) -> bool
    ensures { result ≡ is_no_other key other }
{
    match other {
        None => true,
        Some(other) => key.bytes.as_slice() == other.bytes.as_slice(),
    }
}

/// Whether the sessions with these numbers hold no usable key of the id but this one.
fn hold_no_other(
    sessions: &[Session],
    moment: u64,
    numbers: &[u32],
    kid: &KeyId,
    key: KeyBytes,
) -> bool
    ensures { result ≡ list_all (λ n. is_no_other key (held_in moment (map session_of sessions.now) n kid.now)) numbers.now }
{
    numbers.iter().all(|number| no_other(key, usable_of(sessions, *number, moment, kid)))
}

/// Whether no two of the sessions with these numbers hold usable keys of the id that differ.
fn hold_one_key(sessions: &[Session], moment: u64, numbers: &[u32], kid: &KeyId) -> bool
    ensures { result ≡ one_key_in moment (map session_of sessions.now) numbers.now kid.now }
{
    match first_usable(sessions, moment, numbers, kid) {
        None => true,
        Some(pick) => hold_no_other(sessions, moment, numbers, kid, pick.key),
    }
}

/// Whether under each of the ids no two sessions of the index hold usable keys that differ.
pub fn all_hold_one_key(kids: &[KeyId], index: &KeyIndex, sessions: &[Session], moment: u64) -> bool
    ensures { result ≡ list_all (λ kid. one_key_in moment (map session_of sessions.now) (holders_of index.now kid) kid) kids.now }
{
    kids.iter().all(|kid| hold_one_key(sessions, moment, index.holders(kid), kid))
}
