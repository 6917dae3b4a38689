// The index of keys follows a change of one session.
ghost use Rattle.std.specs.Prelude.{◌≡◌, ◌&&◌, not, is_some, map, take, if◌then◌else◌, ℕ, List, OnOk, OnErr, Some};
ghost use Rattle.std.specs.Str.{bytes_eq};
ghost use Rattle.key_statuses.specs.Table.{key_in};
ghost use Rattle.key_statuses.specs.Index.{holders_of, with_number, without_number};
ghost use Rattle.key_sessions.specs.SessionOf.{session_of};
ghost use Rattle.key_sessions.specs.Machine.{session_at};
ghost use Rattle.key_sessions.specs.Changes.{changed, changed_in};
ghost use Rattle.key_sessions.specs.Holders.{IsIndexOf};
ghost use Rattle.key_sessions.specs.Indexed.{Follows, ChangesWhere, is_held, is_unheld};

use crate::change::Change;
use crate::session::{Session, find_number};
use key_statuses::{KeyIndex, KeyTable, KnownKey};
use std::alloc::{AllocError, Global};

/// Adds the session under a known id that has its key.
fn add_known(index: &mut KeyIndex, number: u32, known: &KnownKey) -> Result<(), AllocError>
    ensures ok { OnOk result ((kid : List ℕ) → holders_of index.new kid ≡ (if is_held kid known.now then with_number number (holders_of index.old kid) else holders_of index.old kid)) }
    ensures err { OnErr result (index.new ≡ index.old) }
{
    if known.key.is_some() {
        index.add(&known.kid, number)?;
    }
    Ok(())
}

/// Adds the session under each known id that has its key. Where memory is missing, some are added.
fn add_held(index: &mut KeyIndex, number: u32, keys: &[KnownKey]) -> Result<(), AllocError>
    ensures ok { OnOk result (ChangesWhere is_held (with_number number) keys.now index.old index.new) }
    ensures err { OnErr result ((i : ℕ) × ChangesWhere is_held (with_number number) (take i keys.now) index.old index.new) }
{
    for known in keys {
        add_known(index, number, known)?;
    }
    Ok(())
}

/// Takes the session out under a known id, unless the table holds a key under it.
fn drop_known(index: &mut KeyIndex, number: u32, known: &KnownKey, table: &KeyTable)
    ensures { (kid : List ℕ) → holders_of index.new kid ≡ (if is_unheld table.now.keys kid known.now then without_number number (holders_of index.old kid) else holders_of index.old kid) }
{
    if table.holds(&known.kid).is_none() {
        index.take_out(&known.kid, number);
    }
}

/// Takes the session out under each known id under which the table holds no key.
fn drop_unheld(index: &mut KeyIndex, number: u32, keys: &[KnownKey], table: &KeyTable)
    ensures { ChangesWhere (is_unheld table.now.keys) (without_number number) keys.now index.old index.new }
{
    for known in keys {
        drop_known(index, number, known, table);
    }
}

/// The session's table becomes another one. Where memory is missing, what was added is taken out again.
fn follow(
    index: &mut KeyIndex,
    number: u32,
    old: &KeyTable,
    new: &KeyTable,
) -> Result<(), AllocError>
    requires { Follows index.old number old.now.keys index.old }
    ensures ok { OnOk result (Follows index.old number new.now.keys index.new) }
    ensures err { OnErr result (Follows index.old number old.now.keys index.new) }
{
    if let Err(error) = add_held(index, number, new.as_slice()) {
        drop_unheld(index, number, new.as_slice(), old);
        return Err(error);
    }
    drop_unheld(index, number, old.as_slice(), new);
    Ok(())
}

/// The index follows a change of the session.
fn follow_change(
    alloc: Global,
    index: &mut KeyIndex,
    number: u32,
    session: &Session,
    change: &Change,
) -> Result<(), AllocError>
    requires { Follows index.old number session.now.keys.keys index.old }
    ensures ok { OnOk result (Follows index.old number (changed change.now (session_of session.now)).keys index.new) }
    ensures err { OnErr result (Follows index.old number session.now.keys.keys index.new) }
{
    match change {
        Change::Started => Ok(()),
        Change::Callable { .. } => Ok(()),
        Change::Closing => Ok(()),
        Change::Keys { table, .. } => follow(index, number, &session.keys, table),
        Change::Released => follow(index, number, &session.keys, &KeyTable::new(alloc)),
        Change::Evicted => follow(index, number, &session.keys, &KeyTable::new(alloc)),
        Change::Reported { .. } => Ok(()),
        Change::Closed { .. } => Ok(()),
    }
}

/// The index becomes that of the sessions after a change of the one with the number. Where memory is missing, it stays
/// that of the sessions as they are.
pub fn index_change(
    alloc: Global,
    index: &mut KeyIndex,
    sessions: &[Session],
    number: u32,
    change: &Option<Change>,
) -> Result<(), AllocError>
    requires { IsIndexOf index.old (map session_of sessions.now) }
    ensures ok { OnOk result (IsIndexOf index.new (changed_in (map session_of sessions.now) number change.now)) }
    ensures err { OnErr result (IsIndexOf index.new (map session_of sessions.now)) }
{
    let Some(change) = change else {
        return Ok(());
    };
    let Some(session) = find_number(sessions, number) else {
        return Ok(());
    };
    follow_change(alloc, index, number, session, change)?;
    Ok(())
}
