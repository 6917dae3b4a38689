// The statuses of a table, and whether they differ.
ghost use Rattle.std.specs.Prelude.{◌≡◌, IfOk};
ghost use Rattle.key_statuses.specs.Statuses.{statuses, status_of, is_usable, is_usable_at, has_begun as begun_at, lasts as lasts_at, held_status as status_held, comes_before, same_key as same_keys, same_table as same_tables, same_status as statuses_agree, same_statuses as lists_agree};
ghost use Rattle.key_statuses.specs.Loops.{InsertsAt};

use crate::table::KnownKey;
use eme_types::{Copies, Items, KeyBytes, KeyId, Status, StatusList};
use std::alloc::{AllocError, Global};
use std::cmp::Ordering;

fn has_begun(from: Option<u64>, moment: u64) -> bool
    ensures { result ≡ begun_at from moment }
{
    match from {
        None => true,
        Some(start) => start <= moment,
    }
}

fn lasts(expiration: Option<u64>, moment: u64) -> bool
    ensures { result ≡ lasts_at expiration moment }
{
    match expiration {
        None => true,
        Some(end) => moment < end,
    }
}

/// The status of a held key at a moment. Starts, expirations and moments are milliseconds of one clock.
pub fn held_status(from: Option<u64>, expiration: Option<u64>, moment: u64) -> Status
    ensures { result ≡ status_held from expiration moment }
{
    if !lasts(expiration, moment) {
        return Status::Expired;
    }
    if has_begun(from, moment) {
        Status::Usable
    } else {
        Status::UsableInFuture
    }
}

/// Whether a held key is usable at a moment: its start is none or not after the moment, and its expiration is none or
/// after it.
pub fn usable_at(from: Option<u64>, expiration: Option<u64>, moment: u64) -> bool
    ensures value { result ≡ is_usable_at from expiration moment }
    ensures status { result ≡ is_usable (status_held from expiration moment) }
{
    has_begun(from, moment) && lasts(expiration, moment)
}

fn known_status(key: &Option<KeyBytes>, held: Status) -> Status
    ensures { result ≡ status_of key.now held }
{
    match key {
        None => Status::Released,
        Some(_) => held,
    }
}

fn precedes(a: &[u8], b: &[u8]) -> bool
    ensures { result ≡ comes_before a.now b.now }
{
    match a.cmp(b) {
        Ordering::Less => true,
        Ordering::Equal => false,
        Ordering::Greater => false,
    }
}

/// The place of an id in a sorted list.
fn place_for(list: &[(KeyId, Status)], kid: &[u8]) -> usize
    ensures { InsertsAt list.now kid.now result }
{
    for (i, item) in list.iter().enumerate() {
        if precedes(kid, item.0.bytes()) {
            return i;
        }
    }
    list.len()
}

/// The statuses of a table whose held keys have the status `held`, sorted by key id.
pub fn statuses_of(
    alloc: Global,
    table: &[KnownKey],
    held: Status,
) -> Result<StatusList, AllocError>
    ensures { IfOk result (λ list. list ≡ statuses table.now held) }
{
    let mut list = Vec::new(alloc);
    for known in table {
        let at = place_for(&list, known.kid.bytes());
        let kid = known.kid.copy()?;
        list.insert(at, (kid, known_status(&known.key, held)))?;
    }
    Ok(Items::from_vec(list))
}

fn same_key(a: &Option<KeyBytes>, b: &Option<KeyBytes>) -> bool
    ensures { result ≡ same_keys a.now b.now }
{
    match a {
        None => b.is_none(),
        Some(a) => match b {
            None => false,
            Some(b) => a.bytes.as_slice() == b.bytes.as_slice(),
        },
    }
}

/// Whether two tables have the same ids with the same keys.
pub fn same_table(a: &[KnownKey], b: &[KnownKey]) -> bool
    ensures { result ≡ same_tables a.now b.now }
{
    if a.len() != b.len() {
        return false;
    }
    for (i, known) in a.iter().enumerate() {
        let other = &b[i];
        if known.kid.bytes() != other.kid.bytes() {
            return false;
        }
        if !same_key(&known.key, &other.key) {
            return false;
        }
    }
    true
}

fn same_status(a: Status, b: Status) -> bool
    ensures { result ≡ statuses_agree a b }
{
    match (a, b) {
        (Status::Usable, Status::Usable) => true,
        (Status::Expired, Status::Expired) => true,
        (Status::Released, Status::Released) => true,
        (Status::UsableInFuture, Status::UsableInFuture) => true,
        _ => false,
    }
}

/// Whether two lists have the same ids with the same statuses.
pub fn same_statuses(a: &[(KeyId, Status)], b: &[(KeyId, Status)]) -> bool
    ensures { result ≡ lists_agree a.now b.now }
{
    if a.len() != b.len() {
        return false;
    }
    for (i, item) in a.iter().enumerate() {
        let other = &b[i];
        if item.0.bytes() != other.0.bytes() {
            return false;
        }
        if !same_status(item.1, other.1) {
            return false;
        }
    }
    true
}
