// The keys that end where the table of one session, or its use, changes.
ghost use Rattle.std.specs.Prelude.{◌≡◌, map, IfOk, Some};
ghost use Rattle.key_statuses.specs.Statuses.{same_key as keys_agree};
ghost use Rattle.key_sessions.specs.LostPair.{pair_of};
ghost use Rattle.key_sessions.specs.Ended.{key_if, is_gone, AreEnded};

use crate::lost::Lost;
use eme_types::{Copies, KeyBytes, KeyId};
use key_statuses::KeyTable;
use std::alloc::{AllocError, Global};

fn key_held(table: &KeyTable, usable: bool, kid: &KeyId) -> Option<KeyBytes>
    ensures { result ≡ key_if usable table.now.keys kid.now }
{
    if usable { table.holds(kid) } else { None }
}

fn same_key(a: KeyBytes, b: Option<KeyBytes>) -> bool
    ensures { result ≡ keys_agree (Some a) b }
{
    match b {
        None => false,
        Some(b) => a.bytes.as_slice() == b.bytes.as_slice(),
    }
}

fn gone(old: Option<KeyBytes>, new: Option<KeyBytes>) -> bool
    ensures { result ≡ is_gone old new }
{
    match old {
        None => false,
        Some(key) => !same_key(key, new),
    }
}

/// The ids whose usable key in `old` is gone in `new`.
pub fn ended(
    alloc: Global,
    number: u32,
    old: &KeyTable,
    was_usable: bool,
    new: &KeyTable,
    usable: bool,
) -> Result<Vec<Lost>, AllocError>
    ensures { IfOk result (λ list. AreEnded number (key_if was_usable old.now.keys) (key_if usable new.now.keys) (map pair_of list.items)) }
{
    let mut list = Vec::new(alloc);
    for known in old.as_slice() {
        let kid = &known.kid;
        if gone(key_held(old, was_usable, kid), key_held(new, usable, kid)) {
            let kid = kid.copy()?;
            list.push(Lost {
                session: number,
                kid,
            })?;
        }
    }
    Ok(list)
}
