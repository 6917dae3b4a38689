// Key tables and their statuses by example.
use crate::{KeyTable, held_status, same_statuses, same_table, statuses_of, usable_at};
use eme_types::{KeyBytes, KeyId, Status};
use std::alloc::Global;
use std::test::Fail;

fn key(byte: u8) -> KeyBytes {
    KeyBytes { bytes: [byte; 16] }
}

/// A table that learned the ids 02, 01 and 0100 in this order, with room for the first alone.
fn three_ids(alloc: Global) -> Result<KeyTable, Fail> {
    let mut table = KeyTable::new(alloc);
    table.reserve(1)?;
    for (kid, byte) in [
        (b"\x02".as_slice(), 7),
        (b"\x01".as_slice(), 8),
        (b"\x01\x00".as_slice(), 9),
    ] {
        table.grant(KeyId::new(alloc, kid)?, key(byte))?;
    }
    Ok(table)
}

/// Whether 01, 0100 and 02 are reported in this order, with these statuses.
fn reports(
    table: &KeyTable,
    from: Option<u64>,
    expiration: Option<u64>,
    moment: u64,
    want: [Status; 3],
) -> Result<bool, Fail> {
    let list = table.statuses(from, expiration, moment)?;
    match list.as_slice() {
        [(first, a), (second, b), (third, c)] => {
            if first.bytes() != b"\x01".as_slice() || second.bytes() != b"\x01\x00".as_slice() {
                return Ok(false);
            }
            Ok(third.bytes() == b"\x02".as_slice() && [*a, *b, *c] == want)
        }
        _ => Ok(false),
    }
}

#[test]
fn statuses_are_sorted_and_of_the_moment(rt: HostRuntime) -> Result<(), Fail> {
    let mut table = three_ids(rt.alloc())?;
    for (from, expiration, moment, want) in [
        (None, None, 1000, Status::Usable),
        (None, Some(1000), 999, Status::Usable),
        (None, Some(1000), 1000, Status::Expired),
        (Some(500), None, 499, Status::UsableInFuture),
        (Some(500), None, 500, Status::Usable),
        (Some(500), None, 501, Status::Usable),
        (Some(500), Some(1000), 1000, Status::Expired),
        (Some(1000), Some(500), 499, Status::UsableInFuture),
        (Some(1000), Some(500), 500, Status::Expired),
        (Some(1000), Some(500), 1000, Status::Expired),
    ] {
        assert_eq!(rt; usable_at(from, expiration, moment), want == Status::Usable);
        assert!(rt;
            reports(&table, from, expiration, moment, [want, want, want])?,
            "at {moment}"
        );
    }
    table.release_all();
    table.grant(KeyId::new(rt.alloc(), b"\x02")?, key(7))?;
    for (from, expiration, held) in [
        (None, Some(1000), Status::Expired),
        (Some(1002), None, Status::UsableInFuture),
        (Some(1001), None, Status::Usable),
    ] {
        let want = [Status::Released, Status::Released, held];
        assert!(rt; reports(&table, from, expiration, 1001, want)?);
    }
    Ok(())
}

#[test]
fn a_key_is_held_from_its_grant_to_its_release(rt: HostRuntime) -> Result<(), Fail> {
    let mut table = three_ids(rt.alloc())?;
    let kid = KeyId::new(rt.alloc(), b"\x01")?;
    assert_eq!(rt; (table.holds(&kid), table.len()), (Some(key(8)), 3));
    table.grant(KeyId::new(rt.alloc(), b"\x01")?, key(5))?;
    assert_eq!(rt; (table.holds(&kid), table.len()), (Some(key(5)), 3));
    table.release_all();
    assert_eq!(rt; (table.holds(&kid), table.len()), (None, 3));
    table.clear();
    assert_eq!(rt; (table.holds(&kid), table.len()), (None, 0));
    Ok(())
}

#[test]
fn a_changed_table_differs(rt: HostRuntime) -> Result<(), Fail> {
    let table = three_ids(rt.alloc())?;
    let mut other = table.copy()?;
    assert!(rt; same_table(table.as_slice(), other.as_slice()));
    other.grant(KeyId::new(rt.alloc(), b"\x01")?, key(5))?;
    assert!(rt; !same_table(table.as_slice(), other.as_slice()));
    let before = statuses_of(rt.alloc(), table.as_slice(), held_status(None, None, 3))?;
    let mut after = other.statuses(None, None, 3)?;
    assert!(rt; same_statuses(before.as_slice(), after.as_slice()));
    after = table.statuses(Some(4), None, 3)?;
    assert!(rt; !same_statuses(before.as_slice(), after.as_slice()));
    other.release_all();
    after = other.statuses(None, None, 3)?;
    assert!(rt; !same_statuses(before.as_slice(), after.as_slice()));
    Ok(())
}
