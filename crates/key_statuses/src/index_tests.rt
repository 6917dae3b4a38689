// The index of keys by example.
use crate::KeyIndex;
use eme_types::KeyId;
use std::alloc::{AllocError, Global};
use std::str::from_utf8;
use std::test::Fail;

// A session is added or taken out under an id, and then these hold a key under it.
const LINES: &[u8] = br#"
add a 3 -> 3
add a 1 -> 1 3
add a 2 -> 1 2 3
add a 2 -> 1 2 3
add b 64 -> 64
add ab 7 -> 7
take a 4 -> 1 2 3
take c 1 ->
take a 2 -> 1 3
take a 1 -> 3
take a 3 ->
take a 3 ->
add a 5 -> 5
add b 64 -> 64
add ab 8 -> 7 8
"#;

/// The change of a line.
fn change(index: &mut KeyIndex, verb: &str, kid: &KeyId, session: u32) -> Result<(), AllocError> {
    if verb == "add" {
        return index.add(kid, session);
    }
    index.take_out(kid, session);
    Ok(())
}

/// The holders, each behind a blank.
fn told(alloc: Global, holders: &[u32]) -> Result<String, AllocError> {
    let mut text = String::new(alloc);
    for number in holders {
        write!(&mut text, " {number}")?;
    }
    Ok(text)
}

/// Does what a line says, and tells who then holds its id.
fn act(alloc: Global, index: &mut KeyIndex, line: &str) -> Result<String, Fail> {
    let Some((verb, words)) = line.split_once(' ') else {
        return Ok(String::new(alloc));
    };
    let Some((id, number)) = words.split_once(' ') else {
        return Ok(String::new(alloc));
    };
    let kid = KeyId::new(alloc, id.as_bytes())?;
    change(index, verb, &kid, number.parse::<u32>()?)?;
    Ok(told(alloc, index.holders(&kid))?)
}

/// The first line that does not leave the holders that stand behind its arrow, with those that it left.
fn differing(alloc: Global, index: &mut KeyIndex, lines: &[u8]) -> Result<String, Fail> {
    for row in from_utf8(lines)?.lines() {
        if let Some((line, want)) = row.split_once(" ->") {
            let text = act(alloc, index, line)?;
            if text.as_str() != want {
                return Ok(format!(in alloc; "{line} ->{text}")?);
            }
        }
    }
    Ok(String::new(alloc))
}

/// Changes 64 sessions, in no order, under the id: all, or those with an odd number.
fn change_many(index: &mut KeyIndex, verb: &str, kid: &KeyId, all: bool) -> Result<(), AllocError> {
    for n in 0..64u32 {
        if all || n % 2 == 0 {
            change(index, verb, kid, n * 37 % 64 + 1)?;
        }
    }
    Ok(())
}

/// Whether the holders are the numbers from the first on in equal steps, and end at 64.
fn are_every(holders: &[u32], first: u32, step: u32) -> bool {
    let mut next = first;
    for number in holders {
        if *number != next {
            return false;
        }
        next = next.saturating_add(step);
    }
    next == 64u32.saturating_add(step)
}

/// Whether an id that all sessions hold is held by half of them, and then by none, as they are taken out.
fn comes_and_goes(index: &mut KeyIndex, kid: &KeyId) -> Result<bool, Fail> {
    if !are_every(index.holders(kid), 1, 1) {
        return Ok(false);
    }
    change_many(index, "take", kid, false)?;
    if !are_every(index.holders(kid), 2, 2) {
        return Ok(false);
    }
    change_many(index, "take", kid, true)?;
    Ok(index.holders(kid).is_empty())
}

#[test]
fn sessions_stand_in_their_places(rt: HostRuntime) -> Result<(), Fail> {
    let mut index = KeyIndex::new(rt.alloc());
    assert_eq!(rt; differing(rt.alloc(), &mut index, LINES)?.as_str(), "");
    assert_eq!(rt; index.ids().len(), 3);
    Ok(())
}

#[test]
fn many_sessions_hold_many_ids(rt: HostRuntime) -> Result<(), Fail> {
    let mut index = KeyIndex::new(rt.alloc());
    for id in 0..=255u8 {
        change_many(&mut index, "add", &KeyId::new(rt.alloc(), &[id, 7])?, true)?;
    }
    assert_eq!(rt; index.ids().len(), 256);
    for id in 0..=255u8 {
        let kid = KeyId::new(rt.alloc(), &[id, 7])?;
        assert!(rt; comes_and_goes(&mut index, &kid)?, "id {id}");
    }
    assert_eq!(rt; index.ids().len(), 0);
    Ok(())
}
