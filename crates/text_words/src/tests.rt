// Worked cases, as tables.
use crate::{
    Pieces, begins, behind, hex_bytes, is_hex, is_word, next_line, next_word, number_up_to,
};
use std::process::Abort;
use std::test::Fail;

#[test]
fn lines_end_with_a_line_feed(rt: HostRuntime) -> Result<(), Fail> {
    for (text, found) in [
        (b"".as_slice(), None),
        (b"b".as_slice(), Some((b"b".as_slice(), b"".as_slice()))),
        (b"b\n".as_slice(), Some((b"b".as_slice(), b"".as_slice()))),
        (b"\nb".as_slice(), Some((b"".as_slice(), b"b".as_slice()))),
        (
            b"a\n\nb".as_slice(),
            Some((b"a".as_slice(), b"\nb".as_slice())),
        ),
    ] {
        assert!(rt; next_line(text) == found);
    }
    Ok(())
}

#[test]
fn a_space_parts_words(rt: HostRuntime) -> Result<(), Fail> {
    for (rest, word, after) in [
        (b"".as_slice(), b"".as_slice(), b"".as_slice()),
        (b" a b".as_slice(), b"a".as_slice(), b" b".as_slice()),
        (b"  b".as_slice(), b"".as_slice(), b" b".as_slice()),
    ] {
        assert!(rt; next_word(rest) == (word, after));
    }
    for (text, is) in [(b"".as_slice(), false), (b"ab", true), (b"a b", false)] {
        assert!(rt; is_word(text) == is);
    }
    Ok(())
}

#[test]
fn pieces_stand_between_bytes(rt: HostRuntime) -> Result<(), Fail> {
    let mut pieces = Pieces::new(b"a,,b", b',');
    for piece in [b"a".as_slice(), b"", b"b"] {
        assert!(rt; pieces.next() == Some(piece));
    }
    assert!(rt; pieces.next().is_none());
    Ok(())
}

#[test]
fn fronts_are_cut_off(rt: HostRuntime) -> Result<(), Fail> {
    assert!(rt; behind(b"hex:", b"hex:0a") == Some(b"0a".as_slice()));
    assert!(rt; behind(b"hex:", b"hex").is_none());
    assert!(rt; begins(b"", b"hex"));
    Ok(())
}

#[test]
fn numbers_are_within_their_limit(rt: HostRuntime) -> Result<(), Fail> {
    for (most, text, number) in [
        (15, b"0".as_slice(), Some(0)),
        (15, b"15".as_slice(), Some(15)),
        (15, b"16".as_slice(), None),
        (15, b"".as_slice(), None),
        (15, b"01".as_slice(), None),
        (15, b"1x".as_slice(), None),
        (u64::MAX, b"18446744073709551615".as_slice(), Some(u64::MAX)),
        (u64::MAX, b"18446744073709551616".as_slice(), None),
    ] {
        assert!(rt; number_up_to(most, text) == number);
    }
    Ok(())
}

#[test]
fn hexadecimal_digits_stand_in_pairs(rt: HostRuntime) -> Result<(), Fail> {
    for (word, is) in [
        (b"".as_slice(), true),
        (b"0aF0".as_slice(), true),
        (b"0".as_slice(), false),
        (b"0g".as_slice(), false),
    ] {
        assert!(rt; is_hex(word) == is);
        assert!(rt; hex_bytes(rt.alloc(), word)?.is_some() == is);
    }
    Ok(())
}
