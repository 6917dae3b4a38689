use crate::{
    BoxFault, Boxes, bytes4, fields, first_inside, i32_at, put_box, u8_at, u16_at, u24_at,
};
use eme_types::Bytes;
use std::test::Fail;

#[test]
fn broken_headers_are_refused(rt: HostRuntime) -> Result<(), Fail> {
    let at_zero = [
        (&b"\x00\x00\x00\x07fre"[..], BoxFault::Short { place: 0 }),
        (
            &b"\x00\x00\x00\x07free"[..],
            BoxFault::SizeTooSmall { place: 0 },
        ),
        (&b"\x00\x00\x00\x09free"[..], BoxFault::PastEnd { place: 0 }),
        (
            &b"\x00\x00\x00\x01free\x00\x00\x00\x00\x00\x00\x00"[..],
            BoxFault::Short { place: 0 },
        ),
        (
            &b"\x00\x00\x00\x01free\x00\x00\x00\x00\x00\x00\x00\x0f"[..],
            BoxFault::SizeTooSmall { place: 0 },
        ),
        (
            &b"\x00\x00\x00\x01free\xff\xff\xff\xff\xff\xff\xff\xff"[..],
            BoxFault::PastEnd { place: 0 },
        ),
    ];
    for (bytes, fault) in at_zero {
        let mut boxes = Boxes::new(bytes, 0, true);
        for _ in 0..2 {
            match boxes.next_box() {
                Ok(_) => assert!(rt; false, "{fault:?} was accepted"),
                Err(met) => assert_eq!(rt; met, fault),
            }
        }
    }
    let mut empty = Boxes::new(&[], 0, true);
    assert!(rt; matches!(empty.next_box(), Ok(None)));
    Ok(())
}

#[test]
fn boxes_are_walked_with_their_places(rt: HostRuntime) -> Result<(), Fail> {
    // a box of 32 bits, one of 64 bits, and one to the end
    let bytes =
        b"\x00\x00\x00\x0bskipabc\x00\x00\x00\x01wide\x00\x00\x00\x00\x00\x00\x00\x11d\x00\x00\x00\x00lastef";
    let mut boxes = Boxes::new(bytes, 100, true);
    for (kind, place, body, body_place) in [
        (*b"skip", 100, &b"abc"[..], 108),
        (*b"wide", 111, &b"d"[..], 127),
        (*b"last", 128, &b"ef"[..], 136),
    ] {
        match boxes.next_box() {
            Ok(Some(at)) => {
                assert_eq!(rt; at.kind, kind);
                assert_eq!(rt; at.place, place);
                assert_eq!(rt; at.body, body);
                assert_eq!(rt; at.body_place, body_place);
            }
            _ => assert!(rt; false, "no box at {place}"),
        }
    }
    assert!(rt; matches!(boxes.next_box(), Ok(None)));

    // size 0 stands at the top level alone
    let mut inner = Boxes::new(&bytes[28..], 128, false);
    assert!(rt; matches!(inner.next_box(), Err(BoxFault::SizeTooSmall { place: 128 })));
    Ok(())
}

fn numbers_of(rest: &[u8]) -> Result<(u8, i32, u32, u16, [u8; 4]), BoxFault> {
    fields!(rest, BoxFault::Short { place: 0 }; byte: u8_at, signed: i32_at, flags: u24_at, short: u16_at, name: bytes4);
    let _behind = rest;
    Ok((byte, signed, flags, short, name))
}

#[test]
fn written_boxes_are_found(rt: HostRuntime) -> Result<(), Fail> {
    let mut inner = Bytes::new(rt.alloc());
    put_box(rt.alloc(), &mut inner, *b"free", b"")?;
    put_box(
        rt.alloc(),
        &mut inner,
        *b"test",
        b"\x07\xff\xff\xff\xfe\x01\x02\x03\x04\x05abcd",
    )?;
    let mut out = Bytes::new(rt.alloc());
    put_box(rt.alloc(), &mut out, *b"cont", inner.as_slice())?;
    let header = b"\x00\x00\x00\x26cont\x00\x00\x00\x08free";
    assert!(rt; out.as_slice().starts_with(header));
    let Ok(Some(at)) = Boxes::new(out.as_slice(), 0, true).next_box() else {
        assert!(rt; false, "no box");
        return Ok(());
    };
    let (first, end) = first_inside(&at, *b"test");
    assert!(rt; end.is_none());
    let Some(test) = first else {
        assert!(rt; false, "no inner box");
        return Ok(());
    };
    assert_eq!(rt; test.place, 16);
    assert!(rt; numbers_of(test.body) == Ok((7, -2, 0x010203, 0x0405, *b"abcd")));
    Ok(())
}
