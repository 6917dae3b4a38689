ghost use Rattle.std.specs.Prelude.{◌≡◌, [], ◌∷◌, IfOk};
ghost use Rattle.init_data.specs.Pssh.{AreSixteen};

use crate::{InitFault, Pssh, kids_of, put_pssh, read_pssh};
use clearkey_json::request_text;
use eme_types::{Bytes, InitKind, KeyId, Kids};
use std::alloc::{AllocError, Global};
use std::test::Fail;

// A `pssh` box of the Common SystemID with one key id (ISO/IEC 23001-7 section 8.1): 52 bytes.
const BOX: [u8; 52] = [
    0, 0, 0, 0x34, 0x70, 0x73, 0x73, 0x68, 1, 0, 0, 0, 0x10, 0x77, 0xef, 0xec, 0xc0, 0xb2, 0x4d,
    0x02, 0xac, 0xe3, 0x3c, 0x1e, 0x52, 0xe2, 0xfb, 0x4b, 0, 0, 0, 1, 0, 1, 2, 3, 4, 5, 6, 7, 8, 9,
    10, 11, 12, 13, 14, 15, 0, 0, 0, 0,
];

// The same system in version 0, which lists no key id: 32 bytes.
const BOX_0: [u8; 32] = [
    0, 0, 0, 0x20, 0x70, 0x73, 0x73, 0x68, 0, 0, 0, 0, 0x10, 0x77, 0xef, 0xec, 0xc0, 0xb2, 0x4d,
    0x02, 0xac, 0xe3, 0x3c, 0x1e, 0x52, 0xe2, 0xfb, 0x4b, 0, 0, 0, 0,
];

const REQUEST: &str = "{\"kids\":[\"AAECAwQFBgcICQoLDA0ODw\"],\"type\":\"temporary\"}";

// The request for initialization data.
fn outcome(alloc: Global, kind: InitKind, bytes: &[u8]) -> Result<String, AllocError> {
    match kids_of(alloc, kind, bytes) {
        Err(InitFault::Invalid) => String::from_str(alloc, "invalid"),
        Err(InitFault::NoKids) => String::from_str(alloc, "no kids"),
        Err(InitFault::OutOfMemory) => Err(AllocError),
        Ok(kids) => {
            if kids.len() == 0 {
                return String::from_str(alloc, "empty");
            }
            let text = request_text(alloc, &kids)?;
            match std::str::from_utf8(text.as_slice()) {
                Ok(text) => String::from_str(alloc, text),
                Err(_) => String::from_str(alloc, "not UTF-8"),
            }
        }
    }
}

#[test]
fn lists_of_key_ids_are_read(rt: HostRuntime) -> Result<(), Fail> {
    let cases = [
        (
            "{\"kids\":[\"AA\",\"AA\",\"AQ\"]}",
            "{\"kids\":[\"AA\",\"AQ\"],\"type\":\"temporary\"}",
        ),
        (
            "{\"kids\":[\"AQ\",\"AA\",\"AQ\"],\"more\":1}",
            "{\"kids\":[\"AQ\",\"AA\"],\"type\":\"temporary\"}",
        ),
        ("{\"kids\":[]}", "no kids"),
        ("{\"kids\":[\"AB\"]}", "invalid"),
        ("{\"kids\":[\"AA==\"]}", "invalid"),
        ("{\"kids\":[\"\"]}", "invalid"),
        ("{\"kids\":[1]}", "invalid"),
        ("{\"kids\":\"AA\"}", "invalid"),
        ("{\"kids\":null}", "invalid"),
        ("{}", "invalid"),
        ("[]", "invalid"),
        ("", "invalid"),
    ];
    for (text, wanted) in cases {
        let got = outcome(rt.alloc(), InitKind::Keyids, text.as_bytes())?;
        assert_eq!(rt; got.as_str(), wanted, "{text}");
    }
    Ok(())
}

#[test]
fn boxes_are_read(rt: HostRuntime) -> Result<(), Fail> {
    let mut twice = Vec::from_slice(rt.alloc(), &BOX)?;
    twice.extend_from_slice(&BOX)?;
    let mut other_system = BOX;
    other_system[12] = 0x11;
    let mut with_other = Vec::from_slice(rt.alloc(), &other_system)?;
    with_other.extend_from_slice(&BOX)?;
    let mut other_type = BOX;
    other_type[4] = 0x71;
    let mut long = Vec::from_slice(rt.alloc(), &BOX)?;
    long.push(0)?;
    let cases = [
        (BOX.as_slice(), REQUEST),
        (twice.as_slice(), REQUEST),
        (with_other.as_slice(), REQUEST),
        (other_system.as_slice(), "no kids"),
        (BOX_0.as_slice(), "no kids"),
        (&BOX[..51], "invalid"),
        (long.as_slice(), "invalid"),
        (other_type.as_slice(), "invalid"),
        (&BOX[..0], "invalid"),
    ];
    for (bytes, wanted) in cases {
        let got = outcome(rt.alloc(), InitKind::Cenc, bytes)?;
        assert_eq!(rt; got.as_str(), wanted, "{} bytes", bytes.len());
    }
    Ok(())
}

#[test]
fn a_box_has_its_fields(rt: HostRuntime) -> Result<(), Fail> {
    let list = read_pssh(rt.alloc(), &BOX)?;
    match list.as_slice() {
        [pssh] => {
            assert_eq!(rt; pssh.version, 1);
            assert_eq!(rt; pssh.system[15], 0x4b);
            assert_eq!(rt; pssh.kids.len(), 1);
            assert_eq!(rt; pssh.content.len(), 0);
        }
        _ => assert!(rt; false, "another number of boxes"),
    }
    Ok(())
}

// The fields of a box of the Common SystemID that has two key ids and a data of two bytes: 70 bytes.
const BOX_2: [u8; 70] = [
    0, 0, 0, 0x46, 0x70, 0x73, 0x73, 0x68, 1, 0, 0, 0, 0x10, 0x77, 0xef, 0xec, 0xc0, 0xb2, 0x4d,
    0x02, 0xac, 0xe3, 0x3c, 0x1e, 0x52, 0xe2, 0xfb, 0x4b, 0, 0, 0, 2, 0, 1, 2, 3, 4, 5, 6, 7, 8, 9,
    10, 11, 12, 13, 14, 15, 7, 7, 7, 7, 7, 7, 7, 7, 7, 7, 7, 7, 7, 7, 7, 7, 0, 0, 0, 2, 0x61, 0x62,
];

const FIRST: [u8; 16] = [0, 1, 2, 3, 4, 5, 6, 7, 8, 9, 10, 11, 12, 13, 14, 15];

const SYSTEM: [u8; 16] = [
    0x10, 0x77, 0xef, 0xec, 0xc0, 0xb2, 0x4d, 0x02, 0xac, 0xe3, 0x3c, 0x1e, 0x52, 0xe2, 0xfb, 0x4b,
];

fn push_kid(alloc: Global, kids: &mut Kids, bytes: [u8; 16]) -> Result<(), AllocError>
    requires { AreSixteen kids.now }
    ensures { AreSixteen kids.new }
{
    match KeyId::new(alloc, &bytes) {
        Ok(kid) => kids.push(kid),
        Err(_) => Err(AllocError),
    }
}

// Whether the record is written as these bytes, and they are read as that record.
fn is_written_as(alloc: Global, what: &Pssh, wanted: &[u8]) -> Result<bool, AllocError>
    requires sixteen { AreSixteen what.now.kids }
    requires plain { what.now.version ≡ 0 → what.now.kids ≡ [] }
{
    let mut out = Bytes::new(alloc);
    if put_pssh(alloc, &mut out, what).is_err() {
        return Err(AllocError);
    }
    let Ok(list) = read_pssh(alloc, out.as_slice()) else {
        return Ok(false);
    };
    match list.as_slice() {
        [again] => Ok(
            out.as_slice() == wanted
                && again.version == what.version
                && again.system == what.system
                && again.kids.as_slice() == what.kids.as_slice()
                && again.content.as_slice() == what.content.as_slice(),
        ),
        _ => Ok(false),
    }
}

#[test]
fn written_boxes_are_read_again(rt: HostRuntime) -> Result<(), Fail> {
    let mut one = Kids::new(rt.alloc());
    push_kid(rt.alloc(), &mut one, FIRST)?;
    let mut two = Kids::new(rt.alloc());
    push_kid(rt.alloc(), &mut two, FIRST)?;
    push_kid(rt.alloc(), &mut two, [7; 16])?;
    let plain = Pssh {
        version: 0,
        system: SYSTEM,
        kids: Kids::new(rt.alloc()),
        content: Bytes::new(rt.alloc()),
    };
    let with_one = Pssh {
        version: 1,
        system: SYSTEM,
        kids: one,
        content: Bytes::new(rt.alloc()),
    };
    let with_two = Pssh {
        version: 1,
        system: SYSTEM,
        kids: two,
        content: Bytes::from_slice(rt.alloc(), b"ab")?,
    };
    assert!(rt; is_written_as(rt.alloc(), &plain, &BOX_0)?);
    assert!(rt; is_written_as(rt.alloc(), &with_one, &BOX)?);
    assert!(rt; is_written_as(rt.alloc(), &with_two, &BOX_2)?);
    Ok(())
}

// The front, some equal bytes, and the back.
fn stretched(
    alloc: Global,
    front: &[u8],
    byte: u8,
    count: usize,
    back: &[u8],
) -> Result<Bytes, AllocError> {
    let mut bytes = Bytes::from_slice(alloc, front)?;
    for _ in 0..count {
        bytes.push(byte)?;
    }
    bytes.extend_from_slice(back)?;
    Ok(bytes)
}

#[test]
fn initialization_data_has_a_longest_length(rt: HostRuntime) -> Result<(), Fail> {
    // the box, and then the same with 65,484 and with 65,485 bytes of data: 65,536 and 65,537 bytes
    let mut full = BOX;
    full[1] = 1;
    full[3] = 0;
    full[50] = 0xff;
    full[51] = 0xcc;
    let mut over = full;
    over[3] = 1;
    over[51] = 0xcd;
    let text = "{\"kids\":[\"AAECAwQFBgcICQoLDA0ODw\"]}".as_bytes();
    let cases = [
        (InitKind::Cenc, full.as_slice(), 65_484, REQUEST),
        (InitKind::Cenc, over.as_slice(), 65_485, "invalid"),
        (InitKind::Keyids, text, 65_501, REQUEST),
        (InitKind::Keyids, text, 65_502, "invalid"),
    ];
    for (kind, front, count, wanted) in cases {
        let bytes = stretched(rt.alloc(), front, b' ', count, b"")?;
        let got = outcome(rt.alloc(), kind, bytes.as_slice())?;
        assert_eq!(rt; got.as_str(), wanted, "{} bytes", bytes.len());
    }
    Ok(())
}

#[test]
fn a_key_id_has_a_longest_length(rt: HostRuntime) -> Result<(), Fail> {
    // 683 digits are 512 bytes, and 684 digits are 513
    let longest = stretched(rt.alloc(), b"{\"kids\":[\"", b'A', 683, b"\"]}")?;
    let request = stretched(
        rt.alloc(),
        b"{\"kids\":[\"",
        b'A',
        683,
        b"\"],\"type\":\"temporary\"}",
    )?;
    let got = outcome(rt.alloc(), InitKind::Keyids, longest.as_slice())?;
    assert!(rt; got.as_bytes() == request.as_slice());
    let longer = stretched(rt.alloc(), b"{\"kids\":[\"", b'A', 684, b"\"]}")?;
    let got = outcome(rt.alloc(), InitKind::Keyids, longer.as_slice())?;
    assert_eq!(rt; got.as_str(), "invalid");
    Ok(())
}
