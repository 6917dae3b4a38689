use crate::{KeySetFault, json_of, kid_of, read_key_set, request_text};
use eme_types::{KeyBytes, KeyId, Kids};
use std::alloc::{AllocError, Global};
use std::test::Fail;

// FIPS 197, appendix A.1
const KEY: KeyBytes = KeyBytes {
    bytes: [
        0x2b, 0x7e, 0x15, 0x16, 0x28, 0xae, 0xd2, 0xa6, 0xab, 0xf7, 0x15, 0x88, 0x09, 0xcf, 0x4f,
        0x3c,
    ],
};

fn fault_of(alloc: Global, text: &[u8]) -> Option<KeySetFault> {
    match read_key_set(alloc, text) {
        Ok(_) => None,
        Err(fault) => Some(fault),
    }
}

// A key set of one key, with further members.
fn set_of(alloc: Global, kid: &str, k: &str, further: &str) -> Result<String, AllocError> {
    let mut text = String::from_str(alloc, "{\"keys\":[{\"kty\":\"oct\",\"kid\":\"")?;
    text.push_str(kid)?;
    text.push_str("\",\"k\":\"")?;
    text.push_str(k)?;
    text.push_str("\"}]")?;
    text.push_str(further)?;
    text.push_str("}")?;
    Ok(text)
}

fn repeated(alloc: Global, piece: &str, count: usize) -> Result<String, AllocError> {
    let mut text = String::new(alloc);
    for _ in 0..count {
        text.push_str(piece)?;
    }
    Ok(text)
}

#[test]
fn a_licence_is_read(rt: HostRuntime) -> Result<(), Fail> {
    let cases = [
        (",\"type\":\"temporary\"", None, None),
        ("", None, None),
        (",\"type\":\"temporary\",\"expires\":0", Some(0), None),
        (
            ",\"expires\":9007199254740992,\"more\":null",
            Some(9007199254740992),
            None,
        ),
        (",\"from\":0", None, Some(0)),
        (",\"type\":\"temporary\",\"from\":500", None, Some(500)),
        (",\"from\":9007199254740992", None, Some(9007199254740992)),
        (",\"from\":1000,\"expires\":500", Some(500), Some(1000)),
    ];
    for (further, expires, from) in cases {
        let text = set_of(
            rt.alloc(),
            "AAECAwQFBgcICQoLDA0ODw",
            "K34VFiiu0qar9xWICc9PPA",
            further,
        )?;
        let set = read_key_set(rt.alloc(), text.as_bytes())?;
        match set.keys.as_slice() {
            [(kid, key)] => {
                assert_eq!(rt;
                    kid.bytes(),
                    [0, 1, 2, 3, 4, 5, 6, 7, 8, 9, 10, 11, 12, 13, 14, 15].as_slice()
                );
                assert_eq!(rt; *key, KEY);
            }
            _ => assert!(rt; false, "another number of keys"),
        }
        assert_eq!(rt; (set.expires, set.from), (expires, from), "{further}");
    }
    Ok(())
}

// Where two rules are broken, the first in order is the answer.
#[test]
fn the_first_broken_rule_is_told(rt: HostRuntime) -> Result<(), Fail> {
    let cases = [
        ("", KeySetFault::Json),
        ("\u{feff}{}", KeySetFault::Json),
        ("{} x", KeySetFault::Json),
        ("{\"expires\":01}", KeySetFault::Json),
        ("{\"a\":1e999}", KeySetFault::Json),
        ("{\"a\":\"\\ud800\"}", KeySetFault::Json),
        ("[]", KeySetFault::Shape),
        ("{\"type\":1}", KeySetFault::Shape),
        ("{\"keys\":{},\"type\":1}", KeySetFault::Shape),
        ("{\"keys\":null}", KeySetFault::Shape),
        ("{\"keys\":[1]}", KeySetFault::Shape),
        (
            "{\"keys\":[{\"kty\":\"oct\",\"kid\":\"AA\"}]}",
            KeySetFault::Shape,
        ),
        (
            "{\"keys\":[{\"kid\":\"AA\",\"k\":\"AA\"}]}",
            KeySetFault::Shape,
        ),
        (
            "{\"keys\":[{\"kty\":\"oct\",\"kid\":null,\"k\":\"AA\"}]}",
            KeySetFault::Shape,
        ),
        (
            "{\"keys\":[{\"kty\":\"RSA\",\"kid\":\"\",\"k\":\"\"},{\"kty\":\"oct\",\"kid\":\"AA\"}]}",
            KeySetFault::Shape,
        ),
        ("{\"keys\":[],\"type\":\"x\"}", KeySetFault::NoKeys),
        (
            "{\"keys\":[{\"kty\":\"RSA\",\"kid\":\"\",\"k\":\"\"}]}",
            KeySetFault::Kty,
        ),
        (
            "{\"keys\":[{\"kty\":\"oct\",\"kid\":\"\",\"k\":\"\"},{\"kty\":\"RSA\",\"kid\":\"\",\"k\":\"\"}]}",
            KeySetFault::Kid,
        ),
        (
            "{\"keys\":[{\"kty\":\"oct\",\"kid\":\"AA\",\"k\":\"AA\"},{\"kty\":\"RSA\",\"kid\":\"\",\"k\":\"\"}],\"type\":1}",
            KeySetFault::Key,
        ),
    ];
    for (text, fault) in cases {
        assert_eq!(rt;
            fault_of(rt.alloc(), text.as_bytes()),
            Some(fault),
            "{text}"
        );
    }
    assert_eq!(rt;
        fault_of(rt.alloc(), b"{\"keys\":\"\xff\"}"),
        Some(KeySetFault::Json)
    );
    Ok(())
}

#[test]
fn members_of_a_licence_are_tested(rt: HostRuntime) -> Result<(), Fail> {
    let cases = [
        (
            ",\"type\":\"persistent-license\",\"expires\":-1",
            KeySetFault::Kind,
        ),
        (",\"type\":null", KeySetFault::Kind),
        (",\"expires\":1.0", KeySetFault::Expires),
        (",\"expires\":1e3", KeySetFault::Expires),
        (",\"expires\":-0", KeySetFault::Expires),
        (",\"expires\":-1", KeySetFault::Expires),
        (",\"expires\":\"1\"", KeySetFault::Expires),
        (",\"expires\":null", KeySetFault::Expires),
        (",\"expires\":9007199254740993", KeySetFault::Expires),
        (",\"expires\":18446744073709551616", KeySetFault::Expires),
        (",\"from\":-1,\"expires\":-1", KeySetFault::Expires),
        (",\"from\":1.0", KeySetFault::From),
        (",\"from\":1e3", KeySetFault::From),
        (",\"from\":-1", KeySetFault::From),
        (",\"from\":\"5\"", KeySetFault::From),
        (",\"from\":null,\"expires\":500", KeySetFault::From),
        (",\"from\":9007199254740993", KeySetFault::From),
    ];
    for (further, fault) in cases {
        let text = set_of(rt.alloc(), "AA", "K34VFiiu0qar9xWICc9PPA", further)?;
        assert_eq!(rt;
            fault_of(rt.alloc(), text.as_bytes()),
            Some(fault),
            "{further}"
        );
    }
    Ok(())
}

#[test]
fn ids_and_keys_are_strict_base64url(rt: HostRuntime) -> Result<(), Fail> {
    let most = repeated(rt.alloc(), "A", 683)?;
    let over = repeated(rt.alloc(), "A", 684)?;
    let key = "K34VFiiu0qar9xWICc9PPA";
    let cases = [
        (most.as_str(), key, None),
        (over.as_str(), key, Some(KeySetFault::Kid)),
        ("", key, Some(KeySetFault::Kid)),
        ("AB", key, Some(KeySetFault::Kid)),
        ("AA==", key, Some(KeySetFault::Kid)),
        ("A", key, Some(KeySetFault::Kid)),
        ("A A", key, Some(KeySetFault::Kid)),
        ("+/+/", key, Some(KeySetFault::Kid)),
        ("-_-_", key, None),
        ("AA", "K34VFiiu0qar9xWICc9PPA==", Some(KeySetFault::Key)),
        ("AA", "K34VFiiu0qar9xWICc9PPB", Some(KeySetFault::Key)),
        ("AA", "K34VFiiu0qar9xWICc9P", Some(KeySetFault::Key)),
        ("AA", "K34VFiiu0qar9xWICc9PPAA", Some(KeySetFault::Key)),
        ("AA", "", Some(KeySetFault::Key)),
    ];
    for (kid, k, fault) in cases {
        let text = set_of(rt.alloc(), kid, k, "")?;
        assert_eq!(rt; fault_of(rt.alloc(), text.as_bytes()), fault, "{kid} {k}");
    }
    Ok(())
}

// RFC 4648, table 2
#[test]
fn the_alphabet_is_the_url_safe_one(rt: HostRuntime) -> Result<(), Fail> {
    let alphabet = "ABCDEFGHIJKLMNOPQRSTUVWXYZabcdefghijklmnopqrstuvwxyz0123456789-_";
    let bytes = [
        0, 16, 131, 16, 81, 135, 32, 146, 139, 48, 211, 143, 65, 20, 147, 81, 85, 151, 97, 150,
        155, 113, 215, 159, 130, 24, 163, 146, 89, 167, 162, 154, 171, 178, 219, 175, 195, 28, 179,
        211, 93, 183, 227, 158, 187, 243, 223, 191,
    ];
    match kid_of(rt.alloc(), alphabet)? {
        None => assert!(rt; false, "refused"),
        Some(kid) => assert_eq!(rt; kid.bytes(), bytes.as_slice()),
    }
    Ok(())
}

#[test]
fn texts_have_limits(rt: HostRuntime) -> Result<(), Fail> {
    for (room, fault) in [(65_536_usize, None), (65_537, Some(KeySetFault::TooLong))] {
        let mut text = set_of(rt.alloc(), "AA", "K34VFiiu0qar9xWICc9PPA", "")?;
        let spaces = repeated(rt.alloc(), " ", room.saturating_sub(text.len()))?;
        text.push_str(spaces.as_str())?;
        assert_eq!(rt;
            fault_of(rt.alloc(), text.as_bytes()),
            fault,
            "{room} bytes"
        );
    }
    for (lists, is_json) in [(126, true), (127, false)] {
        let mut text = String::from_str(rt.alloc(), "{\"deep\":")?;
        text.push_str(repeated(rt.alloc(), "[", lists)?.as_str())?;
        text.push_str(repeated(rt.alloc(), "]", lists)?.as_str())?;
        text.push_str("}")?;
        assert_eq!(rt;
            json_of(rt.alloc(), text.as_bytes())?.is_some(),
            is_json,
            "{lists} lists"
        );
    }
    Ok(())
}

#[test]
fn a_request_names_the_ids_in_order(rt: HostRuntime) -> Result<(), Fail> {
    let mut kids = Kids::new(rt.alloc());
    kids.push(KeyId::new(rt.alloc(), &[0])?)?;
    let one = request_text(rt.alloc(), &kids)?;
    assert_eq!(rt;
        one.as_slice(),
        b"{\"kids\":[\"AA\"],\"type\":\"temporary\"}".as_slice()
    );
    kids.push(KeyId::new(rt.alloc(), &[0xfb, 0xff])?)?;
    kids.push(KeyId::new(rt.alloc(), &[0])?)?;
    let three = request_text(rt.alloc(), &kids)?;
    assert_eq!(rt;
        three.as_slice(),
        b"{\"kids\":[\"AA\",\"-_8\",\"AA\"],\"type\":\"temporary\"}".as_slice()
    );
    Ok(())
}
