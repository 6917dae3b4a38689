use crate::{AnswerFault, DeskFault, DeskKind, KeyDesk, answer, read_desk};
use clearkey_json::{read_key_set, request_text};
use eme_types::{KeyId, KeyIdFault, Kids};
use std::alloc::{AllocError, Global};
use std::process::Abort;
use std::test::Fail;

// The key id and the key of the worked case (FIPS 197, appendix A.1), usable at any time.
const WORKED: &str =
    "DESK 1\nkey 000102030405060708090a0b0c0d0e0f 2b7e151628aed2a6abf7158809cf4f3c 0 -";

// The same up to 1000.
const EXPIRING: &str =
    "DESK 1\nkey 000102030405060708090a0b0c0d0e0f 2b7e151628aed2a6abf7158809cf4f3c 0 1000\n";

// 00 up to 1000, 01 from 500 on, 02 from 200 up to 2000.
const THREE: &str =
    "DESK 1\nkey 00 2b7e151628aed2a6abf7158809cf4f3c 0 1000\nkey 01 2b7e151628aed2a6abf7158809cf4f3c 500 -\nkey 02 2b7e151628aed2a6abf7158809cf4f3c 200 2000\n";

const REQUEST: &str = "{\"kids\":[\"AAECAwQFBgcICQoLDA0ODw\"],\"type\":\"temporary\"}";

fn name_of(kind: DeskKind) -> &'static str {
    match kind {
        DeskKind::Header => "Header",
        DeskKind::Line => "Line",
        DeskKind::Kid => "Kid",
        DeskKind::Key => "Key",
        DeskKind::Number => "Number",
        DeskKind::DuplicateKid => "DuplicateKid",
    }
}

fn refusal(fault: AnswerFault) -> &'static str {
    match fault {
        AnswerFault::Invalid => "Invalid",
        AnswerFault::NoKids => "NoKids",
        AnswerFault::Kind => "Kind",
        AnswerFault::NoKeys => "NoKeys",
        AnswerFault::TooMany => "TooMany",
        AnswerFault::TooLong => "TooLong",
        AnswerFault::OutOfMemory => "OutOfMemory",
    }
}

// A table is read as so many rows (line 0), or refused at this line.
fn reads(
    rt: &impl Abort,
    alloc: Global,
    table: &[u8],
    line: u32,
    told: &str,
) -> Result<(), AllocError> {
    match read_desk(alloc, table) {
        Ok(desk) => {
            let count = desk.len();
            let count = format!(in alloc; "{count}")?;
            assert_eq!(rt; (0, count.as_str()), (line, told));
        }
        Err(DeskFault::Refused { line: at, kind }) => {
            assert_eq!(rt; (at, name_of(kind)), (line, told));
        }
        Err(DeskFault::OutOfMemory) => return Err(AllocError),
    }
    Ok(())
}

#[test]
fn a_table_is_read_up_to_its_first_broken_line(rt: HostRuntime) -> Result<(), Fail> {
    for (table, line, told) in [
        (b"".as_slice(), 1, "Header"),
        (b"\nDESK 1", 1, "Header"),
        (b"DESK 1 ", 1, "Header"),
        (b"DESK 1\r\n", 1, "Header"),
        (b"DESK 1", 0, "0"),
        (b"DESK 1\n", 0, "0"),
        (WORKED.as_bytes(), 0, "1"),
        (THREE.as_bytes(), 0, "3"),
        (b"DESK 1\n\n", 2, "Line"),
        (b"DESK 1\n\xff", 2, "Line"),
        (
            b"DESK 1\nkey 00 2b7e151628aed2a6abf7158809cf4f3c 0",
            2,
            "Line",
        ),
        (
            b"DESK 1\nkey 00 2b7e151628aed2a6abf7158809cf4f3c 0 - x",
            2,
            "Line",
        ),
        (
            b"DESK 1\nkey 00 2b7e151628aed2a6abf7158809cf4f3c 0 - ",
            2,
            "Line",
        ),
        (
            b"DESK 1\nkey  2b7e151628aed2a6abf7158809cf4f3c 0 -",
            2,
            "Line",
        ),
        (
            b"DESK 1\nkeys 00 2b7e151628aed2a6abf7158809cf4f3c 0 -",
            2,
            "Line",
        ),
        (b"DESK 1\nkey 0 2b 01 x", 2, "Kid"),
        (b"DESK 1\nkey - 2b 01 x", 2, "Kid"),
        (b"DESK 1\nkey 00 2b 01 x", 2, "Key"),
        (
            b"DESK 1\nkey 00 2b7e151628aed2a6abf7158809cf4f3c3c 0 -",
            2,
            "Key",
        ),
        (
            b"DESK 1\nkey 00 2b7e151628aed2a6abf7158809cf4f3g 0 -",
            2,
            "Key",
        ),
        (
            b"DESK 1\nkey 00 2b7e151628aed2a6abf7158809cf4f3c 01 -",
            2,
            "Number",
        ),
        (
            b"DESK 1\nkey 00 2b7e151628aed2a6abf7158809cf4f3c - -",
            2,
            "Number",
        ),
        (
            b"DESK 1\nkey 00 2b7e151628aed2a6abf7158809cf4f3c 0 --",
            2,
            "Number",
        ),
        (
            b"DESK 1\nkey 00 2b7e151628aed2a6abf7158809cf4f3c 9007199254740992 9007199254740992",
            0,
            "1",
        ),
        (
            b"DESK 1\nkey 00 2b7e151628aed2a6abf7158809cf4f3c 9007199254740993 -",
            2,
            "Number",
        ),
        (
            b"DESK 1\nkey 00 2b7e151628aed2a6abf7158809cf4f3c 0 9007199254740993",
            2,
            "Number",
        ),
        (
            b"DESK 1\nkey 0a 2b7e151628aed2a6abf7158809cf4f3c 0 -\nkey 0A 2b7e151628aed2a6abf7158809cf4f3c 1 1\nkey",
            3,
            "DuplicateKid",
        ),
        (
            b"DESK 1\nkey 0a 2b7e151628aed2a6abf7158809cf4f3c 0 -\nkey 0a 2b7e151628aed2a6abf7158809cf4f3c 1 x",
            3,
            "Number",
        ),
    ] {
        reads(&rt, rt.alloc(), table, line, told)?;
    }
    Ok(())
}

// A request gets this licence, or this refusal.
fn says(rt: &impl Abort, alloc: Global, desk: &KeyDesk, request: &str, moment: u64, told: &str) {
    match answer(alloc, desk, request.as_bytes(), moment) {
        Ok(text) => assert_eq!(rt; text.as_slice(), told.as_bytes()),
        Err(fault) => assert_eq!(rt; refusal(fault), told),
    }
}

#[test]
fn a_licence_has_the_requested_keys(rt: HostRuntime) -> Result<(), Fail> {
    let worked =
        "{\"keys\":[{\"kty\":\"oct\",\"kid\":\"AAECAwQFBgcICQoLDA0ODw\",\"k\":\"K34VFiiu0qar9xWICc9PPA\"}],\"type\":\"temporary\"}";
    let expiring =
        "{\"keys\":[{\"kty\":\"oct\",\"kid\":\"AAECAwQFBgcICQoLDA0ODw\",\"k\":\"K34VFiiu0qar9xWICc9PPA\"}],\"type\":\"temporary\",\"expires\":1000}";
    let two =
        "{\"keys\":[{\"kty\":\"oct\",\"kid\":\"Ag\",\"k\":\"K34VFiiu0qar9xWICc9PPA\"},{\"kty\":\"oct\",\"kid\":\"AA\",\"k\":\"K34VFiiu0qar9xWICc9PPA\"}],\"type\":\"temporary\",\"from\":200,\"expires\":1000}";
    let late =
        "{\"keys\":[{\"kty\":\"oct\",\"kid\":\"Ag\",\"k\":\"K34VFiiu0qar9xWICc9PPA\"}],\"type\":\"temporary\",\"from\":200,\"expires\":2000}";
    let open =
        "{\"keys\":[{\"kty\":\"oct\",\"kid\":\"AQ\",\"k\":\"K34VFiiu0qar9xWICc9PPA\"}],\"type\":\"temporary\",\"from\":500}";
    for (table, request, moment, told) in [
        (WORKED, REQUEST, 0, worked),
        (EXPIRING, REQUEST, 999, expiring),
        (EXPIRING, REQUEST, 1000, "NoKeys"),
        (THREE, "{\"kids\":[\"Ag\",\"AA\",\"Aw\",\"Ag\"]}", 0, two),
        (
            THREE,
            "{\"kids\":[\"Ag\",\"AA\",\"Aw\",\"Ag\"]}",
            1000,
            late,
        ),
        (THREE, "{\"kids\":[\"AQ\"]}", u64::MAX, open),
        (THREE, "{\"kids\":[\"Aw\"]}", 0, "NoKeys"),
        (
            THREE,
            "{\"kids\":[\"AA\"],\"type\":\"temporary\"}",
            1000,
            "NoKeys",
        ),
        (
            THREE,
            "{\"kids\":[\"Aw\"],\"type\":\"persistent-license\"}",
            0,
            "Kind",
        ),
        (THREE, "{\"kids\":[\"AA\"],\"type\":null}", 0, "Kind"),
        (THREE, "{\"kids\":[],\"type\":1}", 0, "NoKids"),
        (THREE, "{\"kids\":[\"AA==\"],\"type\":1}", 0, "Invalid"),
        (THREE, "", 0, "Invalid"),
    ] {
        let desk = read_desk(rt.alloc(), table.as_bytes())?;
        says(&rt, rt.alloc(), &desk, request, moment, told);
    }
    Ok(())
}

// The key id of a number, of so many bytes.
fn numbered(alloc: Global, number: u16, size: usize) -> Result<KeyId, KeyIdFault> {
    let mut bytes = match Vec::from_slice(alloc, &number.to_be_bytes()) {
        Ok(bytes) => bytes,
        Err(_) => return Err(KeyIdFault::OutOfMemory),
    };
    match bytes.resize(size, 0) {
        Ok(()) => KeyId::new(alloc, &bytes),
        Err(_) => Err(KeyIdFault::OutOfMemory),
    }
}

// The key ids of the numbers below a count.
fn first_kids(alloc: Global, count: u16, size: usize) -> Result<Kids, Fail> {
    let mut kids = Kids::new(alloc);
    for number in 0..count {
        kids.push(numbered(alloc, number, size)?)?;
    }
    Ok(kids)
}

// A table of these key ids.
fn table_of(alloc: Global, kids: &[KeyId]) -> Result<String, AllocError> {
    let mut table = String::from_str(alloc, "DESK 1\n")?;
    for kid in kids {
        let kid = hex::encode(alloc, kid.bytes())?;
        let line = format!(in alloc; "key {kid} 2b7e151628aed2a6abf7158809cf4f3c 7 -\n")?;
        table.push_str(&line)?;
    }
    Ok(table)
}

// Of a table of so many ids, so many are asked; the licence is read, and its number of keys and its start are told.
fn asked(
    alloc: Global,
    rows: u16,
    count: u16,
    size: usize,
) -> Result<(usize, Option<u64>, &'static str), Fail> {
    let table = table_of(alloc, first_kids(alloc, rows, size)?.as_slice())?;
    let desk = read_desk(alloc, table.as_bytes())?;
    let kids = first_kids(alloc, count, size)?;
    if kids.len() == 0 {
        return Ok((0, None, "no request"));
    }
    let request = request_text(alloc, &kids)?;
    match answer(alloc, &desk, request.as_slice(), 0) {
        Ok(text) => {
            let set = read_key_set(alloc, text.as_slice())?;
            Ok((set.keys.len(), set.from, "given"))
        }
        Err(fault) => Ok((0, None, refusal(fault))),
    }
}

#[test]
fn a_licence_has_limits(rt: HostRuntime) -> Result<(), Fail> {
    for (rows, count, size, told) in [
        (1000, 256, 2, (256, Some(7), "given")),
        (1000, 257, 2, (0, None, "TooMany")),
        (1, 1, 512, (1, Some(7), "given")),
        (160, 160, 250, (160, Some(7), "given")),
        (190, 190, 250, (0, None, "TooLong")),
        (195, 195, 250, (0, None, "Invalid")),
    ] {
        let found = asked(rt.alloc(), rows, count, size)?;
        assert_eq!(rt; found, told, "{rows} {count} {size}");
    }
    Ok(())
}
