ghost use Rattle.std.specs.Prelude.{◌≡◌};

use crate::{
    ProtFault, ProtKind, Saio, Saiz, Sbgp, SbgpItem, Schm, Seig, Senc, SencItem, Sgpd, Sinf, Tenc,
    put_saio, put_saiz, put_sbgp, put_schm, put_senc, put_sgpd, put_sinf, put_tenc, read_saio,
    read_saiz, read_sbgp, read_schm, read_senc, read_sgpd, read_sinf, read_tenc,
};
use eme_types::{Bytes, Items, Iv, IvSizes, Scheme, Sub, Subs};
use iso_boxes::{BoxRef, Boxes};
use std::alloc::Global;
use std::test::Fail;

fn box_of(kind: [u8; 4], body: &[u8]) -> BoxRef<'_>
    ensures place { result.body_place ≡ 48 }
    ensures body { result.body.now ≡ body.now }
{
    BoxRef {
        kind,
        place: 40,
        body,
        body_place: 48,
    }
}

fn at(body: &[u8]) -> BoxRef<'_>
    ensures place { result.body_place ≡ 48 }
    ensures body { result.body.now ≡ body.now }
{
    box_of(*b"test", body)
}

const KID: [u8; 16] = *b"\x10\x11\x12\x13\x14\x15\x16\x17\x18\x19\x1a\x1b\x1c\x1d\x1e\x1f";

const IV: [u8; 16] = *b"\x00\x11\x22\x33\x44\x55\x66\x77\x88\x99\xaa\xbb\xcc\xdd\xee\xff";

#[test]
fn track_encryption_is_read(rt: HostRuntime) -> Result<(), Fail> {
    let own = read_tenc(&at(
        b"\0\0\0\0\0\0\x01\x08\x10\x11\x12\x13\x14\x15\x16\x17\x18\x19\x1a\x1b\x1c\x1d\x1e\x1f",
    ));
    let Ok(own) = own else {
        assert!(rt; false, "IVs of their own");
        return Ok(());
    };
    assert!(rt;
        own == Tenc {
            version: 0,
            crypt: 0,
            skip: 0,
            protected: true,
            iv_size: 8,
            kid: KID,
            constant: None
        }
    );
    let shared = read_tenc(&at(
        b"\x01\0\0\0\0\x19\x01\0\x10\x11\x12\x13\x14\x15\x16\x17\x18\x19\x1a\x1b\x1c\x1d\x1e\x1f\x10\x00\x11\x22\x33\x44\x55\x66\x77\x88\x99\xaa\xbb\xcc\xdd\xee\xff",
    ));
    let Ok(shared) = shared else {
        assert!(rt; false, "a constant IV");
        return Ok(());
    };
    let constant = Some(Iv::Sixteen(IV));
    assert!(rt;
        shared
            == Tenc {
                version: 1,
                crypt: 1,
                skip: 9,
                protected: true,
                iv_size: 0,
                kid: KID,
                constant
            }
    );
    for (version, crypt, skip) in [(0, 0, 0), (1, 1, 9), (2, 1, 9)] {
        let mut body =
            *b"\0\0\0\0\0\x19\x01\x08\x10\x11\x12\x13\x14\x15\x16\x17\x18\x19\x1a\x1b\x1c\x1d\x1e\x1f";
        body[0] = version;
        let tenc = Tenc {
            version,
            crypt,
            skip,
            protected: true,
            iv_size: 8,
            kid: KID,
            constant: None,
        };
        assert!(rt; read_tenc(&at(&body)) == Ok(tenc), "version {version}");
    }
    for (body, kind) in [
        (&b"\0\0\0\0\0\0\x01\x07\x10\x11"[..], ProtKind::IvSize),
        (&b"\0\0\0\0\0\0\x02\x07\x10\x11"[..], ProtKind::IsProtected),
        (
            &b"\x02\0\0\0\0\x19\x01\0\x10\x11\x12\x13\x14\x15\x16\x17\x18\x19\x1a\x1b\x1c\x1d\x1e\x1f\x00"[..],
            ProtKind::IvSize,
        ),
        (
            &b"\x02\0\0\0\0\x19\x01\0\x10\x11\x12\x13\x14\x15\x16\x17\x18\x19\x1a\x1b\x1c\x1d\x1e\x1f"[..],
            ProtKind::Short,
        ),
        (&b""[..], ProtKind::Short),
    ] {
        let fault = ProtFault { place: 40, kind };
        assert!(rt; read_tenc(&at(body)) == Err(fault), "{kind:?}");
    }
    Ok(())
}

// What a reader answers: how many items are in its list, and none where the box is passed over.
fn items_of(alloc: Global, at: &BoxRef<'_>, sizes: &IvSizes) -> Result<Option<usize>, ProtFault> {
    match &at.kind {
        b"tenc" => {
            let _tenc = read_tenc(at)?;
            Ok(Some(1))
        }
        b"schm" => {
            let _schm = read_schm(at)?;
            Ok(Some(1))
        }
        b"sbgp" => match read_sbgp(alloc, at)? {
            Some(sbgp) => Ok(Some(sbgp.entries.len())),
            None => Ok(None),
        },
        b"sgpd" => match read_sgpd(alloc, at)? {
            Some(sgpd) => Ok(Some(sgpd.entries.len())),
            None => Ok(None),
        },
        b"senc" => {
            let senc = read_senc(alloc, at, sizes)?;
            Ok(Some(senc.items.len()))
        }
        b"saiz" => {
            let saiz = read_saiz(alloc, at)?;
            Ok(Some(saiz.sizes.len()))
        }
        _ => {
            let saio = read_saio(alloc, at)?;
            Ok(Some(saio.offsets.len()))
        }
    }
}

// A refusal with the place of the box itself.
fn refused(kind: ProtKind) -> Result<Option<usize>, ProtFault> {
    Err(ProtFault { place: 40, kind })
}

#[test]
fn each_cut_of_a_body_is_short(rt: HostRuntime) -> Result<(), Fail> {
    let alloc = rt.alloc();
    let sizes = IvSizes::from_slice(alloc, &[0, 16])?;
    for (kind, items, body) in [
        (
            *b"tenc",
            1,
            &b"\0\0\0\0\0\0\x01\x08\x10\x11\x12\x13\x14\x15\x16\x17\x18\x19\x1a\x1b\x1c\x1d\x1e\x1f"[..],
        ),
        (
            *b"tenc",
            1,
            &b"\x01\0\0\0\0\x19\x01\0\x10\x11\x12\x13\x14\x15\x16\x17\x18\x19\x1a\x1b\x1c\x1d\x1e\x1f\x10\x00\x11\x22\x33\x44\x55\x66\x77\x88\x99\xaa\xbb\xcc\xdd\xee\xff"[..],
        ),
        (*b"schm", 1, &b"\0\0\0\0cbcs\0\x01\0\0"[..]),
        (
            *b"saiz",
            2,
            &b"\0\0\0\x01cenc\0\0\0\0\0\0\0\0\x02\x02\x18"[..],
        ),
        (
            *b"saio",
            2,
            &b"\0\0\0\0\0\0\0\x02\0\0\x01\x2c\0\0\x01\x30"[..],
        ),
        (
            *b"saio",
            1,
            &b"\x01\0\0\x01cenc\0\0\0\0\0\0\0\x01\0\0\0\x01\x23\x45\x67\x89"[..],
        ),
        (
            *b"sbgp",
            2,
            &b"\0\0\0\0seig\0\0\0\x02\0\0\0\x01\0\0\0\0\0\0\0\x01\0\x01\0\x01"[..],
        ),
        (
            *b"sbgp",
            1,
            &b"\x01\0\0\0seig\0\0\0\x07\0\0\0\x01\0\0\0\x01\0\x01\0\x01"[..],
        ),
        (
            *b"sgpd",
            1,
            &b"\0\0\0\0seig\0\0\0\x01\0\0\x01\x10\x10\x11\x12\x13\x14\x15\x16\x17\x18\x19\x1a\x1b\x1c\x1d\x1e\x1f"[..],
        ),
        (
            *b"sgpd",
            1,
            &b"\x01\0\0\0seig\0\0\0\x14\0\0\0\x01\0\0\x01\x10\x10\x11\x12\x13\x14\x15\x16\x17\x18\x19\x1a\x1b\x1c\x1d\x1e\x1f"[..],
        ),
        (
            *b"sgpd",
            1,
            &b"\x01\0\0\0seig\0\0\0\0\0\0\0\x01\0\0\0\x1d\0\x19\x01\0\x10\x11\x12\x13\x14\x15\x16\x17\x18\x19\x1a\x1b\x1c\x1d\x1e\x1f\x08\x00\x11\x22\x33\x44\x55\x66\x77"[..],
        ),
        (
            *b"senc",
            2,
            &b"\0\0\0\x02\0\0\0\x02\0\0\x00\x11\x22\x33\x44\x55\x66\x77\x88\x99\xaa\xbb\xcc\xdd\xee\xff\0\x01\0\x04\0\0\0\x10"[..],
        ),
        (
            *b"senc",
            2,
            &b"\0\0\0\0\0\0\0\x02\x00\x11\x22\x33\x44\x55\x66\x77\x88\x99\xaa\xbb\xcc\xdd\xee\xff"[..],
        ),
    ] {
        assert!(rt; items_of(alloc, &box_of(kind, body), &sizes) == Ok(Some(items)));
        for cut in 0..body.len() {
            let part = box_of(kind, &body[..cut]);
            assert!(rt;
                items_of(alloc, &part, &sizes) == refused(ProtKind::Short),
                "{cut} bytes"
            );
        }
    }
    Ok(())
}

#[test]
fn versions_and_counts_have_their_layouts(rt: HostRuntime) -> Result<(), Fail> {
    let alloc = rt.alloc();
    let no_sizes = IvSizes::new(alloc);
    for (kind, answer, body) in [
        (*b"schm", Ok(Some(1)), &b"\x01\0\0\0cenc\0\x01\0\0"[..]),
        (*b"schm", Ok(Some(1)), &b"\x02\0\0\0cenc\0\x01\0\0"[..]),
        // sizes beside a default are not read, whatever the count
        (*b"saiz", Ok(Some(0)), &b"\0\0\0\0\0\0\0\0\0"[..]),
        (*b"saiz", Ok(Some(1)), &b"\x01\0\0\0\0\0\0\0\x01\x07"[..]),
        (*b"saiz", Ok(Some(1)), &b"\x02\0\0\0\0\0\0\0\x01\x07"[..]),
        (
            *b"saiz",
            refused(ProtKind::Short),
            &b"\0\0\0\0\0\xff\xff\xff\xff\x07"[..],
        ),
        (*b"saiz", Ok(Some(0)), &b"\0\0\0\0\x10\xff\xff\xff\xff"[..]),
        // offsets have 32 bits in version 0 alone
        (*b"saio", Ok(Some(0)), &b"\0\0\0\0\0\0\0\0"[..]),
        (
            *b"saio",
            Ok(Some(1)),
            &b"\0\0\0\0\0\0\0\x01\0\0\x01\x2c"[..],
        ),
        (
            *b"saio",
            refused(ProtKind::Short),
            &b"\0\0\0\0\xff\xff\xff\xff\0\0\x01\x2c"[..],
        ),
        (
            *b"saio",
            refused(ProtKind::Short),
            &b"\x01\0\0\0\0\0\0\x01\0\0\x01\x2c"[..],
        ),
        (
            *b"saio",
            Ok(Some(1)),
            &b"\x01\0\0\0\0\0\0\x01\0\0\0\0\0\0\x01\x2c"[..],
        ),
        (
            *b"saio",
            refused(ProtKind::Short),
            &b"\x02\0\0\0\0\0\0\x01\0\0\x01\x2c"[..],
        ),
        (
            *b"saio",
            Ok(Some(1)),
            &b"\x02\0\0\0\0\0\0\x01\0\0\0\0\0\0\x01\x2c"[..],
        ),
        (
            *b"saio",
            refused(ProtKind::Short),
            &b"\x01\0\0\0\xff\xff\xff\xff\0\0\0\0\0\0\x01\x2c"[..],
        ),
        // a parameter stands in version 1 alone
        (*b"sbgp", Ok(None), &b"\0\0\0\0roll"[..]),
        (*b"sbgp", Ok(Some(0)), &b"\0\0\0\0seig\0\0\0\0"[..]),
        (
            *b"sbgp",
            Ok(Some(1)),
            &b"\0\0\0\0seig\0\0\0\x01\0\0\0\x05\0\0\0\x01"[..],
        ),
        (
            *b"sbgp",
            refused(ProtKind::Short),
            &b"\0\0\0\0seig\xff\xff\xff\xff\0\0\0\x05\0\0\0\x01"[..],
        ),
        (
            *b"sbgp",
            Ok(Some(0)),
            &b"\x01\0\0\0seig\0\0\0\x01\0\0\0\0"[..],
        ),
        (
            *b"sbgp",
            refused(ProtKind::Short),
            &b"\x01\0\0\0seig\0\0\0\x01\xff\xff\xff\xff\0\0\0\x01"[..],
        ),
        (
            *b"sbgp",
            Ok(Some(1)),
            &b"\x02\0\0\0seig\0\0\0\x01\0\0\0\x05\0\0\0\x01"[..],
        ),
        (*b"sgpd", Ok(None), &b"\x02\0\0\0roll"[..]),
        (*b"sgpd", refused(ProtKind::Version), &b"\x02\0\0\0seig"[..]),
        (*b"sgpd", Ok(Some(0)), &b"\0\0\0\0seig\0\0\0\0"[..]),
        (
            *b"sgpd",
            refused(ProtKind::Short),
            &b"\0\0\0\0seig\xff\xff\xff\xff\0\0\x01\x10\x10\x11\x12\x13\x14\x15\x16\x17\x18\x19\x1a\x1b\x1c\x1d\x1e\x1f"[..],
        ),
        (
            *b"sgpd",
            Ok(Some(0)),
            &b"\x01\0\0\0seig\0\0\0\x01\0\0\0\0"[..],
        ),
        // the length of an entry: the default one, and its own where that is 0
        (
            *b"sgpd",
            refused(ProtKind::Short),
            &b"\x01\0\0\0seig\0\0\0\x01\0\0\0\x01\0\0\x01\x10\x10\x11\x12\x13\x14\x15\x16\x17\x18\x19\x1a\x1b\x1c\x1d\x1e\x1f"[..],
        ),
        (
            *b"sgpd",
            refused(ProtKind::Short),
            &b"\x01\0\0\0seig\xff\xff\xff\xff\0\0\0\x01\0\0\x01\x10\x10\x11\x12\x13\x14\x15\x16\x17\x18\x19\x1a\x1b\x1c\x1d\x1e\x1f"[..],
        ),
        (
            *b"sgpd",
            refused(ProtKind::Short),
            &b"\x01\0\0\0seig\0\0\0\0\0\0\0\x01\0\0\0\0\0\0\x01\x10\x10\x11\x12\x13\x14\x15\x16\x17\x18\x19\x1a\x1b\x1c\x1d\x1e\x1f"[..],
        ),
        (
            *b"sgpd",
            refused(ProtKind::Short),
            &b"\x01\0\0\0seig\0\0\0\0\0\0\0\x01\xff\xff\xff\xff\0\0\x01\x10\x10\x11\x12\x13\x14\x15\x16\x17\x18\x19\x1a\x1b\x1c\x1d\x1e\x1f"[..],
        ),
        (
            *b"sgpd",
            refused(ProtKind::IsProtected),
            &b"\x01\0\0\0seig\0\0\0\x04\0\0\0\x02\0\0\x02\x10"[..],
        ),
        (
            *b"sgpd",
            refused(ProtKind::IvSize),
            &b"\x01\0\0\0seig\0\0\0\x04\0\0\0\x02\0\0\x01\x09"[..],
        ),
    ] {
        assert!(rt; items_of(alloc, &box_of(kind, body), &no_sizes) == answer);
    }
    Ok(())
}

#[test]
fn samples_are_counted(rt: HostRuntime) -> Result<(), Fail> {
    let alloc = rt.alloc();
    for (sizes, answer, body) in [
        (&b""[..], Ok(Some(0)), &b"\0\0\0\0\0\0\0\0"[..]),
        (
            &b""[..],
            refused(ProtKind::CountDiffers),
            &b"\x01\0\0\0\0\0\0\x01"[..],
        ),
        (
            &b""[..],
            refused(ProtKind::CountDiffers),
            &b"\x02\0\0\0\xff\xff\xff\xff"[..],
        ),
        (
            &b"\x08"[..],
            refused(ProtKind::CountDiffers),
            &b"\0\0\0\0\0\0\0\0"[..],
        ),
        (
            &b"\x08"[..],
            Ok(Some(1)),
            &b"\x01\0\0\0\0\0\0\x01\x00\x11\x22\x33\x44\x55\x66\x77"[..],
        ),
        (
            &b"\x08"[..],
            Ok(Some(1)),
            &b"\x02\0\0\0\0\0\0\x01\x00\x11\x22\x33\x44\x55\x66\x77"[..],
        ),
        (
            &b"\x08"[..],
            refused(ProtKind::CountDiffers),
            &b"\0\0\0\x02\xff\xff\xff\xff"[..],
        ),
        // the count of subsamples
        (&b"\0"[..], Ok(Some(1)), &b"\0\0\0\x02\0\0\0\x01\0\0"[..]),
        (
            &b"\0"[..],
            Ok(Some(1)),
            &b"\0\0\0\x02\0\0\0\x01\0\x01\0\x04\0\0\0\x10"[..],
        ),
        (
            &b"\0"[..],
            refused(ProtKind::Short),
            &b"\0\0\0\x02\0\0\0\x01\xff\xff\0\x04\0\0\0\x10"[..],
        ),
    ] {
        let sizes = IvSizes::from_slice(alloc, sizes)?;
        assert!(rt; items_of(alloc, &box_of(*b"senc", body), &sizes) == answer);
    }
    Ok(())
}

#[test]
fn each_cut_of_a_scheme_is_refused(rt: HostRuntime) -> Result<(), Fail> {
    let body =
        b"\0\0\0\x0cfrmaavc1\0\0\0\x14schm\0\0\0\0cenc\0\x01\0\0\0\0\0\x28schi\0\0\0\x20tenc\0\0\0\0\0\0\x01\x08\x10\x11\x12\x13\x14\x15\x16\x17\x18\x19\x1a\x1b\x1c\x1d\x1e\x1f";
    for (from, to, kind, place) in [
        (0, 1, ProtKind::Scheme, 40),
        (1, 8, ProtKind::Short, 48),
        (8, 12, ProtKind::PastEnd, 48),
        (12, 13, ProtKind::Scheme, 40),
        (13, 20, ProtKind::Short, 60),
        (20, 32, ProtKind::PastEnd, 60),
        (32, 33, ProtKind::NoTenc, 40),
        (33, 40, ProtKind::Short, 80),
        (40, 72, ProtKind::PastEnd, 80),
    ] {
        assert!(rt; to <= body.len());
        for cut in from..to {
            let fault = ProtFault { place, kind };
            assert!(rt; read_sinf(&at(&body[..cut])) == Err(fault), "{cut} bytes");
        }
    }
    assert!(rt; read_sinf(&at(body)).is_ok());
    Ok(())
}

// The boxes of a fragment of two samples, the second protected by a group of its own.
fn put_fragment(alloc: Global, out: &mut Bytes) -> Result<(), Fail> {
    let tenc = Tenc {
        version: 0,
        crypt: 0,
        skip: 0,
        protected: false,
        iv_size: 0,
        kid: [0; 16],
        constant: None,
    };
    put_tenc(alloc, out, &tenc)?;
    put_schm(
        alloc,
        out,
        &Schm {
            kind: *b"cenc",
            version: 65536,
        },
    )?;
    let mut entries = Items::new(alloc);
    entries.push(SbgpItem { count: 1, index: 0 })?;
    entries.push(SbgpItem {
        count: 1,
        index: 0x10001,
    })?;
    put_sbgp(alloc, out, &Sbgp { entries })?;
    let mut entries = Items::new(alloc);
    entries.push(Seig {
        crypt: 0,
        skip: 0,
        protected: true,
        iv_size: 16,
        kid: KID,
        constant: None,
    })?;
    put_sgpd(alloc, out, &Sgpd { entries })?;
    let mut subs = Subs::new(alloc);
    subs.push(Sub { clear: 4, prot: 16 })?;
    let mut items = Items::new(alloc);
    items.push(SencItem {
        iv: None,
        subs: Subs::new(alloc),
    })?;
    items.push(SencItem {
        iv: Some(Iv::Sixteen(IV)),
        subs,
    })?;
    put_senc(alloc, out, &Senc { items, flag2: true })?;
    let sizes = Bytes::from_slice(alloc, &[2, 24])?;
    put_saiz(
        alloc,
        out,
        &Saiz {
            kind: None,
            default_size: 0,
            count: 2,
            sizes,
        },
    )?;
    let mut offsets = Items::new(alloc);
    offsets.push(0x123456789)?;
    put_saio(
        alloc,
        out,
        &Saio {
            kind: Some(*b"cenc"),
            offsets,
        },
    )?;
    Ok(())
}

#[test]
fn boxes_are_written_byte_for_byte(rt: HostRuntime) -> Result<(), Fail> {
    let mut out = Bytes::new(rt.alloc());
    put_fragment(rt.alloc(), &mut out)?;
    let expected =
        b"\x00\x00\x00\x20tenc\x00\x00\x00\x00\x00\x00\x00\x00\x00\x00\x00\x00\x00\x00\x00\x00\x00\x00\x00\x00\x00\x00\x00\x00\
        \x00\x00\x00\x14schm\x00\x00\x00\x00cenc\x00\x01\x00\x00\
        \x00\x00\x00\x24sbgp\x00\x00\x00\x00seig\x00\x00\x00\x02\x00\x00\x00\x01\x00\x00\x00\x00\x00\x00\x00\x01\x00\x01\x00\x01\
        \x00\x00\x00\x30sgpd\x01\x00\x00\x00seig\x00\x00\x00\x00\x00\x00\x00\x01\x00\x00\x00\x14\x00\x00\x01\x10\x10\x11\x12\x13\x14\x15\x16\x17\x18\x19\x1a\x1b\x1c\x1d\x1e\x1f\
        \x00\x00\x00\x2asenc\x00\x00\x00\x02\x00\x00\x00\x02\x00\x00\x00\x11\x22\x33\x44\x55\x66\x77\x88\x99\xaa\xbb\xcc\xdd\xee\xff\x00\x01\x00\x04\x00\x00\x00\x10\
        \x00\x00\x00\x13saiz\x00\x00\x00\x00\x00\x00\x00\x00\x02\x02\x18\
        \x00\x00\x00\x20saio\x01\x00\x00\x01cenc\x00\x00\x00\x00\x00\x00\x00\x01\x00\x00\x00\x01\x23\x45\x67\x89";
    assert_eq!(rt; out.as_slice(), expected.as_slice());
    Ok(())
}

#[test]
fn written_boxes_are_read_again(rt: HostRuntime) -> Result<(), Fail> {
    let alloc = rt.alloc();
    let mut out = Bytes::new(alloc);
    put_fragment(alloc, &mut out)?;
    let mut sizes = IvSizes::new(alloc);
    sizes.push(0)?;
    sizes.push(16)?;
    let mut boxes = Boxes::new(out.as_slice(), 0, true);
    for items in [1, 1, 2, 1, 2, 2, 1] {
        let Ok(Some(at)) = boxes.next_box() else {
            assert!(rt; false, "no box");
            return Ok(());
        };
        assert!(rt; items_of(alloc, &at, &sizes) == Ok(Some(items)));
    }
    assert!(rt; matches!(boxes.next_box(), Ok(None)));
    Ok(())
}

#[test]
fn schemes_are_read_and_refused(rt: HostRuntime) -> Result<(), Fail> {
    for (kind, place, body) in [
        (ProtKind::Scheme, 40, &b"\x00\x00\x00\x0cfrmaavc\x31"[..]),
        (
            ProtKind::Scheme,
            40,
            &b"\x00\x00\x00\x14schm\x00\x00\x00\x00cens\x00\x01\x00\x00\x00\x00\x00\x28schi\x00\x00\x00\x20tenc\x00\x00\x00\x00\x00\x00\x00\x00\x00\x00\x00\x00\x00\x00\x00\x00\x00\x00\x00\x00\x00\x00\x00\x00"[..],
        ),
        (
            ProtKind::NoTenc,
            40,
            &b"\x00\x00\x00\x14schm\x00\x00\x00\x00cenc\x00\x01\x00\x00"[..],
        ),
        (
            ProtKind::NoTenc,
            40,
            &b"\x00\x00\x00\x14schm\x00\x00\x00\x00cenc\x00\x01\x00\x00\x00\x00\x00\x08schi"[..],
        ),
        (
            ProtKind::IvSize,
            76,
            &b"\x00\x00\x00\x14schm\x00\x00\x00\x00cbcs\x00\x01\x00\x00\x00\x00\x00\x28schi\x00\x00\x00\x20tenc\x01\x00\x00\x00\x00\x19\x01\x08\x00\x00\x00\x00\x00\x00\x00\x00\x00\x00\x00\x00\x00\x00\x00\x00"[..],
        ),
        (
            ProtKind::IvSize,
            76,
            &b"\x00\x00\x00\x14schm\x00\x00\x00\x00cbcs\x00\x01\x00\x00\x00\x00\x00\x31schi\x00\x00\x00\x29tenc\x01\x00\x00\x00\x00\x19\x01\x00\x00\x00\x00\x00\x00\x00\x00\x00\x00\x00\x00\x00\x00\x00\x00\x00\x08\x00\x00\x00\x00\x00\x00\x00\x00"[..],
        ),
        (
            ProtKind::Pattern,
            76,
            &b"\x00\x00\x00\x14schm\x00\x00\x00\x00cbcs\x00\x01\x00\x00\x00\x00\x00\x28schi\x00\x00\x00\x20tenc\x01\x00\x00\x00\x00\x09\x01\x10\x00\x00\x00\x00\x00\x00\x00\x00\x00\x00\x00\x00\x00\x00\x00\x00"[..],
        ),
        (
            ProtKind::IsProtected,
            76,
            &b"\x00\x00\x00\x14schm\x00\x00\x00\x00cens\x00\x01\x00\x00\x00\x00\x00\x28schi\x00\x00\x00\x20tenc\x01\x00\x00\x00\x00\x09\x02\x10\x00\x00\x00\x00\x00\x00\x00\x00\x00\x00\x00\x00\x00\x00\x00\x00"[..],
        ),
        (
            ProtKind::SizeTooSmall,
            68,
            &b"\x00\x00\x00\x14schm\x00\x00\x00\x00cenc\x00\x01\x00\x00\x00\x00\x00\x00free"[..],
        ),
        (
            ProtKind::PastEnd,
            76,
            &b"\x00\x00\x00\x14schm\x00\x00\x00\x00cenc\x00\x01\x00\x00\x00\x00\x00\x10schi\x00\x00\x00\x20tenc"[..],
        ),
        (
            ProtKind::Short,
            68,
            &b"\x00\x00\x00\x14schm\x00\x00\x00\x00cenc\x00\x01\x00\x00\x00\x00\x00"[..],
        ),
        (
            ProtKind::Short,
            48,
            &b"\x00\x00\x00\x10schm\x00\x00\x00\x00cenc"[..],
        ),
    ] {
        let fault = ProtFault { place, kind };
        assert!(rt; body.len() < 4096);
        assert!(rt; read_sinf(&at(body)) == Err(fault), "{kind:?} at {place}");
    }
    let constant = Some(Iv::Sixteen(
        *b"\x00\x01\x02\x03\x04\x05\x06\x07\x08\x09\x0a\x0b\x0c\x0d\x0e\x0f",
    ));
    let tenc = Tenc {
        version: 1,
        crypt: 1,
        skip: 9,
        protected: true,
        iv_size: 0,
        kid: [0; 16],
        constant,
    };
    let sinf = Sinf {
        scheme: Scheme::Cbcs,
        tenc,
    };
    let mut out = Bytes::new(rt.alloc());
    put_sinf(rt.alloc(), &mut out, &sinf)?;
    let expected =
        b"\x00\x00\x00asinf\x00\x00\x00\x0cfrmaavc\x31\x00\x00\x00\x14schm\x00\x00\x00\x00cbcs\x00\x01\x00\x00\x00\x00\x00\x39schi\x00\x00\x00\x31tenc\x01\x00\x00\x00\x00\x19\x01\x00\x00\x00\x00\x00\x00\x00\x00\x00\x00\x00\x00\x00\x00\x00\x00\x00\x10\x00\x01\x02\x03\x04\x05\x06\x07\x08\x09\x0a\x0b\x0c\x0d\x0e\x0f";
    assert_eq!(rt; out.as_slice(), expected.as_slice());
    let Ok(Some(written)) = Boxes::new(out.as_slice(), 0, true).next_box() else {
        assert!(rt; false, "no box");
        return Ok(());
    };
    assert!(rt; read_sinf(&written) == Ok(sinf));
    Ok(())
}
