use crate::{AuxFault, AuxKind, Room, check_movie, init_data_of, resolve};
use eme_types::{Bytes, Fragment, InitKind, Items, Iv, Scheme, Sub, Subs};
use frag_boxes::{Moof, Movie, Span, read_moof, read_moov};
use iso_boxes::{Boxes, put_box, put_bytes, put_u32};
use prot_boxes::{
    Saio, Saiz, Sbgp, SbgpItem, Seig, Senc, SencItem, Sgpd, Sinf, Tenc, put_saio, put_saiz,
    put_sbgp, put_senc, put_sgpd, put_sinf,
};
use std::alloc::Global;
use std::test::Fail;

const KID: [u8; 16] = *b"\x10\x11\x12\x13\x14\x15\x16\x17\x18\x19\x1a\x1b\x1c\x1d\x1e\x1f";

const IV: [u8; 16] = *b"\x00\x11\x22\x33\x44\x55\x66\x77\x88\x99\xaa\xbb\xcc\xdd\xee\xff";

// A box around boxes that were written.
fn around(alloc: Global, kind: [u8; 4], inside: &Bytes) -> Result<Bytes, Fail> {
    let mut out = Bytes::new(alloc);
    put_box(alloc, &mut out, kind, inside.as_slice())?;
    Ok(out)
}

// A movie of one track, whose sample entry says 'not protected', with its trex.
fn put_movie(alloc: Global, out: &mut Bytes) -> Result<(), Fail> {
    let tenc = Tenc {
        version: 0,
        crypt: 0,
        skip: 0,
        protected: false,
        iv_size: 0,
        kid: [0; 16],
        constant: None,
    };
    let mut entry = Bytes::from_slice(alloc, &[0; 78])?;
    put_sinf(
        alloc,
        &mut entry,
        &Sinf {
            scheme: Scheme::Cenc,
            tenc,
        },
    )?;
    let mut stsd = Bytes::from_slice(alloc, b"\0\0\0\0\0\0\0\x01")?;
    put_box(alloc, &mut stsd, *b"encv", entry.as_slice())?;
    let stbl = around(alloc, *b"stsd", &stsd)?;
    let minf = around(alloc, *b"stbl", &stbl)?;
    let mdia = around(alloc, *b"minf", &minf)?;
    let mut trak = Bytes::new(alloc);
    put_box(
        alloc,
        &mut trak,
        *b"tkhd",
        b"\0\0\0\0\0\0\0\0\0\0\0\0\0\0\0\x01",
    )?;
    put_box(alloc, &mut trak, *b"mdia", mdia.as_slice())?;
    let trex = b"\0\0\0\0\0\0\0\x01\0\0\0\x01\0\0\0\0\0\0\0\0\0\0\0\0";
    let mut mvex = Bytes::new(alloc);
    put_box(alloc, &mut mvex, *b"trex", trex)?;
    let mut moov = around(alloc, *b"trak", &trak)?;
    put_box(alloc, &mut moov, *b"mvex", mvex.as_slice())?;
    put_box(alloc, out, *b"moov", moov.as_slice())?;
    Ok(())
}

// The groups of two samples, the second protected by a group of its own.
fn put_groups(alloc: Global, traf: &mut Bytes) -> Result<(), Fail> {
    let mut entries = Items::new(alloc);
    entries.push(SbgpItem { count: 1, index: 0 })?;
    entries.push(SbgpItem {
        count: 1,
        index: 0x10001,
    })?;
    put_sbgp(alloc, traf, &Sbgp { entries })?;
    let mut entries = Items::new(alloc);
    entries.push(Seig {
        crypt: 0,
        skip: 0,
        protected: true,
        iv_size: 16,
        kid: KID,
        constant: None,
    })?;
    put_sgpd(alloc, traf, &Sgpd { entries })?;
    Ok(())
}

// The body of the senc: no subsamples for the first sample, an IV and the pair 4+16 for the second.
fn senc_body(alloc: Global) -> Result<Bytes, Fail> {
    let mut subs = Subs::new(alloc);
    subs.push(Sub { clear: 4, prot: 16 })?;
    let mut items = Items::new(alloc);
    items.push(SencItem {
        iv: None,
        subs: Subs::new(alloc),
    })?;
    items.push(SencItem {
        iv: Some(Iv::Sixteen(IV)),
        subs,
    })?;
    let mut out = Bytes::new(alloc);
    put_senc(alloc, &mut out, &Senc { items, flag2: true })?;
    match out.as_slice().split_at_checked(8) {
        Some((_, body)) => Ok(Bytes::from_slice(alloc, body)?),
        None => Ok(Bytes::new(alloc)),
    }
}

// A movie fragment of two samples. Its saio has the place of the first byte behind the count of the senc.
fn put_fragment(
    alloc: Global,
    out: &mut Bytes,
    kind: [u8; 4],
    senc: &[u8],
    data: u32,
) -> Result<(), Fail> {
    let mut traf = Bytes::new(alloc);
    put_box(alloc, &mut traf, *b"tfhd", b"\0\x02\0\0\0\0\0\x01")?;
    let mut trun = Bytes::from_slice(alloc, b"\0\0\x02\x01\0\0\0\x02")?;
    put_u32(&mut trun, data)?;
    put_bytes(&mut trun, b"\0\0\0\x02\0\0\0\x14")?;
    put_box(alloc, &mut traf, *b"trun", trun.as_slice())?;
    put_groups(alloc, &mut traf)?;
    put_box(alloc, &mut traf, kind, senc)?;
    let sizes = Bytes::from_slice(alloc, &[2, 24])?;
    put_saiz(
        alloc,
        &mut traf,
        &Saiz {
            kind: None,
            default_size: 0,
            count: 2,
            sizes,
        },
    )?;
    let mut offsets = Items::new(alloc);
    offsets.push(160)?;
    put_saio(
        alloc,
        &mut traf,
        &Saio {
            kind: None,
            offsets,
        },
    )?;
    let moof = around(alloc, *b"traf", &traf)?;
    put_box(alloc, out, *b"moof", moof.as_slice())?;
    Ok(())
}

fn file_of(alloc: Global, kind: [u8; 4], senc: &[u8], data: u32) -> Result<Bytes, Fail> {
    let mut out = Bytes::new(alloc);
    put_movie(alloc, &mut out)?;
    put_fragment(alloc, &mut out, kind, senc, data)?;
    put_box(
        alloc,
        &mut out,
        *b"mdat",
        b"\xaa\xbb\x0a\x0b\x0c\x0d\0\0\0\0\0\0\0\0\0\0\0\0\0\0\0\0",
    )?;
    Ok(out)
}

// The movie and the first movie fragment of a file.
fn boxes_of(alloc: Global, file: &[u8]) -> Option<(Movie, Moof)> {
    let mut boxes = Boxes::new(file, 0, true);
    let (Ok(Some(moov)), Ok(Some(moof))) = (boxes.next_box(), boxes.next_box()) else {
        return None;
    };
    match (read_moov(alloc, &moov), read_moof(alloc, &moof)) {
        (Ok(movie), Ok(moof)) => Some((movie, moof)),
        _ => None,
    }
}

// The samples of the file, within this room.
fn resolved(alloc: Global, file: &[u8], room: Room) -> Option<Result<Fragment, AuxFault>> {
    let (movie, moof) = boxes_of(alloc, file)?;
    if check_movie(alloc, file, &movie).is_err() {
        return None;
    }
    Some(resolve(alloc, file, &movie, &moof, room))
}

fn room(samples: u32, bytes: u64) -> Room {
    Room { samples, bytes }
}

// The first sample is clear, the second has the IV and the pair.
fn is_the_fragment(fragment: &Fragment) -> bool {
    let [part] = fragment.parts.as_slice() else {
        return false;
    };
    let [first, second] = part.samples.as_slice() else {
        return false;
    };
    let Some(protect) = &second.protect else {
        return false;
    };
    let [sub] = protect.subs.as_slice() else {
        return false;
    };
    fragment.inits.len() == 0
        && part.track == 1
        && first.protect.is_none()
        && first.bytes.as_slice() == b"\xaa\xbb".as_slice()
        && second.bytes.as_slice() == b"\x0a\x0b\x0c\x0d\0\0\0\0\0\0\0\0\0\0\0\0\0\0\0\0".as_slice()
        && protect.scheme == Scheme::Cenc
        && protect.kid.bytes() == KID.as_slice()
        && protect.iv == Iv::Sixteen(IV)
        && *sub == (Sub { clear: 4, prot: 16 })
}

#[test]
fn keys_change_within_a_fragment(rt: HostRuntime) -> Result<(), Fail> {
    let alloc = rt.alloc();
    let senc = senc_body(alloc)?;
    for kind in [*b"senc", *b"free"] {
        let file = file_of(alloc, kind, senc.as_slice(), 237)?;
        let Some(Ok(fragment)) = resolved(alloc, file.as_slice(), room(2, 22)) else {
            assert!(rt; false, "the samples of two boxes");
            return Ok(());
        };
        assert!(rt; is_the_fragment(&fragment));
    }
    Ok(())
}

fn is_fault(answer: Option<Result<Fragment, AuxFault>>, place: u64, kind: AuxKind) -> bool {
    match answer {
        Some(Err(fault)) => fault == AuxFault { place, kind },
        _ => false,
    }
}

#[test]
fn refusals_have_their_place(rt: HostRuntime) -> Result<(), Fail> {
    let alloc = rt.alloc();
    let whole =
        b"\0\0\0\x02\0\0\0\x02\0\0\x00\x11\x22\x33\x44\x55\x66\x77\x88\x99\xaa\xbb\xcc\xdd\xee\xff\0\x01\0\x04\0\0\0\x10";
    let many =
        b"\0\0\0\x02\xff\xff\xff\xff\0\0\x00\x11\x22\x33\x44\x55\x66\x77\x88\x99\xaa\xbb\xcc\xdd\xee\xff\0\x01\0\x04\0\0\0\x10";
    let other =
        b"\0\0\0\x02\0\0\0\x02\0\0\x00\x11\x22\x33\x44\x55\x66\x77\x88\x99\xaa\xbb\xcc\xdd\xee\xff\0\x01\0\x04\0\0\0\x0f";
    for (senc, data, space, place, kind) in [
        (&many[..], 237, room(2, 22), 430, AuxKind::CountDiffers),
        (&whole[..32], 235, room(2, 22), 430, AuxKind::Short),
        (&other[..], 237, room(2, 22), 430, AuxKind::SubsSum),
        (&whole[..], 237, room(1, 22), 318, AuxKind::TooManySamples),
        (&whole[..], 237, room(2, 21), 318, AuxKind::TooManyBytes),
        (&whole[..], 238, room(2, 22), 318, AuxKind::DataPastEnd),
    ] {
        let file = file_of(alloc, *b"senc", senc, data)?;
        let answer = resolved(alloc, file.as_slice(), space);
        assert!(rt; is_fault(answer, place, kind), "{kind:?} at {place}");
    }
    Ok(())
}

#[test]
fn pssh_boxes_make_one_initialization_data(rt: HostRuntime) -> Result<(), Fail> {
    let alloc = rt.alloc();
    let file = b"\0\0\0\x09psshA\0\0\0\x08free\0\0\0\x0apsshBB".as_slice();
    let psshs = [
        Span {
            place: 0,
            body_place: 8,
            len: 1,
        },
        Span {
            place: 17,
            body_place: 25,
            len: 2,
        },
    ];
    let inits = init_data_of(alloc, file, &psshs)?;
    let [init] = inits.as_slice() else {
        assert!(rt; false, "one initialization data");
        return Ok(());
    };
    let both = b"\0\0\0\x09psshA\0\0\0\x0apsshBB".as_slice();
    assert!(rt; init.kind == InitKind::Cenc && init.bytes.as_slice() == both);
    assert_eq!(rt; init_data_of(alloc, file, &[])?.len(), 0);
    Ok(())
}
