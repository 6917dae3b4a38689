use crate::{MediaFault, MediaKind, MediaReader, parse_media};
use eme_types::{
    Bytes, Fragment, InitData, InitKind, Items, Iv, Media, Scheme, Sub, Subs, TrackPart,
};
use iso_boxes::{put_box, put_bytes, put_u32};
use prot_boxes::{
    Saio, Saiz, Sbgp, SbgpItem, Seig, Senc, SencItem, Sgpd, Sinf, Tenc, put_saio, put_saiz,
    put_sbgp, put_senc, put_sgpd, put_sinf,
};
use std::alloc::Global;
use std::test::Fail;

const KID: [u8; 16] = *b"\x10\x11\x12\x13\x14\x15\x16\x17\x18\x19\x1a\x1b\x1c\x1d\x1e\x1f";

const IV: [u8; 16] = *b"\x00\x11\x22\x33\x44\x55\x66\x77\x88\x99\xaa\xbb\xcc\xdd\xee\xff";

// A box around boxes that were written.
fn around(alloc: Global, kind: [u8; 4], inside: &Bytes) -> Result<Bytes, Fail> {
    let mut out = Bytes::new(alloc);
    put_box(alloc, &mut out, kind, inside.as_slice())?;
    Ok(out)
}

// A sample entry that says 'not protected', inside its boxes up to mdia.
fn put_entry(alloc: Global, trak: &mut Bytes) -> Result<(), Fail> {
    let tenc = Tenc {
        version: 0,
        crypt: 0,
        skip: 0,
        protected: false,
        iv_size: 0,
        kid: [0; 16],
        constant: None,
    };
    let scheme = Scheme::Cenc;
    let mut entry = Bytes::from_slice(alloc, &[0; 78])?;
    put_sinf(alloc, &mut entry, &Sinf { scheme, tenc })?;
    let mut stsd = Bytes::from_slice(alloc, b"\0\0\0\0\0\0\0\x01")?;
    put_box(alloc, &mut stsd, *b"encv", entry.as_slice())?;
    let stbl = around(alloc, *b"stsd", &stsd)?;
    let minf = around(alloc, *b"stbl", &stbl)?;
    let mdia = around(alloc, *b"minf", &minf)?;
    put_box(alloc, trak, *b"mdia", mdia.as_slice())?;
    Ok(())
}

// A movie of one track with its trex, with these boxes before and behind the trak.
fn put_movie(alloc: Global, out: &mut Bytes, before: &[u8], behind: &[u8]) -> Result<(), Fail> {
    let mut trak = Bytes::new(alloc);
    let tkhd = b"\0\0\0\0\0\0\0\0\0\0\0\0\0\0\0\x01";
    put_box(alloc, &mut trak, *b"tkhd", tkhd)?;
    put_entry(alloc, &mut trak)?;
    let trex = b"\0\0\0\0\0\0\0\x01\0\0\0\x01\0\0\0\0\0\0\0\0\0\0\0\0";
    let mut mvex = Bytes::new(alloc);
    put_box(alloc, &mut mvex, *b"trex", trex)?;
    let mut moov = Bytes::from_slice(alloc, before)?;
    put_box(alloc, &mut moov, *b"trak", trak.as_slice())?;
    put_bytes(&mut moov, behind)?;
    put_box(alloc, &mut moov, *b"mvex", mvex.as_slice())?;
    put_box(alloc, out, *b"moov", moov.as_slice())?;
    Ok(())
}

// The groups of two samples, the second protected by a group of its own.
fn put_groups(alloc: Global, traf: &mut Bytes) -> Result<(), Fail> {
    let mut entries = Items::new(alloc);
    entries.push(SbgpItem { count: 1, index: 0 })?;
    entries.push(SbgpItem {
        count: 1,
        index: 0x10001,
    })?;
    put_sbgp(alloc, traf, &Sbgp { entries })?;
    let mut entries = Items::new(alloc);
    entries.push(Seig {
        crypt: 0,
        skip: 0,
        protected: true,
        iv_size: 16,
        kid: KID,
        constant: None,
    })?;
    put_sgpd(alloc, traf, &Sgpd { entries })?;
    Ok(())
}

// The body of the senc: no subsamples for the first sample, an IV and the pair 4+16 for the second.
fn senc_body(alloc: Global) -> Result<Bytes, Fail> {
    let mut subs = Subs::new(alloc);
    subs.push(Sub { clear: 4, prot: 16 })?;
    let mut items = Items::new(alloc);
    items.push(SencItem {
        iv: None,
        subs: Subs::new(alloc),
    })?;
    items.push(SencItem {
        iv: Some(Iv::Sixteen(IV)),
        subs,
    })?;
    let mut out = Bytes::new(alloc);
    put_senc(alloc, &mut out, &Senc { items, flag2: true })?;
    match out.as_slice().split_at_checked(8) {
        Some((_, body)) => Ok(Bytes::from_slice(alloc, body)?),
        None => Ok(Bytes::new(alloc)),
    }
}

// The sizes of the auxiliary data, and its place: the first byte behind the count of the senc.
fn put_auxiliary(alloc: Global, traf: &mut Bytes) -> Result<(), Fail> {
    let sizes = Bytes::from_slice(alloc, &[2, 24])?;
    put_saiz(
        alloc,
        traf,
        &Saiz {
            kind: None,
            default_size: 0,
            count: 2,
            sizes,
        },
    )?;
    let kind = None;
    let mut offsets = Items::new(alloc);
    offsets.push(160)?;
    put_saio(alloc, traf, &Saio { kind, offsets })?;
    Ok(())
}

// A movie fragment of two samples, whose data stands so far behind it, with these boxes at its end.
fn put_fragment(
    alloc: Global,
    out: &mut Bytes,
    senc: ([u8; 4], &[u8]),
    data: u32,
    behind: &[u8],
) -> Result<(), Fail> {
    let mut traf = Bytes::new(alloc);
    put_box(alloc, &mut traf, *b"tfhd", b"\0\x02\0\0\0\0\0\x01")?;
    let mut trun = Bytes::from_slice(alloc, b"\0\0\x02\x01\0\0\0\x02")?;
    put_u32(&mut trun, data)?;
    put_bytes(&mut trun, b"\0\0\0\x02\0\0\0\x14")?;
    put_box(alloc, &mut traf, *b"trun", trun.as_slice())?;
    put_groups(alloc, &mut traf)?;
    put_box(alloc, &mut traf, senc.0, senc.1)?;
    put_auxiliary(alloc, &mut traf)?;
    let mut moof = around(alloc, *b"traf", &traf)?;
    put_bytes(&mut moof, behind)?;
    put_box(alloc, out, *b"moof", moof.as_slice())?;
    let samples = b"\xaa\xbb\x0a\x0b\x0c\x0d\0\0\0\0\0\0\0\0\0\0\0\0\0\0\0\0";
    put_box(alloc, out, *b"mdat", samples)?;
    Ok(())
}

// moov, moof and mdat of 286, 229 and 30 bytes.
fn file_of(alloc: Global, senc: &[u8], data: u32) -> Result<Bytes, Fail> {
    let mut out = Bytes::new(alloc);
    put_movie(alloc, &mut out, b"", b"")?;
    put_fragment(alloc, &mut out, (*b"senc", senc), data, b"")?;
    Ok(out)
}

fn is_refused(alloc: Global, file: &[u8], place: u64, kind: MediaKind) -> bool {
    match parse_media(alloc, file) {
        Err(fault) => fault == MediaFault::Refused { place, kind },
        Ok(_) => false,
    }
}

fn are_inits(inits: &[InitData], texts: &[&[u8]]) -> bool {
    if inits.len() != texts.len() {
        return false;
    }
    for (init, text) in inits.iter().zip(texts.iter()) {
        if init.kind != InitKind::Cenc || init.bytes.as_slice() != *text {
            return false;
        }
    }
    true
}

// The first sample is clear, the second has the IV and the pair.
fn is_the_part(part: &TrackPart) -> bool {
    let [first, second] = part.samples.as_slice() else {
        return false;
    };
    let Some(protect) = &second.protect else {
        return false;
    };
    let [sub] = protect.subs.as_slice() else {
        return false;
    };
    part.track == 1
        && first.protect.is_none()
        && first.bytes.as_slice() == b"\xaa\xbb".as_slice()
        && second.bytes.as_slice() == b"\x0a\x0b\x0c\x0d\0\0\0\0\0\0\0\0\0\0\0\0\0\0\0\0".as_slice()
        && protect.scheme == Scheme::Cenc
        && protect.kid.bytes() == KID.as_slice()
        && protect.iv == Iv::Sixteen(IV)
        && *sub == (Sub { clear: 4, prot: 16 })
}

fn is_the_fragment(fragment: &Fragment, inits: &[&[u8]]) -> bool {
    match fragment.parts.as_slice() {
        [part] => is_the_part(part) && are_inits(fragment.inits.as_slice(), inits),
        _ => false,
    }
}

fn is_the_media(media: &Media) -> bool {
    let [first, second] = media.fragments.as_slice() else {
        return false;
    };
    let of_movie = b"\0\0\0\x09psshA\0\0\0\x0apsshBB".as_slice();
    let of_first = b"\0\0\0\x08pssh".as_slice();
    media.tracks.as_slice() == [1].as_slice()
        && is_the_fragment(first, &[of_movie, of_first])
        && is_the_fragment(second, &[])
}

#[test]
fn keys_change_within_a_fragment(rt: HostRuntime) -> Result<(), Fail> {
    let alloc = rt.alloc();
    let senc = senc_body(alloc)?;
    for kind in [*b"senc", *b"free"] {
        let mut file = Bytes::from_slice(alloc, b"\0\0\0\x08ftyp")?;
        let (first, second) = (b"\0\0\0\x09psshA", b"\0\0\0\x0apsshBB");
        put_movie(alloc, &mut file, first, second)?;
        let senc = (kind, senc.as_slice());
        put_fragment(alloc, &mut file, senc, 245, b"\0\0\0\x08pssh")?;
        put_fragment(alloc, &mut file, senc, 237, b"")?;
        assert!(rt; is_the_media(&parse_media(alloc, file.as_slice())?));
    }
    Ok(())
}

#[test]
fn a_file_without_a_movie_is_empty(rt: HostRuntime) -> Result<(), Fail> {
    for file in [&b""[..], &b"\0\0\0\x08free"[..], &b"\0\0\0\x08moov"[..]] {
        let media = parse_media(rt.alloc(), file)?;
        assert_eq!(rt; (media.tracks.len(), media.fragments.len()), (0, 0));
    }
    Ok(())
}

#[test]
fn the_first_broken_box_is_refused(rt: HostRuntime) -> Result<(), Fail> {
    for (file, place, kind) in [
        (&b"\0\0\0\x08moof"[..], 0, MediaKind::NoMoov),
        (&b"\0\0\0\x08free\0\0\0\x08moof\0"[..], 8, MediaKind::NoMoov),
        (
            &b"\0\0\0\x08moov\0\0\0\x08moov"[..],
            8,
            MediaKind::SecondMoov,
        ),
        (&b"\0\0\0\x08moov\0\0\0\x09moov"[..], 8, MediaKind::PastEnd),
        (
            &b"\0\0\0\x08free\0\0\0\x07moof"[..],
            8,
            MediaKind::SizeTooSmall,
        ),
        (
            &b"\0\0\0\x10moov\0\0\0\x08trak\0"[..],
            8,
            MediaKind::NoTrackId,
        ),
        (&b"SMPL 1"[..], 0, MediaKind::Short),
        (&b"SMPL 2\n\n"[..], 0, MediaKind::PastEnd),
    ] {
        assert!(rt;
            is_refused(rt.alloc(), file, place, kind),
            "{kind:?} at {place}"
        );
    }
    Ok(())
}

// These bytes in place of others.
fn patched(alloc: Global, file: &[u8], bytes: &[(usize, u8)]) -> Result<Vec<u8>, Fail> {
    let mut out = file.to_vec(alloc)?;
    for (at, byte) in bytes {
        if let Some(old) = out.get_mut(*at) {
            *old = *byte;
        }
    }
    Ok(out)
}

// The movie of the file: trak at 8, tkhd at 16, stsd at 64, encv at 80, sinf at 166, schm at 186, schi at 206, tenc at 214, mvex
// at 246, trex at 254.
const MOVIE: [(&[(usize, u8)], u64, MediaKind); 15] = [
    (&[(228, 2)], 214, MediaKind::IsProtected),
    (&[(229, 7)], 214, MediaKind::IvSize),
    (&[(198, b'x')], 166, MediaKind::Scheme),
    (&[(218, b'x')], 166, MediaKind::NoTenc),
    (&[(20, b'x')], 8, MediaKind::NoTrackId),
    // the mvex as a second trak, the trex as its tkhd
    (
        &[
            (250, b't'),
            (251, b'r'),
            (252, b'a'),
            (253, b'k'),
            (259, b'k'),
            (260, b'h'),
            (261, b'd'),
            (277, 1),
        ],
        254,
        MediaKind::SecondTrack,
    ),
    (&[(87, b'x')], 80, MediaKind::EntryType),
    (&[(87, b'a'), (97, 1)], 80, MediaKind::AudioVersion),
    (&[(170, b'x')], 80, MediaKind::NoSinf),
    // the stsd as an stsz
    (&[(71, b'z')], 64, MediaKind::Progressive),
    (&[(258, b'x')], 302, MediaKind::NoTrex),
    (&[(273, 2)], 302, MediaKind::Description),
    (&[(7, b'x')], 286, MediaKind::NoMoov),
    (&[(293, b'v')], 286, MediaKind::SecondMoov),
    (&[(289, 7)], 286, MediaKind::SizeTooSmall),
];

// Its movie fragment: traf at 294, tfhd at 302, trun at 318, sbgp at 346, sgpd at 382, senc at 430, saiz at 472, saio at 491, and
// the mdat at 515.
const FRAGMENT: [(&[(usize, u8)], u64, MediaKind); 16] = [
    (&[(518, 31)], 515, MediaKind::PastEnd),
    (&[(333, 3)], 318, MediaKind::Short),
    (&[(390, 2)], 382, MediaKind::Version),
    (&[(413, 7)], 382, MediaKind::IvSize),
    // cbcs with a pattern that skips one block and encrypts none
    (
        &[(199, b'b'), (200, b'c'), (201, b's'), (411, 1)],
        430,
        MediaKind::Pattern,
    ),
    (&[(445, 3)], 430, MediaKind::CountDiffers),
    (&[(306, b'x')], 294, MediaKind::NoTfhd),
    (&[(317, 2)], 302, MediaKind::UnknownTrack),
    // samples without sizes of their own, one more than the limit
    (
        &[(328, 0), (331, 16), (333, 1)],
        318,
        MediaKind::TooManySamples,
    ),
    (&[(342, 5)], 318, MediaKind::TooManyBytes),
    (&[(345, 21)], 318, MediaKind::DataPastEnd),
    (&[(381, 2)], 346, MediaKind::GroupIndex),
    // without the senc
    (&[(434, b'x'), (490, 23)], 472, MediaKind::AuxSize),
    (&[(434, b'x'), (511, 1)], 491, MediaKind::OffsetPastEnd),
    (&[(434, b'x'), (476, b'x')], 294, MediaKind::NoAux),
    (&[(471, 15)], 430, MediaKind::SubsSum),
];

#[test]
fn each_rule_of_a_movie_is_told_with_its_place(rt: HostRuntime) -> Result<(), Fail> {
    let alloc = rt.alloc();
    let good = file_of(alloc, senc_body(alloc)?.as_slice(), 237)?;
    for (bytes, place, kind) in MOVIE {
        let file = patched(alloc, good.as_slice(), bytes)?;
        assert!(rt;
            is_refused(alloc, file.as_slice(), place, kind),
            "{kind:?} at {place}"
        );
    }
    Ok(())
}

#[test]
fn each_rule_of_a_fragment_is_told_with_its_place(rt: HostRuntime) -> Result<(), Fail> {
    let alloc = rt.alloc();
    let good = file_of(alloc, senc_body(alloc)?.as_slice(), 237)?;
    for (bytes, place, kind) in FRAGMENT {
        let file = patched(alloc, good.as_slice(), bytes)?;
        assert!(rt;
            is_refused(alloc, file.as_slice(), place, kind),
            "{kind:?} at {place}"
        );
    }
    Ok(())
}

#[test]
fn a_senc_of_another_length_is_refused(rt: HostRuntime) -> Result<(), Fail> {
    let alloc = rt.alloc();
    let many =
        b"\0\0\0\x02\xff\xff\xff\xff\0\0\x00\x11\x22\x33\x44\x55\x66\x77\x88\x99\xaa\xbb\xcc\xdd\xee\xff\0\x01\0\x04\0\0\0\x10";
    let short =
        b"\0\0\0\x02\0\0\0\x02\0\0\x00\x11\x22\x33\x44\x55\x66\x77\x88\x99\xaa\xbb\xcc\xdd\xee\xff\0\x01\0\x04\0\0";
    for (senc, data, kind) in [
        (&many[..], 237, MediaKind::CountDiffers),
        (&short[..], 235, MediaKind::Short),
    ] {
        let file = file_of(alloc, senc, data)?;
        assert!(rt; is_refused(alloc, file.as_slice(), 430, kind), "{kind:?}");
    }
    Ok(())
}

#[test]
fn the_room_is_that_of_all_fragments(rt: HostRuntime) -> Result<(), Fail> {
    let alloc = rt.alloc();
    let mut file = file_of(alloc, senc_body(alloc)?.as_slice(), 237)?;
    // 2 samples before it, and 1048575 more
    let mut traf = Bytes::new(alloc);
    put_box(alloc, &mut traf, *b"tfhd", b"\0\x02\0\0\0\0\0\x01")?;
    put_box(alloc, &mut traf, *b"trun", b"\0\0\0\0\0\x0f\xff\xff")?;
    let moof = around(alloc, *b"traf", &traf)?;
    put_box(alloc, &mut file, *b"moof", moof.as_slice())?;
    assert!(rt; is_refused(alloc, file.as_slice(), 577, MediaKind::TooManySamples));
    Ok(())
}

#[test]
fn a_file_that_is_cut_is_refused(rt: HostRuntime) -> Result<(), Fail> {
    let alloc = rt.alloc();
    let file = file_of(alloc, senc_body(alloc)?.as_slice(), 237)?;
    let bytes = file.as_slice();
    assert_eq!(rt; bytes.len(), 545);
    for n in 0..bytes.len() {
        let good = parse_media(alloc, &bytes[..n]).is_ok();
        assert!(rt; good == (n == 0 || n == 286), "cut after {n} bytes");
    }
    Ok(())
}

fn is_refused_next(reader: &mut MediaReader<'_>, place: u64, kind: MediaKind) -> bool {
    match reader.next_fragment() {
        Err(fault) => fault == MediaFault::Refused { place, kind },
        Ok(_) => false,
    }
}

fn is_given_next(reader: &mut MediaReader<'_>, inits: &[&[u8]]) -> Result<bool, Fail> {
    match reader.next_fragment()? {
        Some(fragment) => Ok(is_the_fragment(&fragment, inits)),
        None => Ok(false),
    }
}

fn is_at_end(reader: &mut MediaReader<'_>) -> Result<bool, Fail> {
    Ok(reader.next_fragment()?.is_none())
}

// The two fragments of a file, the second with its data so far behind it.
fn two_fragments(alloc: Global, data: u32) -> Result<Bytes, Fail> {
    let senc = senc_body(alloc)?;
    let senc = (*b"senc", senc.as_slice());
    let mut file = Bytes::new(alloc);
    put_movie(alloc, &mut file, b"\0\0\0\x09psshA", b"")?;
    put_fragment(alloc, &mut file, senc, 245, b"\0\0\0\x08pssh")?;
    put_fragment(alloc, &mut file, senc, data, b"")?;
    Ok(file)
}

#[test]
fn fragments_are_read_one_by_one(rt: HostRuntime) -> Result<(), Fail> {
    let file = two_fragments(rt.alloc(), 237)?;
    let mut reader = MediaReader::open(rt.alloc(), file.as_slice())?;
    assert_eq!(rt; reader.tracks().as_slice(), [1].as_slice());
    let first = [b"\0\0\0\x09psshA".as_slice(), b"\0\0\0\x08pssh"];
    assert!(rt; is_given_next(&mut reader, &first)?);
    assert!(rt; is_given_next(&mut reader, &[])?);
    assert!(rt; is_at_end(&mut reader)?);
    assert!(rt; is_at_end(&mut reader)?);
    Ok(())
}

// The second moof stands at 562, behind a movie of 295 bytes, the first moof of 237 and its mdat of 30; its trun at 594.
#[test]
fn the_fragments_before_a_broken_one_are_given(rt: HostRuntime) -> Result<(), Fail> {
    let file = two_fragments(rt.alloc(), 238)?;
    let kind = MediaKind::DataPastEnd;
    assert!(rt; is_refused(rt.alloc(), file.as_slice(), 594, kind));
    let mut reader = MediaReader::open(rt.alloc(), file.as_slice())?;
    let first = [b"\0\0\0\x09psshA".as_slice(), b"\0\0\0\x08pssh"];
    assert!(rt; is_given_next(&mut reader, &first)?);
    assert!(rt; is_refused_next(&mut reader, 594, kind));
    assert!(rt; is_refused_next(&mut reader, 594, kind));
    Ok(())
}
