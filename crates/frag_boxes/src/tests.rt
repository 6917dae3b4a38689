ghost use Rattle.std.specs.Prelude.{◌≡◌};

use crate::{FragFault, FragKind, RunItem, Span, Tfhd, Trex, read_moof, read_moov};
use eme_types::{Bytes, Items};
use iso_boxes::{BoxRef, PutFault, put_box};
use std::alloc::Global;
use std::test::Fail;

fn at(body: &[u8]) -> BoxRef<'_>
    ensures place { result.body_place ≡ 48 }
    ensures body { result.body.now ≡ body.now }
{
    BoxRef {
        kind: *b"test",
        place: 40,
        body,
        body_place: 48,
    }
}

fn is_moov_fault(alloc: Global, body: &[u8], place: u64, kind: FragKind) -> bool {
    match read_moov(alloc, &at(body)) {
        Ok(_) => false,
        Err(fault) => fault == FragFault { place, kind },
    }
}

#[test]
fn a_packaged_movie_is_read(rt: HostRuntime) -> Result<(), Fail> {
    let Ok(movie) = read_moov(
        rt.alloc(),
        &at(
            b"\x00\x00\x01\x14trak\x00\x00\x00\x18tkhd\x00\x00\x00\x00\x00\x00\x00\x00\x00\x00\x00\x00\x00\x00\x00\x01\x00\x00\x00\xf4mdia\x00\x00\x00\xecminf\x00\x00\x00\xe4stbl\x00\x00\x00\xbcstsd\x00\x00\x00\x00\x00\x00\x00\x02\x00\x00\x00\x5eencv\x00\x00\x00\x00\x00\x00\x00\x00\x00\x00\x00\x00\x00\x00\x00\x00\x00\x00\x00\x00\x00\x00\x00\x00\x00\x00\x00\x00\x00\x00\x00\x00\x00\x00\x00\x00\x00\x00\x00\x00\x00\x00\x00\x00\x00\x00\x00\x00\x00\x00\x00\x00\x00\x00\x00\x00\x00\x00\x00\x00\x00\x00\x00\x00\x00\x00\x00\x00\x00\x00\x00\x00\x00\x00\x00\x00\x00\x00\x00\x00\x00\x08sinf\x00\x00\x00Navc1\x00\x00\x00\x00\x00\x00\x00\x00\x00\x00\x00\x00\x00\x00\x00\x00\x00\x00\x00\x00\x00\x00\x00\x00\x00\x00\x00\x00\x00\x00\x00\x00\x00\x00\x00\x00\x00\x00\x00\x00\x00\x00\x00\x00\x00\x00\x00\x00\x00\x00\x00\x00\x00\x00\x00\x00\x00\x00\x00\x00\x00\x00\x00\x00\x00\x00\x00\x00\x00\x00\x00\x00\x00\x14stsz\x00\x00\x00\x00\x00\x00\x00\x00\x00\x00\x00\x00\x00\x00\x00\x0csgpd\x00\x00\x00\x07\x00\x00\x00hmvex\x00\x00\x00\x20trex\x00\x00\x00\x00\x00\x00\x00\x02\x00\x00\x00\x09\x00\x00\x00\x02\x00\x00\x00\x03\x00\x00\x00\x04\x00\x00\x00\x20trex\x00\x00\x00\x00\x00\x00\x00\x01\x00\x00\x00\x01\x00\x00\x00\x02\x00\x00\x00\x03\x00\x00\x00\x04\x00\x00\x00\x20trex\x00\x00\x00\x00\x00\x00\x00\x01\x00\x00\x00\x08\x00\x00\x00\x02\x00\x00\x00\x03\x00\x00\x00\x04\x00\x00\x00\x09psshx\x00\x00\x00\x90trak\x00\x00\x00\x18tkhd\x00\x00\x00\x00\x00\x00\x00\x00\x00\x00\x00\x00\x00\x00\x00\x02\x00\x00\x00pmdia\x00\x00\x00hminf\x00\x00\x00\x60stbl\x00\x00\x00Dstsd\x00\x00\x00\x00\x00\x00\x00\x01\x00\x00\x004enca\x00\x00\x00\x00\x00\x00\x00\x00\x00\x00\x00\x00\x00\x00\x00\x00\x00\x00\x00\x00\x00\x00\x00\x00\x00\x00\x00\x00\x00\x00\x00\x08sinf\x00\x00\x00\x08sinf\x00\x00\x00\x14stsz\x00\x00\x00\x00\x00\x00\x00\x00\x00\x00\x00\x00",
        ),
    ) else {
        assert!(rt; false, "a movie of two tracks");
        return Ok(());
    };
    assert!(rt; movie.place == 40);
    assert!(rt; movie.psshs.len() == 1);
    let [video, audio] = movie.tracks.as_slice() else {
        assert!(rt; false, "two tracks");
        return Ok(());
    };
    assert!(rt; video.id == 1 && video.place == 48);
    let [protected, clear] = video.entries.as_slice() else {
        assert!(rt; false, "two entries");
        return Ok(());
    };
    // trak 48, tkhd 56, mdia 80, minf 88, stbl 96, stsd 104, encv 120, sinf 206, avc1 214
    let sinf = Span {
        place: 206,
        body_place: 214,
        len: 0,
    };
    assert!(rt; protected.place == 120 && protected.sinfs.as_slice() == &[sinf][..]);
    assert!(rt; clear.place == 214 && clear.sinfs.len() == 0);
    assert!(rt; video.groups.len() == 1);
    assert!(rt; audio.id == 2 && audio.entries.len() == 1);
    let (Some(first), Some(second)) = (video.trex, audio.trex) else {
        assert!(rt; false, "each track has a trex");
        return Ok(());
    };
    assert!(rt;
        first.description == 1 && first.duration == 2 && first.size == 3 && first.flags == 4
    );
    assert!(rt; second.description == 9);
    Ok(())
}

#[test]
fn each_broken_rule_has_its_place(rt: HostRuntime) -> Result<(), Fail> {
    assert!(rt; is_moov_fault(rt.alloc(), b"\x00\x00", 48, FragKind::Short));
    assert!(rt;
        is_moov_fault(
            rt.alloc(),
            b"\x00\x00\x00\x07free",
            48,
            FragKind::SizeTooSmall
        )
    );
    assert!(rt; is_moov_fault(rt.alloc(), b"\x00\x00\x00\x09free", 48, FragKind::PastEnd));
    assert!(rt; is_moov_fault(rt.alloc(), b"\x00\x00\x00\x08trak", 48, FragKind::NoTrackId));
    assert!(rt;
        is_moov_fault(
            rt.alloc(),
            b"\x00\x00\x00\x20trak\x00\x00\x00\x18tkhd\x00\x00\x00\x00\x00\x00\x00\x00\x00\x00\x00\x00\x00\x00\x00\x01\x00\x00\x00\x20trak\x00\x00\x00\x18tkhd\x00\x00\x00\x00\x00\x00\x00\x00\x00\x00\x00\x00\x00\x00\x00\x01",
            88,
            FragKind::SecondTrack
        )
    );
    assert!(rt;
        is_moov_fault(
            rt.alloc(),
            b"\x00\x00\x00\x20trak\x00\x00\x00\x18tkhd\x00\x00\x00\x00\x00\x00\x00\x00\x00\x00\x00\x00\x00\x00\x00\x01\x00\x00\x00\x20trak\x00\x00\x00\x18tkhd\x00\x00\x00\x00\x00\x00\x00\x00\x00\x00\x00\x00\x00\x00\x00\x02\x00\x00\x00\x20trak\x00\x00\x00\x18tkhd\x00\x00\x00\x00\x00\x00\x00\x00\x00\x00\x00\x00\x00\x00\x00\x03\x00\x00\x00\x20trak\x00\x00\x00\x18tkhd\x00\x00\x00\x00\x00\x00\x00\x00\x00\x00\x00\x00\x00\x00\x00\x04\x00\x00\x00\x20trak\x00\x00\x00\x18tkhd\x00\x00\x00\x00\x00\x00\x00\x00\x00\x00\x00\x00\x00\x00\x00\x05\x00\x00\x00\x20trak\x00\x00\x00\x18tkhd\x00\x00\x00\x00\x00\x00\x00\x00\x00\x00\x00\x00\x00\x00\x00\x06\x00\x00\x00\x20trak\x00\x00\x00\x18tkhd\x00\x00\x00\x00\x00\x00\x00\x00\x00\x00\x00\x00\x00\x00\x00\x07\x00\x00\x00\x20trak\x00\x00\x00\x18tkhd\x00\x00\x00\x00\x00\x00\x00\x00\x00\x00\x00\x00\x00\x00\x00\x08\x00\x00\x00\x09trakx",
            304,
            FragKind::TooManyTracks
        )
    );
    assert!(rt;
        is_moov_fault(
            rt.alloc(),
            b"\x00\x00\x00Ptrak\x00\x00\x00\x18tkhd\x00\x00\x00\x00\x00\x00\x00\x00\x00\x00\x00\x00\x00\x00\x00\x01\x00\x00\x000mdia\x00\x00\x00\x28minf\x00\x00\x00\x20stbl\x00\x00\x00\x18stsd\x00\x00\x00\x00\x00\x00\x00\x01\x00\x00\x00\x08encu",
            120,
            FragKind::EntryType
        )
    );
    assert!(rt;
        is_moov_fault(
            rt.alloc(),
            b"\x00\x00\x00Ztrak\x00\x00\x00\x18tkhd\x00\x00\x00\x00\x00\x00\x00\x00\x00\x00\x00\x00\x00\x00\x00\x01\x00\x00\x00\x3amdia\x00\x00\x002minf\x00\x00\x00\x2astbl\x00\x00\x00\x22stsd\x00\x00\x00\x00\x00\x00\x00\x01\x00\x00\x00\x12enca\x00\x00\x00\x00\x00\x00\x00\x00\x00\x01",
            120,
            FragKind::AudioVersion
        )
    );
    assert!(rt;
        is_moov_fault(
            rt.alloc(),
            b"\x00\x00\x00\x9etrak\x00\x00\x00\x18tkhd\x00\x00\x00\x00\x00\x00\x00\x00\x00\x00\x00\x00\x00\x00\x00\x01\x00\x00\x00\x7emdia\x00\x00\x00vminf\x00\x00\x00nstbl\x00\x00\x00fstsd\x00\x00\x00\x00\x00\x00\x00\x01\x00\x00\x00Vencv\x00\x00\x00\x00\x00\x00\x00\x00\x00\x00\x00\x00\x00\x00\x00\x00\x00\x00\x00\x00\x00\x00\x00\x00\x00\x00\x00\x00\x00\x00\x00\x00\x00\x00\x00\x00\x00\x00\x00\x00\x00\x00\x00\x00\x00\x00\x00\x00\x00\x00\x00\x00\x00\x00\x00\x00\x00\x00\x00\x00\x00\x00\x00\x00\x00\x00\x00\x00\x00\x00\x00\x00\x00\x00\x00\x00\x00\x00",
            120,
            FragKind::NoSinf
        )
    );
    assert!(rt;
        is_moov_fault(
            rt.alloc(),
            b"\x00\x00\x00\x96trak\x00\x00\x00\x18tkhd\x00\x00\x00\x00\x00\x00\x00\x00\x00\x00\x00\x00\x00\x00\x00\x01\x00\x00\x00vmdia\x00\x00\x00nminf\x00\x00\x00fstbl\x00\x00\x00\x5estsd\x00\x00\x00\x00\x00\x00\x00\x02\x00\x00\x00Navc1\x00\x00\x00\x00\x00\x00\x00\x00\x00\x00\x00\x00\x00\x00\x00\x00\x00\x00\x00\x00\x00\x00\x00\x00\x00\x00\x00\x00\x00\x00\x00\x00\x00\x00\x00\x00\x00\x00\x00\x00\x00\x00\x00\x00\x00\x00\x00\x00\x00\x00\x00\x00\x00\x00\x00\x00\x00\x00\x00\x00\x00\x00\x00\x00\x00\x00\x00\x00\x00\x00",
            104,
            FragKind::Short
        )
    );
    assert!(rt;
        is_moov_fault(
            rt.alloc(),
            b"\x00\x00\x00Ltrak\x00\x00\x00\x18tkhd\x00\x00\x00\x00\x00\x00\x00\x00\x00\x00\x00\x00\x00\x00\x00\x01\x00\x00\x00\x2cmdia\x00\x00\x00\x24minf\x00\x00\x00\x1cstbl\x00\x00\x00\x14stsz\x00\x00\x00\x00\x00\x00\x00\x00\x00\x00\x00\x01",
            104,
            FragKind::Progressive
        )
    );
    assert!(rt;
        is_moov_fault(
            rt.alloc(),
            b"\x00\x00\x00\x24mvex\x00\x00\x00\x1ctrex\x00\x00\x00\x00\x00\x00\x00\x01\x00\x00\x00\x01\x00\x00\x00\x01\x00\x00\x00\x01",
            56,
            FragKind::Short
        )
    );
    Ok(())
}

#[test]
fn a_packaged_fragment_is_read(rt: HostRuntime) -> Result<(), Fail> {
    let Ok(moof) = read_moof(
        rt.alloc(),
        &at(
            b"\x00\x00\x00\x10mfhd\x00\x00\x00\x00\x00\x00\x00\x01\x00\x00\x00xtraf\x00\x00\x00\x18tfhd\x00\x02\x00\x0a\x00\x00\x00\x01\x00\x00\x00\x01\x00\x00\x02\x00\x00\x00\x00\x10senc\x00\x00\x00\x00\x00\x00\x00\x00\x00\x00\x00\x24trun\x00\x00\x03\x01\x00\x00\x00\x02\xff\xff\xff\xfc\x00\x00\x00\x0a\x00\x00\x00d\x00\x00\x00\x0b\x00\x00\x00\xc8\x00\x00\x00\x08saiz\x00\x00\x00\x08saio\x00\x00\x00\x08sbgp\x00\x00\x00\x0csgpd\x00\x00\x00\x07\x00\x00\x00\x09psshx",
        ),
    ) else {
        assert!(rt; false, "a fragment of one track");
        return Ok(());
    };
    assert!(rt; moof.place == 40 && moof.psshs.len() == 1);
    let [traf] = moof.trafs.as_slice() else {
        assert!(rt; false, "one track fragment");
        return Ok(());
    };
    assert!(rt;
        traf.tfhd.track == 1 && traf.tfhd.description == Some(1) && traf.tfhd.duration == Some(512)
    );
    assert!(rt; traf.senc.len() == 1 && traf.saiz.len() == 1 && traf.saio.len() == 1);
    assert!(rt; traf.sgpd.len() == 1 && traf.sbgp.len() == 1);
    let [run] = traf.runs.as_slice() else {
        assert!(rt; false, "one run");
        return Ok(());
    };
    assert!(rt; run.count == 2 && run.offset == Some(-4) && run.items.len() == 2);
    // moof body 48, mfhd 48, traf 64, tfhd 72, senc 96, trun 112
    let senc = Span {
        place: 96,
        body_place: 104,
        len: 8,
    };
    assert!(rt; run.place == 112 && traf.place == 64 && traf.senc.as_slice() == &[senc][..]);
    Ok(())
}

#[test]
fn a_track_fragment_has_a_header(rt: HostRuntime) -> Result<(), Fail> {
    match read_moof(
        rt.alloc(),
        &at(
            b"\x00\x00\x00\x2ctraf\x00\x00\x00\x24trun\x00\x00\x03\x01\x00\x00\x00\x02\xff\xff\xff\xfc\x00\x00\x00\x0a\x00\x00\x00d\x00\x00\x00\x0b\x00\x00\x00\xc8",
        ),
    ) {
        Ok(_) => assert!(rt; false, "no tfhd"),
        Err(fault) => assert!(rt;
            fault
                == FragFault {
                    place: 48,
                    kind: FragKind::NoTfhd
                }
        ),
    }
    Ok(())
}

// A movie fragment of one track fragment with this header and this run.
fn fragment_of(alloc: Global, tfhd: &[u8], trun: &[u8]) -> Result<Bytes, PutFault> {
    let mut traf = Items::new(alloc);
    put_box(alloc, &mut traf, *b"tfhd", tfhd)?;
    put_box(alloc, &mut traf, *b"trun", trun)?;
    let mut moof = Items::new(alloc);
    put_box(alloc, &mut moof, *b"traf", traf.as_slice())?;
    Ok(moof)
}

fn is_moof_fault(alloc: Global, body: &[u8], place: u64, kind: FragKind) -> bool {
    match read_moof(alloc, &at(body)) {
        Ok(_) => false,
        Err(fault) => fault == FragFault { place, kind },
    }
}

fn has_header(alloc: Global, tfhd: &[u8], want: Tfhd) -> Result<bool, PutFault> {
    let body = fragment_of(alloc, tfhd, b"\0\0\0\0\0\0\0\0")?;
    let Ok(moof) = read_moof(alloc, &at(body.as_slice())) else {
        return Ok(false);
    };
    match moof.trafs.as_slice() {
        [traf] => Ok(traf.tfhd == want),
        _ => Ok(false),
    }
}

fn has_run(
    alloc: Global,
    trun: &[u8],
    count: u32,
    offset: Option<i32>,
    first_flags: Option<u32>,
    items: &[RunItem],
) -> Result<bool, PutFault> {
    let body = fragment_of(alloc, b"\0\0\0\0\0\0\0\x01", trun)?;
    let Ok(moof) = read_moof(alloc, &at(body.as_slice())) else {
        return Ok(false);
    };
    let [traf] = moof.trafs.as_slice() else {
        return Ok(false);
    };
    match traf.runs.as_slice() {
        [run] => Ok(
            run.place == 72
                && run.count == count
                && run.offset == offset
                && run.first_flags == first_flags
                && run.items.as_slice() == items,
        ),
        _ => Ok(false),
    }
}

#[test]
fn a_header_has_the_fields_of_its_flags(rt: HostRuntime) -> Result<(), Fail> {
    let none = Tfhd {
        place: 56,
        track: 7,
        flags: 0x20000,
        base: None,
        description: None,
        duration: None,
        size: None,
        sample_flags: None,
    };
    assert!(rt; has_header(rt.alloc(), b"\0\x02\0\0\0\0\0\x07\xff\xff\xff\xff", none)?);
    let each = Tfhd {
        flags: 0x3b,
        base: Some(0x1_0000_0009),
        description: Some(2),
        duration: Some(3),
        size: Some(4),
        sample_flags: Some(0x0101_0000),
        ..none
    };
    assert!(rt;
        has_header(
            rt.alloc(),
            b"\0\0\0\x3b\0\0\0\x07\0\0\0\x01\0\0\0\x09\0\0\0\x02\0\0\0\x03\0\0\0\x04\x01\x01\0\0",
            each
        )?
    );
    let ends = Tfhd {
        flags: 0x10031,
        base: Some(9),
        size: Some(4),
        sample_flags: Some(5),
        ..none
    };
    assert!(rt;
        has_header(
            rt.alloc(),
            b"\x01\x01\0\x31\0\0\0\x07\0\0\0\0\0\0\0\x09\0\0\0\x04\0\0\0\x05",
            ends
        )?
    );
    Ok(())
}

#[test]
fn a_run_has_the_fields_of_its_flags(rt: HostRuntime) -> Result<(), Fail> {
    let none = RunItem {
        duration: None,
        size: None,
        flags: None,
        composition: None,
    };
    assert!(rt;
        has_run(
            rt.alloc(),
            b"\0\0\0\x05\0\0\0\x03\xff\xff\xff\x00\x02\0\0\0\0\0\0\x01",
            3,
            Some(-256),
            Some(0x0200_0000),
            &[]
        )?
    );
    let whole = RunItem {
        duration: Some(1),
        size: Some(2),
        flags: Some(3),
        composition: Some(0xffff_fffc),
    };
    assert!(rt;
        has_run(
            rt.alloc(),
            b"\x01\0\x0f\x01\0\0\0\x01\0\0\0\x10\0\0\0\x01\0\0\0\x02\0\0\0\x03\xff\xff\xff\xfc",
            1,
            Some(16),
            None,
            &[whole]
        )?
    );
    let first = RunItem {
        size: Some(5),
        composition: Some(0),
        ..none
    };
    let second = RunItem {
        size: Some(6),
        composition: Some(512),
        ..none
    };
    assert!(rt;
        has_run(
            rt.alloc(),
            b"\0\0\x0a\0\0\0\0\x02\0\0\0\x05\0\0\0\0\0\0\0\x06\0\0\x02\0",
            2,
            None,
            None,
            &[first, second]
        )?
    );
    // a count alone takes no bytes
    assert!(rt;
        has_run(
            rt.alloc(),
            b"\0\0\0\0\xff\xff\xff\xff",
            u32::MAX,
            None,
            None,
            &[]
        )?
    );
    Ok(())
}

#[test]
fn a_broken_fragment_has_its_place(rt: HostRuntime) -> Result<(), Fail> {
    let alloc = rt.alloc();
    for (tfhd, trun, place) in [
        // a track id, and a base, that are cut
        (&b"\0\0\0\0\0\0\0"[..], &b"\0\0\0\0\0\0\0\0"[..], 56),
        (&b"\0\0\0\x01\0\0\0\x01\0\0\0\0"[..], &b""[..], 56),
        // more sizes than there are bytes
        (
            &b"\0\0\0\0\0\0\0\x01"[..],
            &b"\0\0\x02\0\xff\xff\xff\xff\0\0\0\x10"[..],
            72,
        ),
        (&b"\0\0\0\0\0\0\0\x01"[..], &b"\0\0\0\x04\0\0\0\0"[..], 72),
    ] {
        let moof = fragment_of(alloc, tfhd, trun)?;
        assert!(rt;
            is_moof_fault(alloc, moof.as_slice(), place, FragKind::Short),
            "at {place}"
        );
    }
    for (body, place, kind) in [
        (&b"\0\0\0\x10mfhd"[..], 48, FragKind::PastEnd),
        (&b"\0\0\0\x08traf"[..], 48, FragKind::NoTfhd),
        (
            &b"\0\0\0\x10traf\0\0\0\x07tfhd"[..],
            56,
            FragKind::SizeTooSmall,
        ),
        // the children come before the rule on a missing one
        (&b"\0\0\0\x10traf\0\0\0\x08trun"[..], 56, FragKind::Short),
        (
            &b"\0\0\0\x10traf\0\0\0\x08free\0\0"[..],
            48,
            FragKind::NoTfhd,
        ),
    ] {
        assert!(rt;
            is_moof_fault(alloc, body, place, kind),
            "{kind:?} at {place}"
        );
    }
    Ok(())
}

// A sample table with one clear entry, a second stsd that is cut, and a group description.
fn table_of(alloc: Global) -> Result<Bytes, PutFault> {
    let mut stbl = Items::new(alloc);
    put_box(
        alloc,
        &mut stbl,
        *b"stsd",
        b"\0\0\0\0\0\0\0\x01\0\0\0\x08avc1",
    )?;
    put_box(alloc, &mut stbl, *b"stsd", b"")?;
    put_box(alloc, &mut stbl, *b"sgpd", b"seig")?;
    Ok(stbl)
}

// A movie of one track of id 5 with a header of 64-bit times, and two mvex. Of each type that is read once there is a second box, which is broken.
fn movie_of(alloc: Global) -> Result<Bytes, PutFault> {
    let broken = b"\0\0\0\x08stsd\0\0\0\x0cstsz\0\0\0\0";
    let stbl = table_of(alloc)?;
    let mut minf = Items::new(alloc);
    put_box(alloc, &mut minf, *b"stbl", stbl.as_slice())?;
    put_box(alloc, &mut minf, *b"stbl", broken)?;
    let mut mdia = Items::new(alloc);
    put_box(alloc, &mut mdia, *b"minf", minf.as_slice())?;
    put_box(alloc, &mut mdia, *b"minf", b"\0\0\0\x01")?;
    let mut trak = Items::new(alloc);
    put_box(
        alloc,
        &mut trak,
        *b"tkhd",
        b"\x01\0\0\x07\0\0\0\0\0\0\0\x01\0\0\0\0\0\0\0\x02\0\0\0\x05",
    )?;
    put_box(alloc, &mut trak, *b"tkhd", b"")?;
    put_box(alloc, &mut trak, *b"mdia", mdia.as_slice())?;
    put_box(alloc, &mut trak, *b"mdia", b"\0\0\0\x01")?;
    let mut moov = Items::new(alloc);
    put_box(alloc, &mut moov, *b"trak", trak.as_slice())?;
    put_box(
        alloc,
        &mut moov,
        *b"mvex",
        b"\0\0\0\x20trex\0\0\0\0\0\0\0\x06\0\0\0\x09\0\0\0\x09\0\0\0\x09\0\0\0\x09",
    )?;
    put_box(
        alloc,
        &mut moov,
        *b"mvex",
        b"\0\0\0\x20trex\0\0\0\0\0\0\0\x05\0\0\0\x01\0\0\0\x02\0\0\0\x03\0\0\0\x04",
    )?;
    Ok(moov)
}

#[test]
fn the_first_of_several_is_used(rt: HostRuntime) -> Result<(), Fail> {
    let body = movie_of(rt.alloc())?;
    let Ok(movie) = read_moov(rt.alloc(), &at(body.as_slice())) else {
        assert!(rt; false, "second boxes are passed over");
        return Ok(());
    };
    let [track] = movie.tracks.as_slice() else {
        assert!(rt; false, "one track");
        return Ok(());
    };
    let trex = Trex {
        place: 264,
        description: 1,
        duration: 2,
        size: 3,
        flags: 4,
    };
    assert!(rt; track.id == 5 && track.place == 48 && track.trex == Some(trex));
    let [entry] = track.entries.as_slice() else {
        assert!(rt; false, "one entry");
        return Ok(());
    };
    // trak 48, tkhd 56 and 88, mdia 96, minf 104, stbl 112, stsd 120 and 144, sgpd 152
    assert!(rt; entry.place == 136 && entry.sinfs.len() == 0);
    let group = Span {
        place: 152,
        body_place: 160,
        len: 4,
    };
    assert!(rt; track.groups.as_slice() == &[group][..]);
    let moof = read_moof(
        rt.alloc(),
        &at(
            b"\0\0\0\x30traf\0\0\0\x10tfhd\0\0\0\0\0\0\0\x01\0\0\0\x10tfhd\0\0\0\0\0\0\0\x02\0\0\0\x08tfhd",
        ),
    );
    let Ok(moof) = moof else {
        assert!(rt; false, "second headers are passed over");
        return Ok(());
    };
    match moof.trafs.as_slice() {
        [traf] => assert!(rt; traf.tfhd.track == 1),
        _ => assert!(rt; false, "one track fragment"),
    }
    Ok(())
}
