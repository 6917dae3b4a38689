use crate::{MediaFault, MediaKind, MediaReader, parse_media};
use eme_types::{EncSample, Iv, Scheme};
use std::test::Fail;

fn is_protected(sample: &EncSample) -> bool {
    match &sample.protect {
        None => false,
        Some(protect) => matches!(protect.iv, Iv::Sixteen(_)) && protect.scheme == Scheme::Cenc,
    }
}

#[test]
fn one_protected_sample(rt: HostRuntime) -> Result<(), Fail> {
    let text =
        b"SMPL 1\ntrack 1\nfragment\nsample 1 cenc 000102030405060708090a0b0c0d0e0f f0f1f2f3f4f5f6f7f8f9fafbfcfdfeff - 874d6191b620e3261bef6864990db6ce";
    let media = parse_media(rt.alloc(), text)?;
    assert_eq!(rt; media.tracks.as_slice(), [1].as_slice());
    match media.fragments.as_slice() {
        [fragment] => match fragment.parts.as_slice() {
            [part] => match part.samples.as_slice() {
                [sample] => {
                    assert!(rt; is_protected(sample));
                    assert_eq!(rt; sample.bytes.len(), 16);
                }
                _ => assert!(rt; false, "other samples"),
            },
            _ => assert!(rt; false, "other parts"),
        },
        _ => assert!(rt; false, "other fragments"),
    }
    Ok(())
}

#[test]
fn parts_stand_in_the_order_of_the_tracks(rt: HostRuntime) -> Result<(), Fail> {
    let text =
        b"SMPL 1\ntrack 7\ntrack 4294967295\ntrack 3\nfragment\nsample 3 clear 0A\nsample 7 clear -\nsample 3 clear ff\ninit keyids 7b7D\nfragment\n";
    let media = parse_media(rt.alloc(), text)?;
    assert_eq!(rt; media.tracks.len(), 3);
    match media.fragments.as_slice() {
        [first, second] => {
            assert_eq!(rt; first.inits.len(), 1);
            match first.parts.as_slice() {
                [seven, three] => {
                    assert_eq!(rt; (seven.track, seven.samples.len()), (7, 1));
                    assert_eq!(rt; (three.track, three.samples.len()), (3, 2));
                }
                _ => assert!(rt; false, "other parts"),
            }
            assert_eq!(rt; second.parts.len(), 0);
        }
        _ => assert!(rt; false, "other fragments"),
    }
    Ok(())
}

#[test]
fn the_first_broken_line_is_refused(rt: HostRuntime) -> Result<(), Fail> {
    for (text, place, kind) in [
        (
            b"SMPL 1\ntrack 1\ntrack 1\n".as_slice(),
            15,
            MediaKind::TrackId,
        ),
        (b"SMPL 1\n\n", 7, MediaKind::Line),
        (b"SMPL 1\ntrack  1\n", 7, MediaKind::Line),
        (b"SMPL 1\ntrack 4294967296", 7, MediaKind::Line),
        (b"SMPL 1\ntrack 0", 7, MediaKind::Line),
        (b"SMPL 1\ntrack 01", 7, MediaKind::Line),
        (b"SMPL 1\nfragment\ntrack 1\n", 16, MediaKind::Line),
        (b"SMPL 1\ninit cenc -\n", 7, MediaKind::Line),
        (b"SMPL 1\nfragment\ninit cenc 0\n", 16, MediaKind::Hex),
        (
            b"SMPL 1\nfragment\nsample 1 clear zz",
            16,
            MediaKind::TrackId,
        ),
    ] {
        match parse_media(rt.alloc(), text) {
            Ok(_) => assert!(rt; false, "accepted"),
            Err(fault) => assert_eq!(rt; fault, MediaFault::Refused { place, kind }),
        }
    }
    Ok(())
}

#[test]
fn rules_inside_a_sample_line_in_their_order(rt: HostRuntime) -> Result<(), Fail> {
    for (words, kind) in [
        (b"1 cenc zz zz 1+1 zz".as_slice(), MediaKind::Kid),
        (b"1 cenc - 00 - 00", MediaKind::Kid),
        (b"1 cenc 00 00 - zz", MediaKind::IvSize),
        (b"1 cenc 00 0001020304050607 - zz", MediaKind::Hex),
        (
            b"1 cenc 00 0001020304050607 1+0,0+0 0001",
            MediaKind::SubsSum,
        ),
        (b"1 cbcs 00 0001020304050607 0:1 1+0 00", MediaKind::IvSize),
        (
            b"1 cbcs 00 000102030405060708090a0b0c0d0e0f 0:1 1+0 00",
            MediaKind::Pattern,
        ),
        (
            b"1 cbcs 00 000102030405060708090a0b0c0d0e0f 16:1 1+0 00",
            MediaKind::Line,
        ),
        (b"2 cenc 00 0001020304050607 65536+0 00", MediaKind::Line),
    ] {
        let mut text = b"SMPL 1\ntrack 1\nfragment\nsample ".to_vec(rt.alloc())?;
        text.extend_from_slice(words)?;
        match parse_media(rt.alloc(), text.as_slice()) {
            Ok(_) => assert!(rt; false, "accepted"),
            Err(fault) => assert_eq!(rt; fault, MediaFault::Refused { place: 24, kind }),
        }
    }
    Ok(())
}

#[test]
fn a_ninth_track_is_refused(rt: HostRuntime) -> Result<(), Fail> {
    let text =
        b"SMPL 1\ntrack 1\ntrack 2\ntrack 3\ntrack 4\ntrack 5\ntrack 6\ntrack 7\ntrack 8\ntrack 9\n";
    match parse_media(rt.alloc(), text) {
        Ok(_) => assert!(rt; false, "accepted"),
        Err(fault) => {
            let kind = MediaKind::TooManyTracks;
            assert_eq!(rt; fault, MediaFault::Refused { place: 71, kind });
        }
    }
    Ok(())
}

#[test]
fn a_key_id_has_1_to_512_bytes(rt: HostRuntime) -> Result<(), Fail> {
    for (bytes, ok) in [(512, true), (513, false)] {
        let mut text = b"SMPL 1\ntrack 1\nfragment\nsample 1 cenc ".to_vec(rt.alloc())?;
        for _ in 0..bytes {
            text.extend_from_slice(b"aB")?;
        }
        text.extend_from_slice(b" 0001020304050607 - -")?;
        match parse_media(rt.alloc(), text.as_slice()) {
            Ok(_) => assert!(rt; ok, "{bytes} bytes are accepted"),
            Err(fault) => {
                assert!(rt; !ok, "{bytes} bytes are refused");
                let kind = MediaKind::Kid;
                assert_eq!(rt; fault, MediaFault::Refused { place: 24, kind });
            }
        }
    }
    Ok(())
}

#[test]
fn sections_are_read_one_by_one(rt: HostRuntime) -> Result<(), Fail> {
    let text =
        b"SMPL 1\ntrack 1\nfragment\nsample 1 cenc 000102030405060708090a0b0c0d0e0f f0f1f2f3f4f5f6f7f8f9fafbfcfdfeff - 874d6191b620e3261bef6864990db6ce\nfragment\nsample 2 clear 00\n";
    let mut reader = MediaReader::open(rt.alloc(), text)?;
    assert_eq!(rt; reader.tracks().as_slice(), [1].as_slice());
    match reader.next_fragment()? {
        Some(fragment) => assert_eq!(rt; fragment.parts.len(), 1),
        None => assert!(rt; false, "no fragment"),
    }
    let (place, kind) = (148, MediaKind::TrackId);
    for _ in 0..2 {
        match reader.next_fragment() {
            Ok(_) => assert!(rt; false, "accepted"),
            Err(fault) => assert_eq!(rt; fault, MediaFault::Refused { place, kind }),
        }
    }
    Ok(())
}

#[test]
fn a_rule_broken_before_the_tracks_refuses_the_file(rt: HostRuntime) -> Result<(), Fail> {
    for (file, place, kind) in [
        (
            b"SMPL 1\ntrack 1\ntrack 1\n".as_slice(),
            15,
            MediaKind::TrackId,
        ),
        (b"\0\0\0\x08free\0\0\0\x08moof", 8, MediaKind::NoMoov),
    ] {
        match MediaReader::open(rt.alloc(), file) {
            Ok(_) => assert!(rt; false, "accepted"),
            Err(fault) => assert_eq!(rt; fault, MediaFault::Refused { place, kind }),
        }
    }
    Ok(())
}
