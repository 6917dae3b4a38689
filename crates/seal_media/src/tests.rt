ghost use Rattle.eme_types.specs.Fed.{IsFed};

use crate::{SealFault, SealPlan, seal};
use eme_types::{EncSample, Fragment, Iv, KeyBytes, Media, Scheme, TrackPart};
use pattern_map::check_sample;
use sample_crypt::open_sample;
use std::alloc::{AllocError, Global};
use std::test::Fail;
use track_media::{MediaFault, parse_media};

const KID: [u8; 16] = *b"\x00\x01\x02\x03\x04\x05\x06\x07\x08\x09\x0a\x0b\x0c\x0d\x0e\x0f";

// The key of SP 800-38A section F.2.1; the IV there is the bytes of this key id.
const KEY: [u8; 16] = *b"\x2b\x7e\x15\x16\x28\xae\xd2\xa6\xab\xf7\x15\x88\x09\xcf\x4f\x3c";

// The plaintext there, and its first ciphertext.
const BLOCK: [u8; 16] = *b"\x6b\xc1\xbe\xe2\x2e\x40\x9f\x96\xe9\x3d\x7e\x11\x73\x93\x17\x2a";

const SEALED: [u8; 16] = *b"\x76\x49\xab\xac\x81\x19\xb2\x46\xce\xe9\x8e\x9b\x12\xe9\x19\x7d";

// The pssh of version 1 with the Common SystemID and this key id.
const PSSH: [u8; 52] =
    *b"\0\0\0\x34pssh\x01\0\0\0\x10\x77\xef\xec\xc0\xb2\x4d\x02\xac\xe3\x3c\x1e\x52\xe2\xfb\x4b\0\0\0\x01\x00\x01\x02\x03\x04\x05\x06\x07\x08\x09\x0a\x0b\x0c\x0d\x0e\x0f\0\0\0\0";

const ONE_BLOCK: &[u8] =
    b"SMPL 1\ntrack 1\nfragment\nsample 1 clear 6bc1bee22e409f96e93d7e117393172a\n";

fn plan_of(scheme: Scheme, lead: u16) -> SealPlan {
    SealPlan {
        scheme,
        kid: KID,
        key: KeyBytes { bytes: KEY },
        iv: KID,
        lead,
    }
}

// The media of the sealed file of a sample list.
fn sealed_again(alloc: Global, clear: &Media, plan: &SealPlan) -> Result<Media, MediaFault>
    requires { IsFed clear.now }
{
    match seal(alloc, clear, plan) {
        Ok(file) => parse_media(alloc, file.as_slice()),
        Err(_) => Err(MediaFault::OutOfMemory),
    }
}

fn only_sample(media: &Media) -> Option<&EncSample> {
    match media.fragments.as_slice() {
        [fragment] => match fragment.parts.as_slice() {
            [part] => match part.samples.as_slice() {
                [sample] => Some(sample),
                _ => None,
            },
            _ => None,
        },
        _ => None,
    }
}

// A protected block, and one that stands in the lead.
#[test]
fn one_block_is_sealed(rt: HostRuntime) -> Result<(), Fail> {
    let clear = parse_media(rt.alloc(), ONE_BLOCK)?;
    for (lead, pair, bytes) in [(0, (0, 16), SEALED), (20, (16, 0), BLOCK)] {
        let sealed = sealed_again(rt.alloc(), &clear, &plan_of(Scheme::Cbcs, lead))?;
        match only_sample(&sealed) {
            Some(sample) => {
                assert_eq!(rt; sample.bytes.as_slice(), bytes.as_slice());
                match &sample.protect {
                    Some(protect) => match protect.subs.as_slice() {
                        [sub] => assert_eq!(rt; (sub.clear, sub.prot), pair),
                        _ => assert!(rt; false, "other pairs"),
                    },
                    None => assert!(rt; false, "a clear sample"),
                }
            }
            None => assert!(rt; false, "other samples"),
        }
        match sealed.fragments.as_slice() {
            [fragment] => match fragment.inits.as_slice() {
                [init] => assert_eq!(rt; init.bytes.as_slice(), PSSH.as_slice()),
                _ => assert!(rt; false, "other initialization data"),
            },
            _ => assert!(rt; false, "other fragments"),
        }
    }
    Ok(())
}

// Opened, a sealed sample is the clear one.
fn opens(
    alloc: Global,
    plan: &SealPlan,
    clear: &EncSample,
    sealed: &EncSample,
) -> Result<bool, AllocError> {
    if sealed.protect.is_none() || check_sample(sealed).is_err() {
        return Ok(false);
    }
    let opened = open_sample(alloc, sealed, &plan.key)?;
    Ok(opened.as_slice() == clear.bytes.as_slice())
}

fn part_opens(
    alloc: Global,
    plan: &SealPlan,
    clear: &TrackPart,
    sealed: &TrackPart,
) -> Result<bool, AllocError> {
    let mut same = clear.track == sealed.track && clear.samples.len() == sealed.samples.len();
    for (c, s) in clear
        .samples
        .as_slice()
        .iter()
        .zip(sealed.samples.as_slice())
    {
        same = opens(alloc, plan, c, s)? && same;
    }
    Ok(same)
}

fn fragment_opens(
    alloc: Global,
    plan: &SealPlan,
    clear: &Fragment,
    sealed: &Fragment,
) -> Result<bool, AllocError> {
    let mut same = clear.parts.len() == sealed.parts.len();
    for (c, s) in clear.parts.as_slice().iter().zip(sealed.parts.as_slice()) {
        same = part_opens(alloc, plan, c, s)? && same;
    }
    Ok(same)
}

fn media_opens(alloc: Global, plan: &SealPlan, clear: &Media) -> Result<bool, MediaFault>
    requires { IsFed clear.now }
{
    let sealed = sealed_again(alloc, clear, plan)?;
    let mut same = clear.fragments.len() == sealed.fragments.len();
    for (c, s) in clear
        .fragments
        .as_slice()
        .iter()
        .zip(sealed.fragments.as_slice())
    {
        match fragment_opens(alloc, plan, c, s) {
            Ok(opens) => same = same && opens,
            Err(_) => return Err(MediaFault::OutOfMemory),
        }
    }
    Ok(same && sealed.tracks.as_slice() == clear.tracks.as_slice())
}

fn leads_open(alloc: Global, scheme: Scheme, clear: &Media) -> Result<bool, MediaFault>
    requires { IsFed clear.now }
{
    let none = media_opens(alloc, &plan_of(scheme, 0), clear)?;
    let one = media_opens(alloc, &plan_of(scheme, 1), clear)?;
    let all = media_opens(alloc, &plan_of(scheme, 65535), clear)?;
    Ok(none && one && all)
}

// Without fragments, without parts, with empty samples, with tracks of great ids, and with 8 of them.
#[test]
fn sealed_media_are_opened(rt: HostRuntime) -> Result<(), Fail> {
    let alloc = rt.alloc();
    for text in [
        b"SMPL 1\n".as_slice(),
        b"SMPL 1\ntrack 3\nfragment\nfragment\n",
        b"SMPL 1\ntrack 4294967295\ntrack 3\nfragment\nsample 3 clear 0102\nsample 4294967295 clear -\nsample 4294967295 clear 6bc1bee22e409f96e93d7e117393172aae2d8a571e03ac9c9eb76fac45af8e5130c81c46a35ce411e5fbc1191a0a52eff69f2445df4f9b17ad2b417be66c37106bc1bee22e409f96e93d7e117393172aae2d8a571e03ac9c9eb76fac45af8e5130c81c46a35ce411e5fbc1191a0a52eff69f2445df4f9b17ad2b417be66c37106bc1bee22e409f96e93d7e117393172aae2d8a571e03ac9c9eb76fac45af8e5130\nfragment\nfragment\nsample 3 clear 010203\n",
        b"SMPL 1\ntrack 1\ntrack 2\ntrack 3\ntrack 4\ntrack 5\ntrack 6\ntrack 7\ntrack 8\nfragment\nsample 8 clear 00\nsample 1 clear 6bc1bee22e409f96e93d7e117393172a6b\n",
    ] {
        let clear = parse_media(alloc, text)?;
        assert!(rt; leads_open(alloc, Scheme::Cenc, &clear)?);
        assert!(rt; leads_open(alloc, Scheme::Cbcs, &clear)?);
    }
    Ok(())
}

// In file order over all tracks and fragments, modulo 2^64.
#[test]
fn samples_are_numbered_over_all_tracks(rt: HostRuntime) -> Result<(), Fail> {
    let text =
        b"SMPL 1\ntrack 1\ntrack 2\nfragment\nsample 2 clear 00\nsample 1 clear 01\nsample 1 clear 02\nfragment\nsample 2 clear 03\n";
    let clear = parse_media(rt.alloc(), text)?;
    let plan = SealPlan {
        iv: [0xff; 16],
        ..plan_of(Scheme::Cenc, 0)
    };
    let sealed = sealed_again(rt.alloc(), &clear, &plan)?;
    let mut number = u64::MAX;
    for fragment in sealed.fragments.as_slice() {
        for part in fragment.parts.as_slice() {
            for sample in part.samples.as_slice() {
                match &sample.protect {
                    Some(protect) => assert_eq!(rt; protect.iv, Iv::Eight(number.to_be_bytes())),
                    None => assert!(rt; false, "a clear sample"),
                }
                number = number.wrapping_add(1);
            }
        }
    }
    assert_eq!(rt; number, 3);
    Ok(())
}

#[test]
fn refusals_come_in_order(rt: HostRuntime) -> Result<(), Fail> {
    for (text, fault) in [
        (
            b"SMPL 1\ntrack 1\nfragment\nsample 1 cenc 00 f0f1f2f3f4f5f6f7 - 00\ninit cenc 00\n".as_slice(),
            SealFault::HasInit { fragment: 1 },
        ),
        (
            b"SMPL 1\ntrack 7\ntrack 1\nfragment\nsample 1 clear 00\nfragment\nsample 7 clear 00\nsample 1 clear 00\nsample 1 cenc 00 f0f1f2f3f4f5f6f7 - 00\nfragment\ninit cenc 00\n",
            SealFault::Protected {
                fragment: 2,
                track: 1,
            },
        ),
    ] {
        let media = parse_media(rt.alloc(), text)?;
        match seal(rt.alloc(), &media, &plan_of(Scheme::Cenc, 0)) {
            Ok(_) => assert!(rt; false, "not refused"),
            Err(told) => assert_eq!(rt; told, fault),
        }
    }
    Ok(())
}
