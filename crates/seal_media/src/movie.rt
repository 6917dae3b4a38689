// The movie: its tracks, what holds for their samples, and the key id.
ghost use Rattle.std.specs.Prelude.{◌≡◌, ◌≤◌, [], ◌∷◌, ◌++◌, length, flat_map, codes, IfOk, OnOk};
ghost use Rattle.eme_types.specs.declared.limits.TheConstants.{MAX_TRACKS};
ghost use Rattle.iso_boxes.specs.Writing.{boxed};
ghost use Rattle.init_data.specs.Pssh.{pssh_box};
ghost use Rattle.prot_boxes.specs.Sinf.{sinf_body};
ghost use Rattle.seal_media.specs.Sealed.{pssh_of};
ghost use Rattle.seal_media.specs.Layout.{tenc_of, sinf_of, tkhd_body, encv_body, stsd_body, stsz_body, stbl_body, mdia_body, trak_body, trak_box, trex_body, trex_box, moov_body};

use crate::boxes::append_box;
use crate::plan::SealPlan;
use eme_types::{Bytes, Iv, KeyId, KeyIdFault, Kids, Scheme};
use init_data::{Pssh, put_pssh};
use iso_boxes::{PutFault, put_bytes, put_u32};
use prot_boxes::{Sinf, Tenc, put_sinf};
use std::alloc::{AllocError, Global};

// The Common SystemID.
const COMMON_SYSTEM: [u8; 16] = [
    0x10, 0x77, 0xef, 0xec, 0xc0, 0xb2, 0x4d, 0x02, 0xac, 0xe3, 0x3c, 0x1e, 0x52, 0xe2, 0xfb, 0x4b,
];

fn tenc_of(plan: &SealPlan) -> Tenc
    ensures { result ≡ tenc_of plan.now }
{
    let kid = plan.kid;
    let iv = plan.iv;
    match plan.scheme {
        Scheme::Cenc => Tenc {
            version: 0,
            crypt: 0,
            skip: 0,
            protected: true,
            iv_size: 8,
            kid,
            constant: None,
        },
        Scheme::Cbcs => Tenc {
            version: 1,
            crypt: 1,
            skip: 9,
            protected: true,
            iv_size: 0,
            kid,
            constant: Some(Iv::Sixteen(iv)),
        },
    }
}

fn append_sinf(alloc: Global, out: &mut Bytes, plan: &SealPlan) -> Result<(), AllocError>
    ensures { OnOk result (out.new ≡ out.old ++ boxed (codes "sinf") (sinf_body (sinf_of plan.now))) }
{
    let sinf = Sinf {
        scheme: plan.scheme,
        tenc: tenc_of(plan),
    };
    match put_sinf(alloc, out, &sinf) {
        Ok(()) => Ok(()),
        Err(PutFault::OutOfMemory) => Err(AllocError),
        Err(PutFault::TooLong) => unreachable!(),
    }
}

#[tactic(auto, unfolding(crate::specs::Layout::encv_body))]
fn encv_body(alloc: Global, plan: &SealPlan) -> Result<Bytes, AllocError>
    ensures { IfOk result (λ body. body ≡ encv_body plan.now) }
{
    let mut body = Bytes::new(alloc);
    put_bytes(&mut body, &[0; 78])?;
    append_sinf(alloc, &mut body, plan)?;
    Ok(body)
}

#[tactic(auto, unfolding(crate::specs::Layout::stsd_body))]
fn stsd_body(alloc: Global, plan: &SealPlan) -> Result<Bytes, AllocError>
    ensures { IfOk result (λ body. body ≡ stsd_body plan.now) }
{
    let entry = encv_body(alloc, plan)?;
    let mut body = Bytes::new(alloc);
    put_bytes(&mut body, &[0; 4])?;
    put_u32(&mut body, 1)?;
    append_box(alloc, &mut body, *b"encv", entry.as_slice())?;
    Ok(body)
}

#[tactic(auto, unfolding(crate::specs::Layout::stbl_body))]
fn stbl_body(alloc: Global, plan: &SealPlan) -> Result<Bytes, AllocError>
    ensures { IfOk result (λ body. body ≡ stbl_body plan.now) }
{
    let stsd = stsd_body(alloc, plan)?;
    let mut body = Bytes::new(alloc);
    append_box(alloc, &mut body, *b"stsd", stsd.as_slice())?;
    append_box(alloc, &mut body, *b"stsz", &[0; 12])?;
    Ok(body)
}

// It is the same in each track.
fn mdia_body(alloc: Global, plan: &SealPlan) -> Result<Bytes, AllocError>
    ensures { IfOk result (λ body. body ≡ mdia_body plan.now) }
{
    let stbl = stbl_body(alloc, plan)?;
    let mut minf = Bytes::new(alloc);
    append_box(alloc, &mut minf, *b"stbl", stbl.as_slice())?;
    let mut body = Bytes::new(alloc);
    append_box(alloc, &mut body, *b"minf", minf.as_slice())?;
    Ok(body)
}

#[tactic(auto, unfolding(crate::specs::Layout::tkhd_body))]
fn tkhd_body(alloc: Global, id: u32) -> Result<Bytes, AllocError>
    ensures { IfOk result (λ body. body ≡ tkhd_body id) }
{
    let mut body = Bytes::new(alloc);
    put_bytes(&mut body, &[0; 12])?;
    put_u32(&mut body, id)?;
    Ok(body)
}

#[tactic(auto, unfolding(crate::specs::Layout::trak_body))]
fn trak_body(alloc: Global, plan: &SealPlan, mdia: &[u8], id: u32) -> Result<Bytes, AllocError>
    requires { mdia.now ≡ mdia_body plan.now }
    ensures { IfOk result (λ body. body ≡ trak_body plan.now id) }
{
    let tkhd = tkhd_body(alloc, id)?;
    let mut body = Bytes::new(alloc);
    append_box(alloc, &mut body, *b"tkhd", tkhd.as_slice())?;
    append_box(alloc, &mut body, *b"mdia", mdia)?;
    Ok(body)
}

fn append_traks(
    alloc: Global,
    out: &mut Bytes,
    plan: &SealPlan,
    mdia: &[u8],
    tracks: &[u32],
) -> Result<(), AllocError>
    requires { mdia.now ≡ mdia_body plan.now }
    ensures { OnOk result (out.new ≡ out.old ++ flat_map (trak_box plan.now) tracks.now) }
{
    for id in tracks {
        let trak = trak_body(alloc, plan, mdia, *id)?;
        append_box(alloc, out, *b"trak", trak.as_slice())?;
    }
    Ok(())
}

#[tactic(auto, unfolding(crate::specs::Layout::trex_body))]
fn trex_body(alloc: Global, id: u32) -> Result<Bytes, AllocError>
    ensures { IfOk result (λ body. body ≡ trex_body id) }
{
    let mut body = Bytes::new(alloc);
    put_bytes(&mut body, &[0; 4])?;
    put_u32(&mut body, id)?;
    put_u32(&mut body, 1)?;
    put_bytes(&mut body, &[0; 12])?;
    Ok(body)
}

fn mvex_body(alloc: Global, tracks: &[u32]) -> Result<Bytes, AllocError>
    ensures { IfOk result (λ body. body ≡ flat_map trex_box tracks.now) }
{
    let mut body = Bytes::new(alloc);
    for id in tracks {
        let trex = trex_body(alloc, *id)?;
        append_box(alloc, &mut body, *b"trex", trex.as_slice())?;
    }
    Ok(body)
}

fn kids_of(alloc: Global, kid: [u8; 16]) -> Result<Kids, AllocError>
    ensures { IfOk result (λ kids. kids ≡ kid ∷ []) }
{
    let mut kids = Kids::new(alloc);
    match KeyId::new(alloc, &kid) {
        Ok(kid) => {
            kids.push(kid)?;
            Ok(kids)
        }
        Err(KeyIdFault::OutOfMemory) => Err(AllocError),
        Err(KeyIdFault::Length) => unreachable!(),
    }
}

fn append_pssh(alloc: Global, out: &mut Bytes, plan: &SealPlan) -> Result<(), AllocError>
    ensures { OnOk result (out.new ≡ out.old ++ pssh_box (pssh_of plan.now)) }
{
    let kids = kids_of(alloc, plan.kid)?;
    let pssh = Pssh {
        version: 1,
        system: COMMON_SYSTEM,
        kids,
        content: Bytes::new(alloc),
    };
    match put_pssh(alloc, out, &pssh) {
        Ok(()) => Ok(()),
        Err(PutFault::OutOfMemory) => Err(AllocError),
        Err(PutFault::TooLong) => unreachable!(),
    }
}

#[tactic(auto, unfolding(crate::specs::Layout::moov_body))]
fn moov_body(alloc: Global, plan: &SealPlan, tracks: &[u32]) -> Result<Bytes, AllocError>
    requires { length tracks.now ≤ MAX_TRACKS }
    ensures { IfOk result (λ body. body ≡ moov_body plan.now tracks.now) }
{
    let mdia = mdia_body(alloc, plan)?;
    let mvex = mvex_body(alloc, tracks)?;
    let mut body = Bytes::new(alloc);
    append_traks(alloc, &mut body, plan, mdia.as_slice(), tracks)?;
    append_box(alloc, &mut body, *b"mvex", mvex.as_slice())?;
    append_pssh(alloc, &mut body, plan)?;
    Ok(body)
}

/// Appends the movie of these tracks.
pub(crate) fn append_moov(
    alloc: Global,
    out: &mut Bytes,
    plan: &SealPlan,
    tracks: &[u32],
) -> Result<(), AllocError>
    requires { length tracks.now ≤ MAX_TRACKS }
    ensures { OnOk result (out.new ≡ out.old ++ boxed (codes "moov") (moov_body plan.now tracks.now)) }
{
    let body = moov_body(alloc, plan, tracks)?;
    append_box(alloc, out, *b"moov", body.as_slice())
}
