// The protection scheme information box (ISO/IEC 14496-12 section 8.12.1).
ghost use Rattle.std.specs.Prelude.{◌≡◌, ◌<◌, ◌≤◌, ◌+◌, ◌^◌, ◌++◌, length, codes, None, IfOk, IfSome, OnOk, OnErr, IsErrOf};
ghost use Rattle.iso_boxes.specs.Walk.{found};
ghost use Rattle.iso_boxes.specs.Writing.{boxed};
ghost use Rattle.prot_boxes.specs.Answers.{IsReadAgain};
ghost use Rattle.prot_boxes.specs.Gathering.{added};
ghost use Rattle.prot_boxes.specs.Sinf.{sinf_box, schi_at, part_at, named, scheme_of, held_in, is_eight, cbcs_rules, scheme_rules, ruled, sinf_of, sinf_at, scheme_code, sinf_body, IsCanonical};

use crate::fault::{ProtFault, ProtKind};
use crate::schm::{Schm, put_schm, read_schm};
use crate::tenc::{Tenc, put_tenc, read_tenc};
use eme_types::{Bytes, Iv, Scheme};
use iso_boxes::{BoxRef, Boxes, PutFault, first_inside, put_box};
use std::alloc::Global;

/// A protection scheme and what protects the track by it.
#[derive(Clone, Copy, Debug, PartialEq, Eq)]
pub struct Sinf {
    pub scheme: Scheme,
    pub tenc: Tenc,
}

/// A `tenc` and the place where it stands.
#[derive(Clone, Copy)]
pub struct Held {
    pub place: u64,
    pub tenc: Tenc,
}

/// A `schi`: the first `tenc` in it.
#[derive(Clone, Copy)]
pub struct Schi {
    pub tenc: Option<Held>,
}

/// The types of boxes that matter in a `sinf`.
#[derive(Clone, Copy)]
pub enum SinfBox {
    Schm,
    Schi,
    Other,
}

/// What is read of one box of a `sinf`.
#[derive(Clone, Copy)]
pub enum SinfPart {
    Scheme(Schm),
    Info(Schi),
    Other,
}

/// What was gathered of a `sinf`.
#[derive(Clone, Copy)]
pub struct SinfParts {
    schm: Option<Schm>,
    schi: Option<Schi>,
}

#[tactic(auto, unfolding(crate::specs::Sinf::sinf_box))]
fn sinf_box(kind: [u8; 4]) -> SinfBox
    ensures { result ≡ sinf_box kind }
{
    if kind == *b"schm" {
        SinfBox::Schm
    } else if kind == *b"schi" {
        SinfBox::Schi
    } else {
        SinfBox::Other
    }
}

#[tactic(auto, unfolding(crate::specs::Sinf::schi_at, iso_boxes::specs::Children::first_read))]
fn read_schi(at: &BoxRef<'_>) -> Result<Schi, ProtFault>
    requires { at.now.body_place + length at.now.body.now < 2 ^ 64 }
    ensures { result ≡ schi_at (found at.now) }
{
    let (first, end) = first_inside(at, *b"tenc");
    let held = match first {
        Some(inner) => {
            let tenc = read_tenc(&inner)?;
            Some(Held {
                place: inner.place,
                tenc,
            })
        }
        None => None,
    };
    match end {
        None => Ok(Schi { tenc: held }),
        Some(fault) => Err(ProtFault::from(fault)),
    }
}

fn read_part(seen_schm: bool, seen_schi: bool, at: &BoxRef<'_>) -> Result<SinfPart, ProtFault>
    requires { at.now.body_place + length at.now.body.now < 2 ^ 64 }
    ensures { result ≡ part_at (record { schm = seen_schm; schi = seen_schi }) (found at.now) }
{
    match sinf_box(at.kind) {
        SinfBox::Schm => {
            if seen_schm {
                return Ok(SinfPart::Other);
            }
            let schm = read_schm(at)?;
            Ok(SinfPart::Scheme(schm))
        }
        SinfBox::Schi => {
            if seen_schi {
                return Ok(SinfPart::Other);
            }
            let schi = read_schi(at)?;
            Ok(SinfPart::Info(schi))
        }
        SinfBox::Other => Ok(SinfPart::Other),
    }
}

impl SinfParts {
    fn add(&mut self, part: SinfPart)
        ensures { self.new ≡ added self.old part }
    {
        match part {
            SinfPart::Scheme(schm) => {
                if self.schm.is_none() {
                    self.schm = Some(schm);
                }
            }
            SinfPart::Info(schi) => {
                if self.schi.is_none() {
                    self.schi = Some(schi);
                }
            }
            SinfPart::Other => {}
        }
    }
}

#[tactic(auto, unfolding(crate::specs::Sinf::named))]
fn named(schm: &Schm) -> Option<Scheme>
    ensures { result ≡ named schm.now }
{
    if schm.kind == *b"cenc" {
        Some(Scheme::Cenc)
    } else if schm.kind == *b"cbcs" {
        Some(Scheme::Cbcs)
    } else {
        None
    }
}

fn scheme_of(schm: Option<Schm>) -> Option<Scheme>
    ensures { result ≡ scheme_of schm }
{
    match schm {
        None => None,
        Some(schm) => named(&schm),
    }
}

fn held_in(schi: Option<Schi>) -> Option<Held>
    ensures { result ≡ held_in schi }
{
    match schi {
        None => None,
        Some(schi) => schi.tenc,
    }
}

fn is_eight(constant: Option<Iv>) -> bool
    ensures { result ≡ is_eight constant }
{
    match constant {
        Some(Iv::Eight(_)) => true,
        Some(Iv::Sixteen(_)) => false,
        None => false,
    }
}

#[tactic(auto, unfolding(crate::specs::Sinf::cbcs_rules))]
fn check_cbcs(tenc: Tenc) -> Result<Tenc, ProtKind>
    ensures { result ≡ cbcs_rules tenc }
{
    if !tenc.protected {
        return Ok(tenc);
    }
    if tenc.iv_size == 8 || is_eight(tenc.constant) {
        return Err(ProtKind::IvSize);
    }
    if tenc.crypt == 0 && tenc.skip != 0 {
        return Err(ProtKind::Pattern);
    }
    Ok(tenc)
}

fn check_scheme(scheme: Scheme, tenc: Tenc) -> Result<Tenc, ProtKind>
    ensures { result ≡ scheme_rules scheme tenc }
{
    match scheme {
        Scheme::Cenc => Ok(tenc),
        Scheme::Cbcs => check_cbcs(tenc),
    }
}

fn check_at(place: u64, scheme: Scheme, tenc: Tenc) -> Result<Tenc, ProtFault>
    ensures { result ≡ ruled place (scheme_rules scheme tenc) }
{
    match check_scheme(scheme, tenc) {
        Ok(tenc) => Ok(tenc),
        Err(kind) => Err(ProtFault { place, kind }),
    }
}

#[tactic(auto, unfolding(crate::specs::Sinf::sinf_of))]
fn sinf_of(place: u64, schm: Option<Schm>, schi: Option<Schi>) -> Result<Sinf, ProtFault>
    ensures { result ≡ sinf_of place schm schi }
{
    let Some(scheme) = scheme_of(schm) else {
        return Err(ProtFault {
            place,
            kind: ProtKind::Scheme,
        });
    };
    let Some(held) = held_in(schi) else {
        return Err(ProtFault {
            place,
            kind: ProtKind::NoTenc,
        });
    };
    let tenc = check_at(held.place, scheme, held.tenc)?;
    Ok(Sinf { scheme, tenc })
}

/// Reads a `sinf` of the scheme `cenc` or `cbcs`. It takes no memory.
pub fn read_sinf(at: &BoxRef<'_>) -> Result<Sinf, ProtFault>
    requires { at.now.body_place + length at.now.body.now < 2 ^ 64 }
    ensures { result ≡ sinf_at (found at.now) }
{
    let mut parts = SinfParts {
        schm: None,
        schi: None,
    };
    let mut boxes = Boxes::new(at.body, at.body_place, false);
    while let Some(inner) = boxes.next_box()? {
        let part = read_part(parts.schm.is_some(), parts.schi.is_some(), &inner)?;
        parts.add(part);
    }
    sinf_of(at.place, parts.schm, parts.schi)
}

fn scheme_code(scheme: Scheme) -> [u8; 4]
    ensures { result ≡ scheme_code scheme }
{
    match scheme {
        Scheme::Cenc => *b"cenc",
        Scheme::Cbcs => *b"cbcs",
    }
}

#[tactic(auto, unfolding(crate::specs::Sinf::sinf_body))]
fn sinf_body(alloc: Global, what: &Sinf) -> Result<Bytes, PutFault>
    ensures ok { IfOk result (λ body. body ≡ sinf_body what.now) }
    ensures too_long { IsErrOf result PutFault.TooLong → 2 ^ 32 ≤ 8 + length (sinf_body what.now) }
{
    let kind = scheme_code(what.scheme);
    let schm = Schm {
        kind,
        version: 0x10000,
    };
    let mut info = Bytes::new(alloc);
    put_tenc(alloc, &mut info, &what.tenc)?;
    let mut body = Bytes::new(alloc);
    put_box(alloc, &mut body, *b"frma", b"avc1")?;
    put_schm(alloc, &mut body, &schm)?;
    put_box(alloc, &mut body, *b"schi", info.as_slice())?;
    Ok(body)
}

/// Appends a `sinf` with a `frma` of the type `avc1`, a `schm` of version 65,536 and a `schi` with the `tenc`.
pub fn put_sinf(alloc: Global, out: &mut Bytes, what: &Sinf) -> Result<(), PutFault>
    ensures ok { OnOk result (out.new ≡ out.old ++ boxed (codes "sinf") (sinf_body what.now)) }
    ensures again { OnOk result (IsCanonical what.now → IsReadAgain sinf_at out.old out.new what.now) }
    ensures fits { OnOk result (8 + length (sinf_body what.now) < 2 ^ 32) }
    ensures too_long { IsErrOf result PutFault.TooLong → 2 ^ 32 ≤ 8 + length (sinf_body what.now) }
    ensures err { OnErr result (out.new ≡ out.old) }
{
    let body = sinf_body(alloc, what)?;
    put_box(alloc, out, *b"sinf", body.as_slice())
}
