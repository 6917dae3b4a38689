// A movie fragment.
ghost use Rattle.std.specs.Prelude.{◌≡◌, ◌++◌, ◌+◌, ◌<◌, ◌≤◌, ◌^◌, length, [], OnOk, IfOk};
ghost use Rattle.iso_boxes.specs.Walk.{found};
ghost use Rattle.iso_boxes.specs.Children.{placed};
ghost use Rattle.frag_boxes.specs.declared.fault.FragKind.TheVariants.{OutOfMemory};
ghost use Rattle.frag_boxes.specs.Fields.{tfhd_fields, trun_fields};
ghost use Rattle.frag_boxes.specs.Moof.{GivesBox, fault_at, span, part_at, span_if, traf_at, moof_part_at, moof_at};
ghost use Rattle.frag_boxes.specs.Places.{MoofLies};
ghost use Rattle.frag_boxes.specs.Counts.{moof_items};
ghost use Rattle.frag_boxes.specs.Extents.{moof_bytes};
ghost use Rattle.frag_boxes.specs.Gathering.{nothing, added, moof_added};

use crate::fault::{FragFault, FragKind};
use crate::kinds::{MoofBox, TrafBox, moof_box, traf_box};
use crate::reading::{read_tfhd, read_trun};
use crate::records::{Moof, Span, Spans, Tfhd, Traf, Trafs, Trun, Truns};
use eme_types::Items;
use iso_boxes::{BoxRef, Boxes};
use std::alloc::{AllocError, Global};

/// Where a box stands.
pub fn span_of(at: &BoxRef<'_>) -> Span
    ensures { result ≡ span (found at.now) }
{
    Span {
        place: at.place,
        body_place: at.body_place,
        len: at.body.len() as u64,
    }
}

fn tfhd_of(at: &BoxRef<'_>) -> Result<Tfhd, FragFault>
    ensures { GivesBox result (placed (fault_at at.now.place) (tfhd_fields at.now.place at.now.body.now)) }
{
    match read_tfhd(at.place, at.body) {
        Ok((tfhd, _)) => Ok(tfhd),
        Err(kind) => Err(FragFault {
            place: at.place,
            kind,
        }),
    }
}

fn trun_of(alloc: Global, at: &BoxRef<'_>) -> Result<Trun, FragFault>
    ensures { GivesBox result (placed (fault_at at.now.place) (trun_fields at.now.place at.now.body.now)) }
{
    match read_trun(alloc, at.place, at.body) {
        Ok((trun, _)) => Ok(trun),
        Err(kind) => Err(FragFault {
            place: at.place,
            kind,
        }),
    }
}

/// What is read of one box of a track fragment.
#[derive(Drop)]
pub enum TrafPart {
    Head(Tfhd),
    Run(Trun),
    /// A box of another type, and where it stands.
    Placed([u8; 4], Span),
    Other,
}

/// What is read of one box of a movie fragment.
#[derive(Drop)]
pub enum MoofPart {
    Fragment(Traf),
    Pssh(Span),
    Other,
}

fn read_part(alloc: Global, seen: bool, at: &BoxRef<'_>) -> Result<TrafPart, FragFault>
    ensures { GivesBox result (part_at seen (found at.now)) }
{
    match traf_box(at.kind) {
        TrafBox::Tfhd => {
            if seen {
                Ok(TrafPart::Other)
            } else {
                Ok(TrafPart::Head(tfhd_of(at)?))
            }
        }
        TrafBox::Trun => Ok(TrafPart::Run(trun_of(alloc, at)?)),
        TrafBox::Other => Ok(TrafPart::Placed(at.kind, span_of(at))),
    }
}

fn push_if(spans: &mut Spans, kind: [u8; 4], found: [u8; 4], span: Span) -> Result<(), AllocError>
    ensures { OnOk result (spans.new ≡ spans.old ++ span_if kind found span) }
{
    if found == kind {
        spans.push(span)?;
    }
    Ok(())
}

/// What was gathered of a track fragment.
#[derive(Drop)]
pub struct TrafParts {
    tfhd: Option<Tfhd>,
    runs: Truns,
    senc: Spans,
    saiz: Spans,
    saio: Spans,
    sgpd: Spans,
    sbgp: Spans,
}

impl TrafParts {
    fn new(alloc: Global) -> TrafParts
        ensures { result ≡ nothing }
    {
        TrafParts {
            tfhd: None,
            runs: Items::new(alloc),
            senc: Items::new(alloc),
            saiz: Items::new(alloc),
            saio: Items::new(alloc),
            sgpd: Items::new(alloc),
            sbgp: Items::new(alloc),
        }
    }

    fn add(&mut self, part: TrafPart) -> Result<(), AllocError>
        ensures { OnOk result (self.new ≡ added self.old part) }
    {
        match part {
            TrafPart::Head(tfhd) => {
                if self.tfhd.is_none() {
                    self.tfhd = Some(tfhd);
                }
            }
            TrafPart::Run(run) => self.runs.push(run)?,
            TrafPart::Placed(kind, span) => {
                push_if(&mut self.senc, *b"senc", kind, span)?;
                push_if(&mut self.saiz, *b"saiz", kind, span)?;
                push_if(&mut self.saio, *b"saio", kind, span)?;
                push_if(&mut self.sgpd, *b"sgpd", kind, span)?;
                push_if(&mut self.sbgp, *b"sbgp", kind, span)?;
            }
            TrafPart::Other => {}
        }
        Ok(())
    }
}

fn read_traf(alloc: Global, at: &BoxRef<'_>) -> Result<Traf, FragFault>
    requires { at.now.body_place + length at.now.body.now < 2 ^ 64 }
    ensures { GivesBox result (traf_at (found at.now)) }
{
    let mut parts = TrafParts::new(alloc);
    let mut boxes = Boxes::new(at.body, at.body_place, false);
    while let Some(inner) = boxes.next_box()? {
        let part = read_part(alloc, parts.tfhd.is_some(), &inner)?;
        parts.add(part)?;
    }
    match parts.tfhd {
        Some(tfhd) => Ok(Traf {
            place: at.place,
            tfhd,
            runs: parts.runs,
            senc: parts.senc,
            saiz: parts.saiz,
            saio: parts.saio,
            sgpd: parts.sgpd,
            sbgp: parts.sbgp,
        }),
        None => Err(FragFault {
            place: at.place,
            kind: FragKind::NoTfhd,
        }),
    }
}

fn read_moof_part(alloc: Global, at: &BoxRef<'_>) -> Result<MoofPart, FragFault>
    requires { at.now.body_place + length at.now.body.now < 2 ^ 64 }
    ensures { GivesBox result (moof_part_at (found at.now)) }
{
    match moof_box(at.kind) {
        MoofBox::Traf => Ok(MoofPart::Fragment(read_traf(alloc, at)?)),
        MoofBox::Pssh => Ok(MoofPart::Pssh(span_of(at))),
        MoofBox::Other => Ok(MoofPart::Other),
    }
}

/// What was gathered of a movie fragment.
#[derive(Drop)]
pub struct MoofParts {
    trafs: Trafs,
    psshs: Spans,
}

impl MoofParts {
    fn new(alloc: Global) -> MoofParts
        ensures { result ≡ record { trafs = []; psshs = [] } }
    {
        MoofParts {
            trafs: Items::new(alloc),
            psshs: Items::new(alloc),
        }
    }

    fn add(&mut self, part: MoofPart) -> Result<(), AllocError>
        ensures { OnOk result (self.new ≡ moof_added self.old part) }
    {
        match part {
            MoofPart::Fragment(traf) => self.trafs.push(traf),
            MoofPart::Pssh(span) => self.psshs.push(span),
            MoofPart::Other => Ok(()),
        }
    }
}

fn moof_of(alloc: Global, at: &BoxRef<'_>) -> Result<Moof, FragFault>
    requires { at.now.body_place + length at.now.body.now < 2 ^ 64 }
    ensures { GivesBox result (moof_at (found at.now)) }
{
    let mut parts = MoofParts::new(alloc);
    let mut boxes = Boxes::new(at.body, at.body_place, false);
    while let Some(inner) = boxes.next_box()? {
        let part = read_moof_part(alloc, &inner)?;
        parts.add(part)?;
    }
    Ok(Moof {
        place: at.place,
        trafs: parts.trafs,
        psshs: parts.psshs,
    })
}

/// Reads a movie fragment, whose type is not looked at. Boxes that no record names are passed over, and so is what stands behind the
/// fields of a box. The condition is that the place behind the box is a `u64`.
#[tactic(auto, using(crate::proofs::Few::few_in_fragment, crate::proofs::Inside::fragment_lies, crate::proofs::Extents::fragment_takes))]
pub fn read_moof(alloc: Global, at: &BoxRef<'_>) -> Result<Moof, FragFault>
    requires { at.now.body_place + length at.now.body.now < 2 ^ 64 }
    ensures exact { GivesBox result (moof_at (found at.now)) }

    // all its lists together
    ensures bounded { IfOk result (λ moof. moof_items moof ≤ length at.now.body.now) }

    // its spans
    ensures inside { IfOk result (MoofLies (found at.now)) }

    // what initialization data and auxiliary data are read from
    ensures extents { IfOk result (λ moof. moof_bytes moof ≤ length at.now.body.now) }
{
    moof_of(alloc, at)
}
