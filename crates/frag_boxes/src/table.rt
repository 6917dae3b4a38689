// The sample table of a track.
ghost use Rattle.std.specs.Prelude.{◌≡◌, ◌+◌, ◌<◌, ◌^◌, length, OnOk};
ghost use Rattle.iso_boxes.specs.Walk.{found};
ghost use Rattle.frag_boxes.specs.Moof.{GivesBox};
ghost use Rattle.frag_boxes.specs.Table.{GivesBoxes, behind, entry_box, sinf_part, entry_from, protected_at, entry_at, entries_at, stsd_at, stbl_box, stbl_part_at, stbl_at, minf_at, mdia_at, no_table, or_none, or_nothing};
ghost use Rattle.frag_boxes.specs.Gathering.{span_added, stbl_added};

use crate::fault::{FragFault, FragKind};
use crate::moof::span_of;
use crate::reading::{read_audio_version, read_stsd, read_stsz};
use crate::records::{SampleEntries, SampleEntry, Span, Spans};
use eme_types::Items;
use iso_boxes::{BoxRef, Boxes, first_inside};
use std::alloc::{AllocError, Global};

/// The types of sample entries.
#[derive(Clone, Copy)]
pub enum EntryBox {
    Encv,
    Enca,
    OtherEnc,
    Clear,
}

/// The types of boxes that matter in an `stbl`.
#[derive(Clone, Copy)]
pub enum StblBox {
    Stsd,
    Stsz,
    Sgpd,
    Other,
}

/// What is read of one box of an `stbl`.
#[derive(Drop)]
pub enum StblPart {
    Entries(SampleEntries),
    Group(Span),
    Other,
}

/// What is read of an `stbl`.
#[derive(Drop)]
pub struct Table {
    pub entries: SampleEntries,
    pub groups: Spans,
}

/// What was gathered of an `stbl`.
#[derive(Drop)]
pub struct StblParts {
    entries: Option<SampleEntries>,
    groups: Spans,
}

#[tactic(auto, unfolding(crate::specs::Table::entry_box))]
fn entry_box(kind: [u8; 4]) -> EntryBox
    ensures { result ≡ entry_box kind }
{
    if kind == *b"encv" {
        EntryBox::Encv
    } else if kind == *b"enca" {
        EntryBox::Enca
    } else if &kind[..3] == b"enc".as_slice() {
        EntryBox::OtherEnc
    } else {
        EntryBox::Clear
    }
}

#[tactic(auto, unfolding(crate::specs::Table::stbl_box))]
fn stbl_box(kind: [u8; 4]) -> StblBox
    ensures { result ≡ stbl_box kind }
{
    if kind == *b"stsd" {
        StblBox::Stsd
    } else if kind == *b"stsz" {
        StblBox::Stsz
    } else if kind == *b"sgpd" {
        StblBox::Sgpd
    } else {
        StblBox::Other
    }
}

/// The boxes behind `fields` bytes of a body.
fn boxes_behind<'a>(at: &BoxRef<'a>, fields: usize) -> Result<Boxes<'a>, FragFault>
    requires { at.now.body_place + length at.now.body.now < 2 ^ 64 }
    ensures { GivesBoxes result (behind fields (found at.now)) }
{
    if at.body.len() < fields {
        return Err(FragFault {
            place: at.place,
            kind: FragKind::Short,
        });
    }
    Ok(Boxes::new(&at.body[fields..], at.body_place + fields as u64, false))
}

#[tactic(auto, unfolding(crate::specs::Table::sinf_part))]
fn sinf_part(at: &BoxRef<'_>) -> Option<Span>
    ensures { result ≡ sinf_part (found at.now) }
{
    if at.kind == *b"sinf" {
        Some(span_of(at))
    } else {
        None
    }
}

fn push_some(spans: &mut Spans, span: Option<Span>) -> Result<(), AllocError>
    ensures { OnOk result (spans.new ≡ span_added spans.old span) }
{
    match span {
        Some(span) => spans.push(span),
        None => Ok(()),
    }
}

fn entry_from(place: u64, sinfs: Spans) -> Result<SampleEntry, FragFault>
    ensures { result ≡ entry_from place sinfs }
{
    if sinfs.len() == 0 {
        return Err(FragFault {
            place,
            kind: FragKind::NoSinf,
        });
    }
    Ok(SampleEntry { place, sinfs })
}

fn protected_of(alloc: Global, fields: usize, at: &BoxRef<'_>) -> Result<SampleEntry, FragFault>
    requires { at.now.body_place + length at.now.body.now < 2 ^ 64 }
    ensures { GivesBox result (protected_at fields (found at.now)) }
{
    let mut parts = Items::new(alloc);
    let mut boxes = boxes_behind(at, fields)?;
    while let Some(inner) = boxes.next_box()? {
        push_some(&mut parts, sinf_part(&inner))?;
    }
    entry_from(at.place, parts)
}

fn entry_of(alloc: Global, at: &BoxRef<'_>) -> Result<SampleEntry, FragFault>
    requires { at.now.body_place + length at.now.body.now < 2 ^ 64 }
    ensures { GivesBox result (entry_at (found at.now)) }
{
    match entry_box(at.kind) {
        EntryBox::Encv => protected_of(alloc, 78, at),
        EntryBox::Enca => match read_audio_version(at.body) {
            Ok(_) => protected_of(alloc, 28, at),
            Err(kind) => Err(FragFault {
                place: at.place,
                kind,
            }),
        },
        EntryBox::OtherEnc => Err(FragFault {
            place: at.place,
            kind: FragKind::EntryType,
        }),
        EntryBox::Clear => Ok(SampleEntry {
            place: at.place,
            sinfs: Items::new(alloc),
        }),
    }
}

fn entries_of(alloc: Global, count: u32, at: &BoxRef<'_>) -> Result<SampleEntries, FragFault>
    requires { at.now.body_place + length at.now.body.now < 2 ^ 64 }
    ensures { GivesBox result (entries_at count (found at.now)) }
{
    let mut entries = Items::new(alloc);
    let mut boxes = boxes_behind(at, 8)?;
    for _ in 0..count {
        let Some(inner) = boxes.next_box()? else {
            return Err(FragFault {
                place: at.place,
                kind: FragKind::Short,
            });
        };
        let entry = entry_of(alloc, &inner)?;
        entries.push(entry)?;
    }
    Ok(entries)
}

#[tactic(auto, unfolding(crate::specs::Table::stsd_at))]
fn stsd_of(alloc: Global, at: &BoxRef<'_>) -> Result<SampleEntries, FragFault>
    requires { at.now.body_place + length at.now.body.now < 2 ^ 64 }
    ensures { GivesBox result (stsd_at (found at.now)) }
{
    match read_stsd(at.body) {
        Ok((count, _)) => entries_of(alloc, count, at),
        Err(kind) => Err(FragFault {
            place: at.place,
            kind,
        }),
    }
}

fn read_stbl_part(alloc: Global, seen: bool, at: &BoxRef<'_>) -> Result<StblPart, FragFault>
    requires { at.now.body_place + length at.now.body.now < 2 ^ 64 }
    ensures { GivesBox result (stbl_part_at seen (found at.now)) }
{
    match stbl_box(at.kind) {
        StblBox::Stsd => {
            if seen {
                Ok(StblPart::Other)
            } else {
                Ok(StblPart::Entries(stsd_of(alloc, at)?))
            }
        }
        StblBox::Stsz => match read_stsz(at.body) {
            Ok(_) => Ok(StblPart::Other),
            Err(kind) => Err(FragFault {
                place: at.place,
                kind,
            }),
        },
        StblBox::Sgpd => Ok(StblPart::Group(span_of(at))),
        StblBox::Other => Ok(StblPart::Other),
    }
}

impl StblParts {
    fn add(&mut self, part: StblPart) -> Result<(), AllocError>
        ensures { OnOk result (self.new ≡ stbl_added self.old part) }
    {
        match part {
            StblPart::Entries(entries) => {
                if self.entries.is_none() {
                    self.entries = Some(entries);
                }
            }
            StblPart::Group(span) => self.groups.push(span)?,
            StblPart::Other => {}
        }
        Ok(())
    }
}

fn entries_or_none(alloc: Global, entries: Option<SampleEntries>) -> SampleEntries
    ensures { result ≡ or_nothing entries }
{
    match entries {
        Some(entries) => entries,
        None => Items::new(alloc),
    }
}

fn no_table(alloc: Global) -> Table
    ensures { result ≡ no_table }
{
    Table {
        entries: Items::new(alloc),
        groups: Items::new(alloc),
    }
}

/// The table, or an empty one.
pub fn table_or_none(alloc: Global, table: Option<Table>) -> Table
    ensures { result ≡ or_none table }
{
    match table {
        Some(table) => table,
        None => no_table(alloc),
    }
}

fn stbl_of(alloc: Global, at: &BoxRef<'_>) -> Result<Table, FragFault>
    requires { at.now.body_place + length at.now.body.now < 2 ^ 64 }
    ensures { GivesBox result (stbl_at (found at.now)) }
{
    let mut parts = StblParts {
        entries: None,
        groups: Items::new(alloc),
    };
    let mut boxes = Boxes::new(at.body, at.body_place, false);
    while let Some(inner) = boxes.next_box()? {
        let part = read_stbl_part(alloc, parts.entries.is_some(), &inner)?;
        parts.add(part)?;
    }
    Ok(Table {
        entries: entries_or_none(alloc, parts.entries),
        groups: parts.groups,
    })
}

#[tactic(auto, unfolding(crate::specs::Table::minf_at, iso_boxes::specs::Children::first_read))]
fn minf_of(alloc: Global, at: &BoxRef<'_>) -> Result<Table, FragFault>
    requires { at.now.body_place + length at.now.body.now < 2 ^ 64 }
    ensures { GivesBox result (minf_at (found at.now)) }
{
    let (stbl, end) = first_inside(at, *b"stbl");
    let table = match stbl {
        Some(stbl) => stbl_of(alloc, &stbl)?,
        None => no_table(alloc),
    };
    match end {
        None => Ok(table),
        Some(fault) => Err(FragFault::from(fault)),
    }
}

/// Reads an `mdia`: the sample table of a track.
#[tactic(auto, unfolding(crate::specs::Table::mdia_at, iso_boxes::specs::Children::first_read))]
pub fn mdia_of(alloc: Global, at: &BoxRef<'_>) -> Result<Table, FragFault>
    requires { at.now.body_place + length at.now.body.now < 2 ^ 64 }
    ensures { GivesBox result (mdia_at (found at.now)) }
{
    let (minf, end) = first_inside(at, *b"minf");
    let table = match minf {
        Some(minf) => minf_of(alloc, &minf)?,
        None => no_table(alloc),
    };
    match end {
        None => Ok(table),
        Some(fault) => Err(FragFault::from(fault)),
    }
}
