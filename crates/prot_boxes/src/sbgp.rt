// Which group each sample is of (ISO/IEC 14496-12 section 8.9.2).
ghost use Rattle.std.specs.Prelude.{◌≡◌, ◌==◌, ◌<◌, ◌≤◌, ◌+◌, ◌^◌, ◌++◌, length, codes, bytes_eq, Some, IfOk, IfSome, OnOk, OnErr, IsErrOf};
ghost use Rattle.std.specs.List.{flat_map};
ghost use Rattle.iso_boxes.specs.Reading.{repeated, given};
ghost use Rattle.iso_boxes.specs.Walk.{found};
ghost use Rattle.iso_boxes.specs.Writing.{boxed};
ghost use Rattle.prot_boxes.specs.Answers.{Reads, Gives, GivesBox, IsReadAgain};
ghost use Rattle.prot_boxes.specs.Sbgp.{u32, item, items, sbgp_fields, sbgp_at, item_body, sbgp_body, IsCanonical};

use crate::fault::{ProtFault, ProtKind};
use eme_types::{Bytes, Items};
use iso_boxes::{
    BoxRef, PutFault, bytes4, fields, put_box, put_bytes, put_u32, u8_at, u24_at, u32_at,
};
use std::alloc::{AllocError, Global};

/// So many samples, one after the other, of the group with this index. Index 0 is no group.
#[derive(Clone, Copy, Debug, PartialEq, Eq)]
pub struct SbgpItem {
    pub count: u32,
    pub index: u32,
}

pub type SbgpItems = Items<SbgpItem>;

/// Which group each sample is of, for groups of type `seig`.
#[derive(Drop)]
pub struct Sbgp {
    pub entries: SbgpItems,
}

#[tactic(auto, unfolding(crate::specs::Sbgp::item))]
fn read_item(rest: &[u8]) -> Result<(SbgpItem, &[u8]), ProtKind>
    ensures { Reads (λ x. (x.0, x.1.now)) result (item rest.now) }
{
    fields!(rest, ProtKind::Short; count: u32_at, index: u32_at);
    Ok((SbgpItem { count, index }, rest))
}

fn read_items(alloc: Global, count: u32, bytes: &[u8]) -> Result<(SbgpItems, &[u8]), ProtKind>
    ensures { Gives (λ x. (x.0, x.1.now)) result (repeated count item bytes.now) }
{
    let mut items = Items::new(alloc);
    let mut rest = bytes;
    for _ in 0..count {
        let (item, after) = read_item(rest)?;
        items.push(item)?;
        rest = after;
    }
    Ok((items, rest))
}

/// A number of 32 bits where it is present.
pub fn read_optional(present: bool, rest: &[u8]) -> Result<(Option<u32>, &[u8]), ProtKind>
    ensures { Reads (λ x. (x.0, x.1.now)) result (given present u32 rest.now) }
{
    if present {
        fields!(rest, ProtKind::Short; number: u32_at);
        Ok((Some(number), rest))
    } else {
        Ok((None, rest))
    }
}

#[tactic(auto, unfolding(crate::specs::Sbgp::items))]
fn read_entries(alloc: Global, version: u8, rest: &[u8]) -> Result<(Sbgp, &[u8]), ProtKind>
    ensures { Gives (λ x. (x.0, x.1.now)) result (items version rest.now) }
{
    let (_parameter, rest) = read_optional(version == 1, rest)?;
    fields!(rest, ProtKind::Short; count: u32_at);
    let (entries, rest) = read_items(alloc, count, rest)?;
    Ok((Sbgp { entries }, rest))
}

#[tactic(auto, unfolding(crate::specs::Sbgp::sbgp_fields))]
fn read_sbgp_fields(alloc: Global, rest: &[u8]) -> Result<(Option<Sbgp>, &[u8]), ProtKind>
    ensures { Gives (λ x. (x.0, x.1.now)) result (sbgp_fields rest.now) }
{
    fields!(rest, ProtKind::Short; version: u8_at, _flags: u24_at, kind: bytes4);
    if kind != *b"seig" {
        return Ok((None, rest));
    }
    let (sbgp, rest) = read_entries(alloc, version, rest)?;
    Ok((Some(sbgp), rest))
}

/// Reads a `sbgp`. It answers none exactly where the grouping type is whole and is not `seig`.
pub fn read_sbgp(alloc: Global, at: &BoxRef<'_>) -> Result<Option<Sbgp>, ProtFault>
    ensures exact { GivesBox result (sbgp_at (found at.now)) }
    ensures bounded { IfOk result (λ o. IfSome o (λ sbgp. length sbgp.entries ≤ length at.now.body.now)) }
{
    match read_sbgp_fields(alloc, at.body) {
        Ok((sbgp, _)) => Ok(sbgp),
        Err(kind) => Err(ProtFault {
            place: at.place,
            kind,
        }),
    }
}

fn put_items(body: &mut Bytes, items: &[SbgpItem]) -> Result<(), AllocError>
    ensures { OnOk result (body.new ≡ body.old ++ flat_map item_body items.now) }
{
    for item in items {
        put_u32(body, item.count)?;
        put_u32(body, item.index)?;
    }
    Ok(())
}

#[tactic(auto, unfolding(crate::specs::Sbgp::sbgp_body))]
fn sbgp_body(alloc: Global, what: &Sbgp) -> Result<Bytes, AllocError>
    ensures { IfOk result (λ body. body ≡ sbgp_body what.now) }
{
    let mut body = Bytes::new(alloc);
    let count = (what.entries.len() % 0x1_0000_0000) as u32;
    fields!(body; &[0, 0, 0, 0] => put_bytes, b"seig" => put_bytes, count => put_u32);
    put_items(&mut body, what.entries.as_slice())?;
    Ok(body)
}

/// Appends a `sbgp` of version 0.
pub fn put_sbgp(alloc: Global, out: &mut Bytes, what: &Sbgp) -> Result<(), PutFault>
    ensures ok { OnOk result (out.new ≡ out.old ++ boxed (codes "sbgp") (sbgp_body what.now)) }
    ensures again { OnOk result (IsCanonical what.now → IsReadAgain sbgp_at out.old out.new (Some what.now)) }
    ensures fits { OnOk result (8 + length (sbgp_body what.now) < 2 ^ 32) }
    ensures too_long { IsErrOf result PutFault.TooLong → 2 ^ 32 ≤ 8 + length (sbgp_body what.now) }
    ensures err { OnErr result (out.new ≡ out.old) }
{
    let body = sbgp_body(alloc, what)?;
    put_box(alloc, out, *b"sbgp", body.as_slice())
}
