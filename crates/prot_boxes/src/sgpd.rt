// What protects each group (ISO/IEC 14496-12 section 8.9.3, ISO/IEC 23001-7 section 6).
ghost use Rattle.std.specs.Prelude.{◌≡◌, ◌<◌, ◌≤◌, ◌+◌, ◌^◌, ◌++◌, length, codes, Some, IfOk, IfSome, OnOk, OnErr, IsErrOf};
ghost use Rattle.std.specs.List.{flat_map};
ghost use Rattle.iso_boxes.specs.Reading.{repeated};
ghost use Rattle.iso_boxes.specs.Walk.{found};
ghost use Rattle.iso_boxes.specs.Writing.{boxed};
ghost use Rattle.prot_boxes.specs.Answers.{Reads, Gives, GivesBox, IsReadAgain};
ghost use Rattle.prot_boxes.specs.Sgpd.{entry_within, entry_with_length, entry, entries, sgpd_fields, sgpd_at, entry_length, entry_body, sgpd_body, IsCanonical};

use crate::fault::{ProtFault, ProtKind};
use crate::sbgp::read_optional;
use crate::seig::{Seig, put_seig, read_seig};
use eme_types::{Bytes, Items, Iv};
use iso_boxes::{
    BoxRef, PutFault, bytes4, fields, put_box, put_bytes, put_u32, u8_at, u24_at, u32_at,
};
use std::alloc::{AllocError, Global};

pub type Seigs = Items<Seig>;

/// What protects each group of type `seig`. Groups are numbered from 1.
#[derive(Drop)]
pub struct Sgpd {
    pub entries: Seigs,
}

#[tactic(auto, unfolding(crate::specs::Sgpd::entry_within))]
fn read_entry_within(size: u32, rest: &[u8]) -> Result<(Seig, &[u8]), ProtKind>
    ensures { Reads (λ x. (x.0, x.1.now)) result (entry_within size rest.now) }
{
    if rest.len() < size as usize {
        return Err(ProtKind::Short);
    }
    let (part, rest) = rest.split_at(size as usize);
    let (seig, _) = read_seig(part)?;
    Ok((seig, rest))
}

#[tactic(auto, unfolding(crate::specs::Sgpd::entry_with_length))]
fn read_entry_with_length(rest: &[u8]) -> Result<(Seig, &[u8]), ProtKind>
    ensures { Reads (λ x. (x.0, x.1.now)) result (entry_with_length rest.now) }
{
    fields!(rest, ProtKind::Short; size: u32_at);
    read_entry_within(size, rest)
}

fn read_entry(default: Option<u32>, rest: &[u8]) -> Result<(Seig, &[u8]), ProtKind>
    ensures { Reads (λ x. (x.0, x.1.now)) result (entry default rest.now) }
{
    match default {
        None => read_seig(rest),
        Some(0) => read_entry_with_length(rest),
        Some(size) => read_entry_within(size, rest),
    }
}

fn read_list(
    alloc: Global,
    count: u32,
    default: Option<u32>,
    bytes: &[u8],
) -> Result<(Seigs, &[u8]), ProtKind>
    ensures { Gives (λ x. (x.0, x.1.now)) result (repeated count (entry default) bytes.now) }
{
    let mut seigs = Items::new(alloc);
    let mut rest = bytes;
    for _ in 0..count {
        let (seig, after) = read_entry(default, rest)?;
        seigs.push(seig)?;
        rest = after;
    }
    Ok((seigs, rest))
}

#[tactic(auto, unfolding(crate::specs::Sgpd::entries))]
fn read_entries(alloc: Global, version: u8, rest: &[u8]) -> Result<(Sgpd, &[u8]), ProtKind>
    ensures { Gives (λ x. (x.0, x.1.now)) result (entries version rest.now) }
{
    if version > 1 {
        return Err(ProtKind::Version);
    }
    let (default, rest) = read_optional(version == 1, rest)?;
    fields!(rest, ProtKind::Short; count: u32_at);
    let (entries, rest) = read_list(alloc, count, default, rest)?;
    Ok((Sgpd { entries }, rest))
}

#[tactic(auto, unfolding(crate::specs::Sgpd::sgpd_fields))]
fn read_sgpd_fields(alloc: Global, rest: &[u8]) -> Result<(Option<Sgpd>, &[u8]), ProtKind>
    ensures { Gives (λ x. (x.0, x.1.now)) result (sgpd_fields rest.now) }
{
    fields!(rest, ProtKind::Short; version: u8_at, _flags: u24_at, kind: bytes4);
    if kind != *b"seig" {
        return Ok((None, rest));
    }
    let (sgpd, rest) = read_entries(alloc, version, rest)?;
    Ok((Some(sgpd), rest))
}

/// Reads a `sgpd`. It answers none exactly where the grouping type is whole and is not `seig`.
pub fn read_sgpd(alloc: Global, at: &BoxRef<'_>) -> Result<Option<Sgpd>, ProtFault>
    ensures exact { GivesBox result (sgpd_at (found at.now)) }
    ensures bounded { IfOk result (λ o. IfSome o (λ sgpd. length sgpd.entries ≤ length at.now.body.now)) }
{
    match read_sgpd_fields(alloc, at.body) {
        Ok((sgpd, _)) => Ok(sgpd),
        Err(kind) => Err(ProtFault {
            place: at.place,
            kind,
        }),
    }
}

fn entry_length(constant: Option<Iv>) -> u32
    ensures { result ≡ entry_length constant }
{
    match constant {
        None => 20,
        Some(Iv::Eight(_)) => 29,
        Some(Iv::Sixteen(_)) => 37,
    }
}

fn put_entry(body: &mut Bytes, seig: &Seig) -> Result<(), AllocError>
    ensures { OnOk result (body.new ≡ body.old ++ entry_body seig.now) }
{
    put_u32(body, entry_length(seig.constant))?;
    put_seig(body, seig)
}

fn put_entries(body: &mut Bytes, seigs: &[Seig]) -> Result<(), AllocError>
    ensures { OnOk result (body.new ≡ body.old ++ flat_map entry_body seigs.now) }
{
    for seig in seigs {
        put_entry(body, seig)?;
    }
    Ok(())
}

#[tactic(auto, unfolding(crate::specs::Sgpd::sgpd_body))]
fn sgpd_body(alloc: Global, what: &Sgpd) -> Result<Bytes, AllocError>
    ensures { IfOk result (λ body. body ≡ sgpd_body what.now) }
{
    let count = (what.entries.len() % 0x1_0000_0000) as u32;
    let mut body = Bytes::new(alloc);
    fields!(body; &[1, 0, 0, 0] => put_bytes, b"seig" => put_bytes, 0 => put_u32, count => put_u32);
    put_entries(&mut body, what.entries.as_slice())?;
    Ok(body)
}

/// Appends a `sgpd` of version 1, with a length for each entry.
pub fn put_sgpd(alloc: Global, out: &mut Bytes, what: &Sgpd) -> Result<(), PutFault>
    ensures ok { OnOk result (out.new ≡ out.old ++ boxed (codes "sgpd") (sgpd_body what.now)) }
    ensures again { OnOk result (IsCanonical what.now → IsReadAgain sgpd_at out.old out.new (Some what.now)) }
    ensures fits { OnOk result (8 + length (sgpd_body what.now) < 2 ^ 32) }
    ensures too_long { IsErrOf result PutFault.TooLong → 2 ^ 32 ≤ 8 + length (sgpd_body what.now) }
    ensures err { OnErr result (out.new ≡ out.old) }
{
    let body = sgpd_body(alloc, what)?;
    put_box(alloc, out, *b"sgpd", body.as_slice())
}
