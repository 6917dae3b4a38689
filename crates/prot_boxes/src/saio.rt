// Where samples' auxiliary data stands (ISO/IEC 14496-12 section 8.7.9).
ghost use Rattle.std.specs.Prelude.{◌≡◌, ◌<◌, ◌≤◌, ◌+◌, ◌^◌, ◌++◌, length, codes, IfOk, OnOk, OnErr, IsErrOf};
ghost use Rattle.std.specs.List.{flat_map};
ghost use Rattle.iso_boxes.specs.Reading.{repeated};
ghost use Rattle.iso_boxes.specs.Walk.{found};
ghost use Rattle.iso_boxes.specs.Writing.{boxed};
ghost use Rattle.prot_boxes.specs.Answers.{Reads, Gives, GivesBox, IsReadAgain};
ghost use Rattle.prot_boxes.specs.Saio.{offset, saio_fields, saio_at, offset_body, saio_body, IsCanonical};

use crate::aux_type::{aux_flags, put_aux_type, read_aux_type};
use crate::fault::{ProtFault, ProtKind};
use eme_types::{Bytes, Items};
use iso_boxes::{
    BoxRef, PutFault, fields, put_box, put_bytes, put_u32, put_u64, u8_at, u24_at, u32_at, u64_at,
};
use std::alloc::{AllocError, Global};

pub type Offsets = Items<u64>;

/// Where samples' auxiliary data stands.
#[derive(Drop)]
pub struct Saio {
    /// The type of the data, where the box names it.
    pub kind: Option<[u8; 4]>,
    /// One offset for all runs of samples, or one for each.
    pub offsets: Offsets,
}

fn read_offset(version: u8, rest: &[u8]) -> Result<(u64, &[u8]), ProtKind>
    ensures { Reads (λ x. (x.0, x.1.now)) result (offset version rest.now) }
{
    if version == 0 {
        fields!(rest, ProtKind::Short; offset: u32_at);
        Ok((u64::from(offset), rest))
    } else {
        fields!(rest, ProtKind::Short; offset: u64_at);
        Ok((offset, rest))
    }
}

fn read_offsets(
    alloc: Global,
    count: u32,
    version: u8,
    bytes: &[u8],
) -> Result<(Offsets, &[u8]), ProtKind>
    ensures { Gives (λ x. (x.0, x.1.now)) result (repeated count (offset version) bytes.now) }
{
    let mut offsets = Items::new(alloc);
    let mut rest = bytes;
    for _ in 0..count {
        let (offset, after) = read_offset(version, rest)?;
        offsets.push(offset)?;
        rest = after;
    }
    Ok((offsets, rest))
}

#[tactic(auto, unfolding(crate::specs::Saio::saio_fields))]
fn read_saio_fields(alloc: Global, rest: &[u8]) -> Result<(Saio, &[u8]), ProtKind>
    ensures { Gives (λ x. (x.0, x.1.now)) result (saio_fields rest.now) }
{
    fields!(rest, ProtKind::Short; version: u8_at, flags: u24_at);
    let (kind, rest) = read_aux_type(flags, rest)?;
    fields!(rest, ProtKind::Short; count: u32_at);
    let (offsets, rest) = read_offsets(alloc, count, version, rest)?;
    Ok((Saio { kind, offsets }, rest))
}

/// Reads a `saio`.
pub fn read_saio(alloc: Global, at: &BoxRef<'_>) -> Result<Saio, ProtFault>
    ensures exact { GivesBox result (saio_at (found at.now)) }
    ensures bounded { IfOk result (λ saio. length saio.offsets ≤ length at.now.body.now) }
{
    match read_saio_fields(alloc, at.body) {
        Ok((saio, _)) => Ok(saio),
        Err(kind) => Err(ProtFault {
            place: at.place,
            kind,
        }),
    }
}

fn put_offsets(body: &mut Bytes, offsets: &[u64]) -> Result<(), AllocError>
    ensures { OnOk result (body.new ≡ body.old ++ flat_map offset_body offsets.now) }
{
    for offset in offsets {
        put_u64(body, *offset)?;
    }
    Ok(())
}

#[tactic(auto, unfolding(crate::specs::Saio::saio_body))]
fn saio_body(alloc: Global, what: &Saio) -> Result<Bytes, AllocError>
    ensures { IfOk result (λ body. body ≡ saio_body what.now) }
{
    let mut body = Bytes::new(alloc);
    put_bytes(&mut body, &[1, 0, 0, aux_flags(what.kind)])?;
    put_aux_type(&mut body, what.kind)?;
    put_u32(&mut body, (what.offsets.len() % 0x1_0000_0000) as u32)?;
    put_offsets(&mut body, what.offsets.as_slice())?;
    Ok(body)
}

/// Appends a `saio` of version 1. A type is written with parameter 0.
pub fn put_saio(alloc: Global, out: &mut Bytes, what: &Saio) -> Result<(), PutFault>
    ensures ok { OnOk result (out.new ≡ out.old ++ boxed (codes "saio") (saio_body what.now)) }
    ensures again { OnOk result (IsCanonical what.now → IsReadAgain saio_at out.old out.new what.now) }
    ensures fits { OnOk result (8 + length (saio_body what.now) < 2 ^ 32) }
    ensures too_long { IsErrOf result PutFault.TooLong → 2 ^ 32 ≤ 8 + length (saio_body what.now) }
    ensures err { OnErr result (out.new ≡ out.old) }
{
    let body = saio_body(alloc, what)?;
    put_box(alloc, out, *b"saio", body.as_slice())
}
