// The type of auxiliary data, which `saiz` and `saio` may begin with.
ghost use Rattle.std.specs.Prelude.{◌≡◌, ◌++◌, OnOk};
ghost use Rattle.prot_boxes.specs.Answers.{Reads};
ghost use Rattle.prot_boxes.specs.AuxType.{aux_type, aux_type_if, aux_flags, aux_body};

use crate::fault::ProtKind;
use eme_types::Bytes;
use iso_boxes::{bytes4, fields, put_bytes, u32_at};
use std::alloc::AllocError;

#[tactic(auto, unfolding(crate::specs::AuxType::aux_type))]
fn read_type(rest: &[u8]) -> Result<([u8; 4], &[u8]), ProtKind>
    ensures { Reads (λ x. (x.0, x.1.now)) result (aux_type rest.now) }
{
    fields!(rest, ProtKind::Short; kind: bytes4, _parameter: u32_at);
    Ok((kind, rest))
}

pub fn read_aux_type(flags: u32, rest: &[u8]) -> Result<(Option<[u8; 4]>, &[u8]), ProtKind>
    ensures { Reads (λ x. (x.0, x.1.now)) result (aux_type_if flags rest.now) }
{
    if flags & 0x1 == 0 {
        return Ok((None, rest));
    }
    let (kind, rest) = read_type(rest)?;
    Ok((Some(kind), rest))
}

/// The flags of a box with or without a type.
pub fn aux_flags(kind: Option<[u8; 4]>) -> u8
    ensures { result ≡ aux_flags kind }
{
    if kind.is_some() { 1 } else { 0 }
}

/// Writes a type with parameter 0.
pub fn put_aux_type(body: &mut Bytes, kind: Option<[u8; 4]>) -> Result<(), AllocError>
    ensures { OnOk result (body.new ≡ body.old ++ aux_body kind) }
{
    match kind {
        Some(kind) => {
            put_bytes(body, &kind)?;
            put_bytes(body, &[0, 0, 0, 0])
        }
        None => Ok(()),
    }
}
