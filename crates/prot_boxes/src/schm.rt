// The scheme type box (ISO/IEC 14496-12 section 8.12.5).
ghost use Rattle.std.specs.Prelude.{◌≡◌, ◌<◌, ◌≤◌, ◌+◌, ◌^◌, ◌++◌, length, codes, IfOk, OnOk, OnErr, IsErrOf};
ghost use Rattle.iso_boxes.specs.Walk.{found};
ghost use Rattle.iso_boxes.specs.Writing.{boxed};
ghost use Rattle.prot_boxes.specs.Answers.{Reads, IsReadAgain};
ghost use Rattle.prot_boxes.specs.Schm.{schm_fields, schm_at, schm_body, IsCanonical};

use crate::fault::{ProtFault, ProtKind};
use eme_types::Bytes;
use iso_boxes::{
    BoxRef, PutFault, bytes4, fields, put_box, put_bytes, put_u32, u8_at, u24_at, u32_at,
};
use std::alloc::{AllocError, Global};

/// The type of a protection scheme, and its version.
#[derive(Clone, Copy, Debug, PartialEq, Eq)]
pub struct Schm {
    pub kind: [u8; 4],
    pub version: u32,
}

#[tactic(auto, unfolding(crate::specs::Schm::schm_fields))]
fn read_schm_fields(rest: &[u8]) -> Result<(Schm, &[u8]), ProtKind>
    ensures { Reads (λ x. (x.0, x.1.now)) result (schm_fields rest.now) }
{
    fields!(rest, ProtKind::Short; _version: u8_at, _flags: u24_at, kind: bytes4, version: u32_at);
    Ok((Schm { kind, version }, rest))
}

/// Reads a `schm`. It takes no memory.
pub fn read_schm(at: &BoxRef<'_>) -> Result<Schm, ProtFault>
    ensures { result ≡ schm_at (found at.now) }
{
    match read_schm_fields(at.body) {
        Ok((schm, _)) => Ok(schm),
        Err(kind) => Err(ProtFault {
            place: at.place,
            kind,
        }),
    }
}

#[tactic(auto, unfolding(crate::specs::Schm::schm_body))]
fn schm_body(alloc: Global, what: &Schm) -> Result<Bytes, AllocError>
    ensures { IfOk result (λ body. body ≡ schm_body what.now) }
{
    let mut body = Bytes::new(alloc);
    fields!(body; &[0, 0, 0, 0] => put_bytes, &what.kind => put_bytes, what.version => put_u32);
    Ok(body)
}

/// Appends a `schm`.
pub fn put_schm(alloc: Global, out: &mut Bytes, what: &Schm) -> Result<(), PutFault>
    ensures ok { OnOk result (out.new ≡ out.old ++ boxed (codes "schm") (schm_body what.now)) }
    ensures again { OnOk result (IsCanonical what.now → IsReadAgain schm_at out.old out.new what.now) }
    ensures fits { OnOk result (8 + length (schm_body what.now) < 2 ^ 32) }
    ensures too_long { IsErrOf result PutFault.TooLong → 2 ^ 32 ≤ 8 + length (schm_body what.now) }
    ensures err { OnErr result (out.new ≡ out.old) }
{
    let body = schm_body(alloc, what)?;
    put_box(alloc, out, *b"schm", body.as_slice())
}
