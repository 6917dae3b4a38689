// The sizes of samples' auxiliary data (ISO/IEC 14496-12 section 8.7.8).
ghost use Rattle.std.specs.Prelude.{◌≡◌, ◌<◌, ◌≤◌, ◌+◌, ◌^◌, ◌++◌, length, codes, IfOk, OnOk, OnErr, IsErrOf};
ghost use Rattle.iso_boxes.specs.Walk.{found};
ghost use Rattle.iso_boxes.specs.Writing.{boxed};
ghost use Rattle.prot_boxes.specs.Answers.{Gives, GivesBox, IsReadAgain};
ghost use Rattle.prot_boxes.specs.Saiz.{sizes_if, saiz_fields, saiz_at, saiz_body, IsCanonical};

use crate::aux_type::{aux_flags, put_aux_type, read_aux_type};
use crate::fault::{ProtFault, ProtKind};
use eme_types::Bytes;
use iso_boxes::{
    BoxRef, PutFault, fields, put_box, put_bytes, put_u8, put_u32, u8_at, u24_at, u32_at,
};
use std::alloc::{AllocError, Global};

/// The sizes of samples' auxiliary data, in bytes.
#[derive(Drop)]
pub struct Saiz {
    /// The type of the data, where the box names it.
    pub kind: Option<[u8; 4]>,
    /// The size of each sample's data; 0 where each has its own.
    pub default_size: u8,
    /// The number of samples.
    pub count: u32,
    /// The size of each counted sample's data where the default size is 0; else empty.
    pub sizes: Bytes,
}

fn read_sizes(
    alloc: Global,
    default_size: u8,
    count: u32,
    rest: &[u8],
) -> Result<(Bytes, &[u8]), ProtKind>
    ensures { Gives (λ x. (x.0, x.1.now)) result (sizes_if default_size count rest.now) }
{
    if default_size != 0 {
        return Ok((Bytes::new(alloc), rest));
    }
    if rest.len() < count as usize {
        return Err(ProtKind::Short);
    }
    let (sizes, rest) = rest.split_at(count as usize);
    let sizes = Bytes::from_slice(alloc, sizes)?;
    Ok((sizes, rest))
}

#[tactic(auto, unfolding(crate::specs::Saiz::saiz_fields))]
fn read_saiz_fields(alloc: Global, rest: &[u8]) -> Result<(Saiz, &[u8]), ProtKind>
    ensures { Gives (λ x. (x.0, x.1.now)) result (saiz_fields rest.now) }
{
    fields!(rest, ProtKind::Short; _version: u8_at, flags: u24_at);
    let (kind, rest) = read_aux_type(flags, rest)?;
    fields!(rest, ProtKind::Short; default_size: u8_at, count: u32_at);
    let (sizes, rest) = read_sizes(alloc, default_size, count, rest)?;
    let saiz = Saiz {
        kind,
        default_size,
        count,
        sizes,
    };
    Ok((saiz, rest))
}

/// Reads a `saiz`.
pub fn read_saiz(alloc: Global, at: &BoxRef<'_>) -> Result<Saiz, ProtFault>
    ensures exact { GivesBox result (saiz_at (found at.now)) }
    ensures bounded { IfOk result (λ saiz. length saiz.sizes ≤ length at.now.body.now) }
{
    match read_saiz_fields(alloc, at.body) {
        Ok((saiz, _)) => Ok(saiz),
        Err(kind) => Err(ProtFault {
            place: at.place,
            kind,
        }),
    }
}

#[tactic(auto, unfolding(crate::specs::Saiz::saiz_body))]
fn saiz_body(alloc: Global, what: &Saiz) -> Result<Bytes, AllocError>
    ensures { IfOk result (λ body. body ≡ saiz_body what.now) }
{
    let mut body = Bytes::new(alloc);
    put_bytes(&mut body, &[0, 0, 0, aux_flags(what.kind)])?;
    put_aux_type(&mut body, what.kind)?;
    fields!(body; what.default_size => put_u8, what.count => put_u32, what.sizes.as_slice() => put_bytes);
    Ok(body)
}

/// Appends a `saiz`. A type is written with parameter 0.
pub fn put_saiz(alloc: Global, out: &mut Bytes, what: &Saiz) -> Result<(), PutFault>
    ensures ok { OnOk result (out.new ≡ out.old ++ boxed (codes "saiz") (saiz_body what.now)) }
    ensures again { OnOk result (IsCanonical what.now → IsReadAgain saiz_at out.old out.new what.now) }
    ensures fits { OnOk result (8 + length (saiz_body what.now) < 2 ^ 32) }
    ensures too_long { IsErrOf result PutFault.TooLong → 2 ^ 32 ≤ 8 + length (saiz_body what.now) }
    ensures err { OnErr result (out.new ≡ out.old) }
{
    let body = saiz_body(alloc, what)?;
    put_box(alloc, out, *b"saiz", body.as_slice())
}
