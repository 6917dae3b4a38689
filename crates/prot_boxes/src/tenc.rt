// The track encryption box (ISO/IEC 23001-7 section 8.2).
ghost use Rattle.std.specs.Prelude.{◌≡◌, ◌↔◌, ◌<◌, ◌≤◌, ◌+◌, ◌^◌, ◌++◌, length, codes, IfOk, OnOk, OnErr, IsErrOf};
ghost use Rattle.iso_boxes.specs.Walk.{found};
ghost use Rattle.iso_boxes.specs.Writing.{boxed};
ghost use Rattle.prot_boxes.specs.Answers.{Reads, IsReadAgain};
ghost use Rattle.prot_boxes.specs.Tenc.{patterned, tenc_fields, tenc_at, seig_of, tenc_body, IsCanonical};

use crate::fault::{ProtFault, ProtKind};
use crate::seig::{Seig, put_seig, read_seig};
use eme_types::{Bytes, Iv};
use iso_boxes::{BoxRef, PutFault, fields, put_box, put_bytes, u8_at, u24_at};
use std::alloc::{AllocError, Global};

/// What protects the samples of a track.
#[derive(Clone, Copy, Debug, PartialEq, Eq)]
pub struct Tenc {
    pub version: u8,
    /// Encrypted blocks of the pattern; 0 in version 0.
    pub crypt: u8,
    /// Clear blocks of the pattern; 0 in version 0.
    pub skip: u8,
    pub protected: bool,
    /// The bytes of each sample's IV.
    pub iv_size: u8,
    pub kid: [u8; 16],
    /// The IV of all samples, where they are protected and have none of their own.
    pub constant: Option<Iv>,
}

fn patterned(version: u8, blocks: u8) -> u8
    ensures { result ≡ patterned version blocks }
{
    if version == 0 { 0 } else { blocks }
}

#[tactic(auto, unfolding(crate::specs::Tenc::tenc_fields))]
fn read_tenc_fields(rest: &[u8]) -> Result<(Tenc, &[u8]), ProtKind>
    ensures { Reads (λ x. (x.0, x.1.now)) result (tenc_fields rest.now) }
{
    fields!(rest, ProtKind::Short; version: u8_at, _flags: u24_at);
    let (seig, rest) = read_seig(rest)?;
    let kid = seig.kid;
    let tenc = Tenc {
        version,
        crypt: patterned(version, seig.crypt),
        skip: patterned(version, seig.skip),
        protected: seig.protected,
        iv_size: seig.iv_size,
        kid,
        constant: seig.constant,
    };
    Ok((tenc, rest))
}

/// Reads a `tenc`. It takes no memory.
pub fn read_tenc(at: &BoxRef<'_>) -> Result<Tenc, ProtFault>
    ensures { result ≡ tenc_at (found at.now) }
{
    match read_tenc_fields(at.body) {
        Ok((tenc, _)) => Ok(tenc),
        Err(kind) => Err(ProtFault {
            place: at.place,
            kind,
        }),
    }
}

#[tactic(auto, unfolding(crate::specs::Tenc::tenc_body))]
fn tenc_body(alloc: Global, what: &Tenc) -> Result<Bytes, AllocError>
    ensures { IfOk result (λ body. body ≡ tenc_body what.now) }
{
    let kid = what.kid;
    let seig = Seig {
        crypt: patterned(what.version, what.crypt),
        skip: patterned(what.version, what.skip),
        protected: what.protected,
        iv_size: what.iv_size,
        kid,
        constant: what.constant,
    };
    let mut body = Bytes::new(alloc);
    put_bytes(&mut body, &[what.version, 0, 0, 0])?;
    put_seig(&mut body, &seig)?;
    Ok(body)
}

/// Appends a `tenc`.
pub fn put_tenc(alloc: Global, out: &mut Bytes, what: &Tenc) -> Result<(), PutFault>
    ensures ok { OnOk result (out.new ≡ out.old ++ boxed (codes "tenc") (tenc_body what.now)) }
    ensures again { OnOk result (IsCanonical what.now → IsReadAgain tenc_at out.old out.new what.now) }
    ensures fits { OnOk result (8 + length (tenc_body what.now) < 2 ^ 32) }
    ensures too_long { IsErrOf result PutFault.TooLong → 2 ^ 32 ≤ 8 + length (tenc_body what.now) }
    ensures err { OnErr result (out.new ≡ out.old) }
{
    let body = tenc_body(alloc, what)?;
    put_box(alloc, out, *b"tenc", body.as_slice())
}
