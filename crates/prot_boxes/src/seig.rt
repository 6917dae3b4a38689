// What protects a group of samples, as `seig` entries and `tenc` boxes say it.
ghost use Rattle.std.specs.Prelude.{◌≡◌, ◌++◌, ◌==◌, ◌&&◌, OnOk};
ghost use Rattle.iso_boxes.specs.Reading.{given};
ghost use Rattle.prot_boxes.specs.Answers.{Reads};
ghost use Rattle.prot_boxes.specs.Seig.{is_protected, iv_size, eight, sixteen, constant_iv, seig_fields, constant_body, seig_body};

use crate::fault::ProtKind;
use eme_types::{Bytes, Iv};
use iso_boxes::{bytes8, bytes16, fields, put_bytes, put_u8, u8_at};
use std::alloc::AllocError;

/// What protects the samples of a group.
#[derive(Clone, Copy, Debug, PartialEq, Eq)]
pub struct Seig {
    /// Encrypted blocks of the pattern.
    pub crypt: u8,
    /// Clear blocks of the pattern.
    pub skip: u8,
    pub protected: bool,
    /// The bytes of each sample's IV.
    pub iv_size: u8,
    pub kid: [u8; 16],
    /// The IV of all samples, where they are protected and have none of their own.
    pub constant: Option<Iv>,
}

#[tactic(auto, unfolding(crate::specs::Seig::is_protected))]
fn read_is_protected(rest: &[u8]) -> Result<(bool, &[u8]), ProtKind>
    ensures { Reads (λ x. (x.0, x.1.now)) result (is_protected rest.now) }
{
    fields!(rest, ProtKind::Short; flag: u8_at);
    if flag > 1 {
        return Err(ProtKind::IsProtected);
    }
    Ok((flag == 1, rest))
}

#[tactic(auto, unfolding(crate::specs::Seig::iv_size))]
fn read_iv_size(rest: &[u8]) -> Result<(u8, &[u8]), ProtKind>
    ensures { Reads (λ x. (x.0, x.1.now)) result (iv_size rest.now) }
{
    fields!(rest, ProtKind::Short; size: u8_at);
    match size {
        0 | 8 | 16 => Ok((size, rest)),
        _ => Err(ProtKind::IvSize),
    }
}

#[tactic(auto, unfolding(crate::specs::Seig::eight))]
pub fn read_eight(rest: &[u8]) -> Result<(Iv, &[u8]), ProtKind>
    ensures { Reads (λ x. (x.0, x.1.now)) result (eight rest.now) }
{
    fields!(rest, ProtKind::Short; iv: bytes8);
    Ok((Iv::Eight(iv), rest))
}

#[tactic(auto, unfolding(crate::specs::Seig::sixteen))]
pub fn read_sixteen(rest: &[u8]) -> Result<(Iv, &[u8]), ProtKind>
    ensures { Reads (λ x. (x.0, x.1.now)) result (sixteen rest.now) }
{
    fields!(rest, ProtKind::Short; iv: bytes16);
    Ok((Iv::Sixteen(iv), rest))
}

#[tactic(auto, unfolding(crate::specs::Seig::constant_iv))]
fn read_constant_iv(rest: &[u8]) -> Result<(Iv, &[u8]), ProtKind>
    ensures { Reads (λ x. (x.0, x.1.now)) result (constant_iv rest.now) }
{
    fields!(rest, ProtKind::Short; size: u8_at);
    match size {
        8 => read_eight(rest),
        16 => read_sixteen(rest),
        _ => Err(ProtKind::IvSize),
    }
}

fn read_constant(present: bool, rest: &[u8]) -> Result<(Option<Iv>, &[u8]), ProtKind>
    ensures { Reads (λ x. (x.0, x.1.now)) result (given present constant_iv rest.now) }
{
    if !present {
        return Ok((None, rest));
    }
    let (iv, rest) = read_constant_iv(rest)?;
    Ok((Some(iv), rest))
}

#[tactic(auto, unfolding(crate::specs::Seig::seig_fields))]
pub fn read_seig(rest: &[u8]) -> Result<(Seig, &[u8]), ProtKind>
    ensures { Reads (λ x. (x.0, x.1.now)) result (seig_fields rest.now) }
{
    fields!(rest, ProtKind::Short; _reserved: u8_at, pattern: u8_at);
    let (protected, rest) = read_is_protected(rest)?;
    let (iv_size, rest) = read_iv_size(rest)?;
    fields!(rest, ProtKind::Short; kid: bytes16);
    let (constant, rest) = read_constant(protected && iv_size == 0, rest)?;
    let seig = Seig {
        crypt: pattern / 16,
        skip: pattern % 16,
        protected,
        iv_size,
        kid,
        constant,
    };
    Ok((seig, rest))
}

fn put_constant(body: &mut Bytes, constant: Option<Iv>) -> Result<(), AllocError>
    ensures { OnOk result (body.new ≡ body.old ++ constant_body constant) }
{
    match constant {
        Some(Iv::Eight(iv)) => {
            put_u8(body, 8)?;
            put_bytes(body, &iv)
        }
        Some(Iv::Sixteen(iv)) => {
            put_u8(body, 16)?;
            put_bytes(body, &iv)
        }
        None => Ok(()),
    }
}

#[tactic(auto, unfolding(crate::specs::Seig::seig_body))]
pub fn put_seig(body: &mut Bytes, what: &Seig) -> Result<(), AllocError>
    ensures { OnOk result (body.new ≡ body.old ++ seig_body what.now) }
{
    let pattern = 16 * (what.crypt % 16) + what.skip % 16;
    put_bytes(body, &[0, pattern, u8::from(what.protected), what.iv_size])?;
    put_bytes(body, &what.kid)?;
    put_constant(body, what.constant)
}
