// The IVs and subsamples of samples (ISO/IEC 23001-7 section 7.2).
ghost use Rattle.std.specs.Prelude.{◌≡◌, ◌<◌, ◌≤◌, ◌+◌, ◌^◌, ◌++◌, length, codes, IfOk, OnOk, OnErr, IsErrOf};
ghost use Rattle.std.specs.List.{All, flat_map};
ghost use Rattle.iso_boxes.specs.Reading.{repeated, one_each};
ghost use Rattle.iso_boxes.specs.Walk.{found};
ghost use Rattle.iso_boxes.specs.Writing.{boxed};
ghost use Rattle.prot_boxes.specs.Answers.{Reads, Gives, GivesBox, IsReadAgain};
ghost use Rattle.prot_boxes.specs.Senc.{iv_fields, sub, counted_subs, subs_if, item, senc_fields, senc_at, iv_body, sub_body, subs_body, subs_body_if, item_body, senc_body, iv_lengths, IsCanonical};

use crate::fault::{ProtFault, ProtKind};
use crate::seig::{read_eight, read_sixteen};
use eme_types::{Bytes, Items, Iv, IvSizes, Sub, Subs};
use iso_boxes::{
    BoxRef, PutFault, fields, put_box, put_bytes, put_u16, put_u32, u8_at, u16_at, u24_at, u32_at,
};
use std::alloc::{AllocError, Global};

/// The IV of a sample, where it has one of its own, and its subsamples.
#[derive(Drop)]
pub struct SencItem {
    pub iv: Option<Iv>,
    pub subs: Subs,
}

pub type SencItems = Items<SencItem>;

/// The IVs and subsamples of samples, one item a sample.
#[derive(Drop)]
pub struct Senc {
    pub items: SencItems,
    /// Whether flag 2 is set: the box has subsamples.
    pub flag2: bool,
}

fn read_iv(size: u8, rest: &[u8]) -> Result<(Option<Iv>, &[u8]), ProtKind>
    ensures { Reads (λ x. (x.0, x.1.now)) result (iv_fields size rest.now) }
{
    match size {
        8 => {
            let (iv, rest) = read_eight(rest)?;
            Ok((Some(iv), rest))
        }
        16 => {
            let (iv, rest) = read_sixteen(rest)?;
            Ok((Some(iv), rest))
        }
        _ => Ok((None, rest)),
    }
}

#[tactic(auto, unfolding(crate::specs::Senc::sub))]
fn read_sub(rest: &[u8]) -> Result<(Sub, &[u8]), ProtKind>
    ensures { Reads (λ x. (x.0, x.1.now)) result (sub rest.now) }
{
    fields!(rest, ProtKind::Short; clear: u16_at, prot: u32_at);
    Ok((Sub { clear, prot }, rest))
}

fn read_subs(alloc: Global, count: u16, bytes: &[u8]) -> Result<(Subs, &[u8]), ProtKind>
    ensures { Gives (λ x. (x.0, x.1.now)) result (repeated count sub bytes.now) }
{
    let mut subs = Items::new(alloc);
    let mut rest = bytes;
    for _ in 0..count {
        let (sub, after) = read_sub(rest)?;
        subs.push(sub)?;
        rest = after;
    }
    Ok((subs, rest))
}

#[tactic(auto, unfolding(crate::specs::Senc::counted_subs))]
fn read_subs_if(alloc: Global, flag2: bool, rest: &[u8]) -> Result<(Subs, &[u8]), ProtKind>
    ensures { Gives (λ x. (x.0, x.1.now)) result (subs_if flag2 rest.now) }
{
    if !flag2 {
        return Ok((Items::new(alloc), rest));
    }
    fields!(rest, ProtKind::Short; count: u16_at);
    read_subs(alloc, count, rest)
}

/// Reads what a sample has of its own: an IV of `size` bytes (0, 8 or 16), then its subsamples where flag 2 is set. Behind it
/// stand the bytes that were not read.
#[tactic(auto, unfolding(crate::specs::Senc::item))]
pub fn read_senc_item(
    alloc: Global,
    flag2: bool,
    size: u8,
    rest: &[u8],
) -> Result<(SencItem, &[u8]), ProtKind>
    ensures { Gives (λ x. (x.0, x.1.now)) result (item flag2 size rest.now) }
{
    let (iv, rest) = read_iv(size, rest)?;
    let (subs, rest) = read_subs_if(alloc, flag2, rest)?;
    Ok((SencItem { iv, subs }, rest))
}

fn read_items<'a>(
    alloc: Global,
    flag2: bool,
    sizes: &[u8],
    bytes: &'a [u8],
) -> Result<(SencItems, &'a [u8]), ProtKind>
    ensures { Gives (λ x. (x.0, x.1.now)) result (one_each (item flag2) sizes.now bytes.now) }
{
    let mut items = Items::new(alloc);
    let mut rest = bytes;
    for size in sizes {
        let (item, after) = read_senc_item(alloc, flag2, *size, rest)?;
        items.push(item)?;
        rest = after;
    }
    Ok((items, rest))
}

#[tactic(auto, unfolding(crate::specs::Senc::senc_fields))]
fn read_senc_fields<'a>(
    alloc: Global,
    sizes: &[u8],
    rest: &'a [u8],
) -> Result<(Senc, &'a [u8]), ProtKind>
    ensures { Gives (λ x. (x.0, x.1.now)) result (senc_fields sizes.now rest.now) }
{
    fields!(rest, ProtKind::Short; _version: u8_at, flags: u24_at, count: u32_at);
    if count as usize != sizes.len() {
        return Err(ProtKind::CountDiffers);
    }
    let flag2 = flags & 0x2 != 0;
    let (items, rest) = read_items(alloc, flag2, sizes, rest)?;
    Ok((Senc { items, flag2 }, rest))
}

/// Reads a `senc` by the IV size of each sample: 0, 8 or 16 bytes.
pub fn read_senc(alloc: Global, at: &BoxRef<'_>, sizes: &IvSizes) -> Result<Senc, ProtFault>
    ensures exact { GivesBox result (senc_at sizes.now (found at.now)) }
    ensures counted { IfOk result (λ senc. length senc.items ≡ length sizes.now) }
    ensures bounded { IfOk result (λ senc. All (λ item. length item.subs ≤ length at.now.body.now) senc.items) }
{
    match read_senc_fields(alloc, sizes.as_slice(), at.body) {
        Ok((senc, _)) => Ok(senc),
        Err(kind) => Err(ProtFault {
            place: at.place,
            kind,
        }),
    }
}

fn put_iv(body: &mut Bytes, iv: Option<Iv>) -> Result<(), AllocError>
    ensures { OnOk result (body.new ≡ body.old ++ iv_body iv) }
{
    match iv {
        Some(Iv::Eight(iv)) => put_bytes(body, &iv),
        Some(Iv::Sixteen(iv)) => put_bytes(body, &iv),
        None => Ok(()),
    }
}

fn put_each_sub(body: &mut Bytes, subs: &[Sub]) -> Result<(), AllocError>
    ensures { OnOk result (body.new ≡ body.old ++ flat_map sub_body subs.now) }
{
    for sub in subs {
        put_u16(body, sub.clear)?;
        put_u32(body, sub.prot)?;
    }
    Ok(())
}

#[tactic(auto, unfolding(crate::specs::Senc::subs_body))]
fn put_subs(body: &mut Bytes, subs: &[Sub]) -> Result<(), AllocError>
    ensures { OnOk result (body.new ≡ body.old ++ subs_body subs.now) }
{
    put_u16(body, (subs.len() % 0x1_0000) as u16)?;
    put_each_sub(body, subs)
}

fn put_item(body: &mut Bytes, flag2: bool, item: &SencItem) -> Result<(), AllocError>
    ensures { OnOk result (body.new ≡ body.old ++ item_body flag2 item.now) }
{
    put_iv(body, item.iv)?;
    if flag2 {
        put_subs(body, item.subs.as_slice())
    } else {
        Ok(())
    }
}

fn put_items(body: &mut Bytes, flag2: bool, items: &[SencItem]) -> Result<(), AllocError>
    ensures { OnOk result (body.new ≡ body.old ++ flat_map (item_body flag2) items.now) }
{
    for item in items {
        put_item(body, flag2, item)?;
    }
    Ok(())
}

#[tactic(auto, unfolding(crate::specs::Senc::senc_body))]
fn senc_body(alloc: Global, what: &Senc) -> Result<Bytes, AllocError>
    ensures { IfOk result (λ body. body ≡ senc_body what.now) }
{
    let count = (what.items.len() % 0x1_0000_0000) as u32;
    let flags = if what.flag2 { 2 } else { 0 };
    let mut body = Bytes::new(alloc);
    fields!(body; &[0, 0, 0, flags] => put_bytes, count => put_u32);
    put_items(&mut body, what.flag2, what.items.as_slice())?;
    Ok(body)
}

/// Appends a `senc`.
pub fn put_senc(alloc: Global, out: &mut Bytes, what: &Senc) -> Result<(), PutFault>
    ensures ok { OnOk result (out.new ≡ out.old ++ boxed (codes "senc") (senc_body what.now)) }
    ensures again { OnOk result (IsCanonical what.now → IsReadAgain (senc_at (iv_lengths what.now)) out.old out.new what.now) }
    ensures fits { OnOk result (8 + length (senc_body what.now) < 2 ^ 32) }
    ensures too_long { IsErrOf result PutFault.TooLong → 2 ^ 32 ≤ 8 + length (senc_body what.now) }
    ensures err { OnErr result (out.new ≡ out.old) }
{
    let body = senc_body(alloc, what)?;
    put_box(alloc, out, *b"senc", body.as_slice())
}
