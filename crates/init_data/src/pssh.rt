// Protection system specific headers.
ghost use Rattle.std.specs.Prelude.{◌≡◌, ◌≢◌, ◌+◌, ◌^◌, ◌≤◌, ◌<◌, ◌++◌, [], ◌∷◌, length, drop, flat_map, false, IfOk, IfErr, OnOk, OnErr, IsErrOf, Ok, Err};
ghost use Rattle.std.specs.List.{All};
ghost use Rattle.eme_types.specs.FirstFault.{Gives};
ghost use Rattle.iso_boxes.specs.Walk.{found, walk};
ghost use Rattle.init_data.specs.declared.fault.InitFault.TheVariants.{Invalid, NoKids, OutOfMemory};
ghost use Rattle.init_data.specs.Pssh.{some_kids, gathered, counted_kids, kids_at, content_at, pssh_of, pssh_in, pssh_list, listed_body, content_body, pssh_body, pssh_box, AreSixteen, IsCanonical, IsReadAgain};

use crate::fault::InitFault;
use eme_types::{Bytes, Items, KeyId, KeyIdFault, Kids, MAX_INIT_DATA_BYTES};
use iso_boxes::{
    BoxRef, Boxes, PutFault, bytes16, fields, put_box, put_bytes, put_u32, u8_at, u24_at, u32_at,
};
use std::alloc::{AllocError, Global};

/// A `pssh` box (ISO/IEC 23001-7 section 8.1): the protection system by its SystemID, the key ids of 16 bytes that versions
/// above 0 list, and data of the system.
#[derive(Drop)]
pub struct Pssh {
    pub version: u8,
    pub system: [u8; 16],
    pub kids: Kids,
    pub content: Bytes,
}

pub type PsshList = Items<Pssh>;

fn kid_of(alloc: Global, bytes: [u8; 16]) -> Result<KeyId, AllocError>
    ensures { IfOk result (λ kid. kid ≡ bytes) }
{
    match KeyId::new(alloc, &bytes) {
        Ok(kid) => Ok(kid),
        Err(KeyIdFault::OutOfMemory) => Err(AllocError),
        Err(KeyIdFault::Length) => unreachable!(),
    }
}

fn some_kids(alloc: Global, count: u32, bytes: &[u8]) -> Result<(Kids, &[u8]), InitFault>
    ensures value { Gives (λ e. e ≡ OutOfMemory) (λ x. (x.0, x.1.now)) result (some_kids count bytes.now) }
    ensures only { IfErr result (λ fault. fault ≢ NoKids) }
{
    let mut kids = Kids::new(alloc);
    let mut rest = bytes;
    for _ in 0..count {
        let Some(read) = bytes16(rest) else {
            return Err(InitFault::Invalid);
        };
        let kid = kid_of(alloc, read.0)?;
        kids.push(kid)?;
        rest = read.1;
    }
    Ok((kids, rest))
}

// Key ids of 16 bytes, as many as a number of 32 bits says.
#[tactic(auto, unfolding(crate::specs::Pssh::counted_kids))]
fn counted_kids(alloc: Global, bytes: &[u8]) -> Result<(Kids, &[u8]), InitFault>
    ensures value { Gives (λ e. e ≡ OutOfMemory) (λ x. (x.0, x.1.now)) result (counted_kids bytes.now) }
    ensures only { IfErr result (λ fault. fault ≢ NoKids) }
{
    fields!(bytes, InitFault::Invalid; count: u32_at);
    some_kids(alloc, count, bytes)
}

fn kids_at(alloc: Global, version: u8, bytes: &[u8]) -> Result<(Kids, &[u8]), InitFault>
    ensures value { Gives (λ e. e ≡ OutOfMemory) (λ x. (x.0, x.1.now)) result (kids_at version bytes.now) }
    ensures only { IfErr result (λ fault. fault ≢ NoKids) }
{
    if version == 0 {
        return Ok((Kids::new(alloc), bytes));
    }
    counted_kids(alloc, bytes)
}

// The data, up to the end of the box.
fn content_at(alloc: Global, bytes: &[u8]) -> Result<Bytes, InitFault>
    ensures value { Gives (λ e. e ≡ OutOfMemory) (λ content. content) result (content_at bytes.now) }
    ensures only { IfErr result (λ fault. fault ≢ NoKids) }
{
    fields!(bytes, InitFault::Invalid; size: u32_at);
    if bytes.len() != size as usize {
        return Err(InitFault::Invalid);
    }
    Ok(Bytes::from_slice(alloc, bytes)?)
}

#[tactic(auto, unfolding(crate::specs::Pssh::pssh_of))]
fn pssh_of(alloc: Global, body: &[u8]) -> Result<Pssh, InitFault>
    ensures value { Gives (λ e. e ≡ OutOfMemory) (λ pssh. pssh) result (pssh_of body.now) }
    ensures only { IfErr result (λ fault. fault ≢ NoKids) }
{
    fields!(body, InitFault::Invalid; version: u8_at, _flags: u24_at, system: bytes16);
    let (kids, rest) = kids_at(alloc, version, body)?;
    let content = content_at(alloc, rest)?;
    Ok(Pssh {
        version,
        system,
        kids,
        content,
    })
}

#[tactic(auto, unfolding(crate::specs::Pssh::pssh_in))]
fn pssh_in(alloc: Global, at: &BoxRef<'_>) -> Result<Pssh, InitFault>
    ensures value { Gives (λ e. e ≡ OutOfMemory) (λ pssh. pssh) result (pssh_in (found at.now)) }
    ensures only { IfErr result (λ fault. fault ≢ NoKids) }
{
    if at.kind != *b"pssh" {
        return Err(InitFault::Invalid);
    }
    pssh_of(alloc, at.body)
}

fn gathered(alloc: Global, bytes: &[u8]) -> Result<PsshList, InitFault>
    ensures value { Gives (λ e. e ≡ OutOfMemory) (λ list. list) result (gathered (walk bytes.now 0 false)) }
    ensures only { IfErr result (λ fault. fault ≢ NoKids) }
{
    let mut list = PsshList::new(alloc);
    let mut boxes = Boxes::new(bytes, 0, false);
    'walk: loop {
        match boxes.next_box() {
            Ok(Some(at)) => {
                let pssh = pssh_in(alloc, &at)?;
                list.push(pssh)?;
            }
            Ok(None) => return Ok(list),
            Err(_) => return Err(InitFault::Invalid),
        }
    }
}

/// The `pssh` boxes that the bytes are, in order: one or more, and nothing else, in at most 65,536 bytes.
#[tactic(auto, unfolding(crate::specs::Pssh::pssh_list))]
pub fn read_pssh(alloc: Global, bytes: &[u8]) -> Result<PsshList, InitFault>
    ensures ok { IfOk result (λ list. pssh_list bytes.now ≡ Ok list) }
    ensures refused { IfErr result (λ fault. fault ≢ OutOfMemory → pssh_list bytes.now ≡ Err fault) }
    ensures only { IfErr result (λ fault. fault ≢ NoKids) }
{
    if bytes.is_empty() || bytes.len() > MAX_INIT_DATA_BYTES {
        return Err(InitFault::Invalid);
    }
    gathered(alloc, bytes)
}

fn put_kids(body: &mut Bytes, kids: &[KeyId]) -> Result<(), AllocError>
    ensures { OnOk result (body.new ≡ body.old ++ flat_map (λ kid. kid) kids.now) }
{
    for kid in kids {
        put_bytes(body, kid.bytes())?;
    }
    Ok(())
}

fn put_listed(body: &mut Bytes, version: u8, kids: &[KeyId]) -> Result<(), AllocError>
    ensures { OnOk result (body.new ≡ body.old ++ listed_body version kids.now) }
{
    if version == 0 {
        return Ok(());
    }
    put_u32(body, (kids.len() % 0x1_0000_0000) as u32)?;
    put_kids(body, kids)
}

fn put_content(body: &mut Bytes, content: &[u8]) -> Result<(), AllocError>
    ensures { OnOk result (body.new ≡ body.old ++ content_body content.now) }
{
    put_u32(body, (content.len() % 0x1_0000_0000) as u32)?;
    put_bytes(body, content)
}

#[tactic(auto, unfolding(crate::specs::Pssh::pssh_body))]
fn pssh_body(alloc: Global, what: &Pssh) -> Result<Bytes, AllocError>
    ensures { IfOk result (λ body. body ≡ pssh_body what.now) }
{
    let mut body = Bytes::new(alloc);
    fields!(body; &[what.version, 0, 0, 0] => put_bytes, &what.system => put_bytes);
    put_listed(&mut body, what.version, what.kids.as_slice())?;
    put_content(&mut body, what.content.as_slice())?;
    Ok(body)
}

/// Appends a `pssh` box with flags 0 (ISO/IEC 23001-7 section 8.1).
pub fn put_pssh(alloc: Global, out: &mut Bytes, what: &Pssh) -> Result<(), PutFault>
    requires sixteen { AreSixteen what.now.kids }
    requires plain { what.now.version ≡ 0 → what.now.kids ≡ [] }
    ensures ok { OnOk result (out.new ≡ out.old ++ pssh_box what.now) }
    ensures again { OnOk result (IsCanonical what.now → IsReadAgain out.old out.new what.now) }
    ensures alone { OnOk result (IsCanonical what.now → pssh_list (drop (length out.old) out.new) ≡ Ok (what.now ∷ [])) }
    ensures fits { OnOk result (8 + length (pssh_body what.now) < 2 ^ 32) }
    ensures too_long { IsErrOf result PutFault.TooLong → 2 ^ 32 ≤ 8 + length (pssh_body what.now) }
    ensures err { OnErr result (out.new ≡ out.old) }
{
    let body = pssh_body(alloc, what)?;
    put_box(alloc, out, *b"pssh", body.as_slice())
}
