// Writing boxes and their fields.
ghost use Rattle.std.specs.Prelude.{◌≡◌, ◌↔◌, ◌+◌, ◌≤◌, ◌^◌, [], ◌∷◌, ◌++◌, length, OnOk, OnErr, IsErrOf};
ghost use Rattle.std.specs.Int.{w16, w32, w64, to_be_bytes};
ghost use Rattle.iso_boxes.specs.Writing.{number24_body, boxed};

use eme_types::Bytes;
use std::alloc::{AllocError, Global};
use std::mem;

/// Why nothing was written.
#[derive(Clone, Copy, Debug, PartialEq, Eq)]
pub enum PutFault {
    /// The box would not fit a size of 32 bits.
    TooLong,
    OutOfMemory,
}

impl From<AllocError> for PutFault {
    ghost use Rattle.std.specs.Prelude.{◌≡◌};
    ghost use Rattle.iso_boxes.specs.declared.writing.PutFault.TheVariants.{OutOfMemory};

    ghost from_gives = { λ _ e. e ≡ OutOfMemory };

    fn from(_: AllocError) -> PutFault {
        PutFault::OutOfMemory
    }
}

/// Writes a number of 8 bits.
pub fn put_u8(out: &mut Bytes, number: u8) -> Result<(), AllocError>
    ensures ok { OnOk result (out.new ≡ out.old ++ number ∷ []) }
    ensures err { OnErr result (out.new ≡ out.old) }
{
    out.push(number)
}

/// Writes a number of 16 bits, big-endian.
pub fn put_u16(out: &mut Bytes, number: u16) -> Result<(), AllocError>
    ensures ok { OnOk result (out.new ≡ out.old ++ to_be_bytes w16 number) }
    ensures err { OnErr result (out.new ≡ out.old) }
{
    out.extend_from_slice(&number.to_be_bytes())
}

/// Writes the lower 24 bits of a number, big-endian.
pub fn put_u24(out: &mut Bytes, number: u32) -> Result<(), AllocError>
    ensures ok { OnOk result (out.new ≡ out.old ++ number24_body number) }
    ensures err { OnErr result (out.new ≡ out.old) }
{
    let bytes = number.to_be_bytes();
    out.extend_from_slice(&bytes[1..])
}

/// Writes a number of 32 bits, big-endian.
pub fn put_u32(out: &mut Bytes, number: u32) -> Result<(), AllocError>
    ensures ok { OnOk result (out.new ≡ out.old ++ to_be_bytes w32 number) }
    ensures err { OnErr result (out.new ≡ out.old) }
{
    out.extend_from_slice(&number.to_be_bytes())
}

/// Writes a number of 64 bits, big-endian.
pub fn put_u64(out: &mut Bytes, number: u64) -> Result<(), AllocError>
    ensures ok { OnOk result (out.new ≡ out.old ++ to_be_bytes w64 number) }
    ensures err { OnErr result (out.new ≡ out.old) }
{
    out.extend_from_slice(&number.to_be_bytes())
}

/// Writes bytes as they are.
pub fn put_bytes(out: &mut Bytes, bytes: &[u8]) -> Result<(), AllocError>
    ensures ok { OnOk result (out.new ≡ out.old ++ bytes.now) }
    ensures err { OnErr result (out.new ≡ out.old) }
{
    out.extend_from_slice(bytes)
}

// All of it or nothing: the room is taken first.
#[tactic(auto, unfolding(crate::specs::Writing::boxed))]
fn append_box(out: &mut Vec<u8>, size: u32, kind: [u8; 4], body: &[u8]) -> Result<(), AllocError>
    requires { size ≡ 8 + length body.now }
    ensures ok { OnOk result (out.new.items ≡ out.old.items ++ boxed kind body.now) }
    ensures err { OnErr result (out.new.items ≡ out.old.items) }
{
    out.reserve(size as usize)?;
    out.extend_from_slice(&size.to_be_bytes())?;
    out.extend_from_slice(&kind)?;
    out.extend_from_slice(body)?;
    Ok(())
}

/// Appends a box with a size of 32 bits (ISO/IEC 14496-12 section 4.2).
pub fn put_box(alloc: Global, out: &mut Bytes, kind: [u8; 4], body: &[u8]) -> Result<(), PutFault>
    ensures ok { OnOk result (out.new ≡ out.old ++ boxed kind body.now) }
    ensures too_long { IsErrOf result PutFault.TooLong ↔ (2 ^ 32 ≤ 8 + length body.now) }
    ensures err { OnErr result (out.new ≡ out.old) }
{
    if body.len() >= 0xffff_fff8 {
        return Err(PutFault::TooLong);
    }
    let size = (8 + body.len()) as u32;
    let mut whole = mem::replace(out, Bytes::new(alloc)).into_vec();
    let appended = append_box(&mut whole, size, kind, body);
    *out = Bytes::from_vec(whole);
    appended?;
    Ok(())
}
