// Bytes and their record.
ghost use Rattle.std.specs.Prelude.{◌≡◌, ◌≤◌, ◌<◌, ◌+◌, ◌-◌, ◌++◌, [], ◌∷◌, min, length, take, drop, vec_len, vec_capacity, OnOk, IfOk};
ghost use Rattle.vault_disk.specs.Content.{put_at, wrote, begun, replayed, filled};

use crate::step::Step;
use std::alloc::{AllocError, Global};

/// Writes the byte into the room that there is.
fn write_byte(content: &mut Vec<u8>, place: usize, byte: u8)
    requires inside { place ≤ vec_len content.old }
    requires room { vec_len content.old < vec_capacity content.old }
    ensures bytes { content.new.items ≡ put_at content.old.items place byte }
    ensures longer { vec_len content.new ≤ vec_len content.old + 1 }
    ensures past { place < vec_len content.new }
    ensures room { vec_capacity content.new ≡ vec_capacity content.old }
{
    if place < content.len() {
        content[place] = byte;
        return;
    }
    content.push_reserved(byte);
}

/// Writes the bytes one by one, and notes each.
pub fn write_bytes(content: &mut Vec<u8>, steps: &mut Vec<Step>, place: usize, bytes: &[u8])
    requires inside { place ≤ vec_len content.old }
    requires room { vec_len content.old + length bytes.now ≤ vec_capacity content.old }
    requires noted { vec_len steps.old + length bytes.now ≤ vec_capacity steps.old }
    ensures bytes { content.new.items ≡ take place content.old.items ++ bytes.now ++ drop (place + length bytes.now) content.old.items }
    ensures longer { vec_len content.new ≤ vec_len content.old + length bytes.now }
    ensures steps { steps.new.items ≡ steps.old.items ++ wrote place bytes.now }
    ensures noted { vec_len steps.new ≡ vec_len steps.old + length bytes.now }
    ensures rooms { (vec_capacity content.new ≡ vec_capacity content.old) × (vec_capacity steps.new ≡ vec_capacity steps.old) }
{
    for (i, byte) in bytes.iter().enumerate() {
        write_byte(content, place + i, *byte);
        steps.push_reserved(Step::Wrote {
            place: place + i,
            byte: *byte,
        });
    }
}

/// Copies to the front of `buf` what stands from `place` on.
pub fn copy_at(bytes: &[u8], place: u64, buf: &mut [u8]) -> usize
    ensures count { result ≡ min (length buf.old) (length bytes.now - place) }
    ensures bytes { take result buf.new ≡ take result (drop place bytes.now) }
{
    let len = bytes.len();
    let at = place as usize;
    if at >= len {
        return 0;
    }
    let n = buf.len().min(len - at);
    buf[..n].copy_from_slice(&bytes[at..at + n]);
    n
}

/// Puts the byte at the place, at the end as one more, and past the end not at all.
fn put(bytes: &mut Vec<u8>, place: usize, byte: u8) -> Result<(), AllocError>
    ensures { OnOk result (bytes.new.items ≡ put_at bytes.old.items place byte) }
{
    if place < bytes.len() {
        bytes[place] = byte;
    } else if place == bytes.len() {
        bytes.push(byte)?;
    }
    Ok(())
}

/// The bytes after the steps, with `fill` at each place written since the last sync.
pub fn filled(alloc: Global, first: &[u8], steps: &[Step], fill: u8) -> Result<Vec<u8>, AllocError>
    ensures { IfOk result (λ image. let content = replayed (begun first.now) steps.now in image.items ≡ filled fill content.written content.synced) }
{
    let mut seen = Vec::from_slice(alloc, first)?;
    let mut image = Vec::from_slice(alloc, first)?;
    for step in steps {
        match *step {
            Step::Wrote { place, byte } => {
                put(&mut seen, place, byte)?;
                put(&mut image, place, fill)?;
            }
            Step::Synced => image = Vec::from_slice(alloc, &seen)?,
        }
    }
    Ok(image)
}
