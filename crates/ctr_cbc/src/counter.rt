//! Counter mode (SP 800-38A, section 6.5).

ghost use Rattle.std.specs.Prelude.{◌≡◌, ◌+◌, ◌<◌, ◌≤◌, ◌^◌, length, slice_index, bit_xor, EachIndex};
ghost use Rattle.ctr_cbc.specs.KeyStream.{counter_block, stream_byte};

use crate::block::{block_of, exclusive_or};
use aes128::{RoundKeys, encrypt_block};

// Counter block `n` of an IV.
#[inline(always)]
#[tactic(auto, unfolding(crate::specs::KeyStream::counter_block))]
fn counter_block(iv: [u8; 16], n: u64) -> [u8; 16]
    ensures { result ≡ counter_block iv n }
{
    let first = u64::from_be_bytes([iv[8], iv[9], iv[10], iv[11], iv[12], iv[13], iv[14], iv[15]]);
    let c = first.wrapping_add(n).to_be_bytes();
    [
        iv[0], iv[1], iv[2], iv[3], iv[4], iv[5], iv[6], iv[7], c[0], c[1], c[2], c[3], c[4], c[5],
        c[6], c[7],
    ]
}

// Adds a part of the key stream to bytes, a whole block at once.
#[inline(always)]
fn add_stream(bytes: &mut [u8], stream: &[u8])
    requires { length bytes.old ≤ length stream.now }
    ensures { EachIndex bytes.old (λ j. slice_index bytes.new j
        ≡ bit_xor (slice_index bytes.old j) (slice_index stream.now j)) }
{
    if bytes.len() == 16 && stream.len() == 16 {
        let sum = exclusive_or(block_of(bytes), block_of(stream));
        bytes.copy_from_slice(&sum);
    } else {
        add_bytes(bytes, stream);
    }
}

// Adds a part of the key stream to bytes, one by one.
fn add_bytes(bytes: &mut [u8], stream: &[u8])
    requires { length bytes.old ≤ length stream.now }
    ensures { EachIndex bytes.old (λ j. slice_index bytes.new j
        ≡ bit_xor (slice_index bytes.old j) (slice_index stream.now j)) }
{
    for i in 0..bytes.len() {
        bytes[i] ^= stream[i];
    }
}

/// Exclusive-ors each byte with its byte of the key stream, which begins at its byte `from`.
pub fn ctr_apply(keys: &RoundKeys, iv: [u8; 16], from: u64, bytes: &mut [u8])
    requires { from + length bytes.old < 2 ^ 64 }
    ensures added { EachIndex bytes.old (λ j. slice_index bytes.new j
        ≡ bit_xor (slice_index bytes.old j) (stream_byte keys.now iv (from + j))) }
    ensures len { length bytes.new ≡ length bytes.old }
{
    let mut at = 0;
    while at < bytes.len() {
        let n = from + at as u64;
        let stream = encrypt_block(keys, counter_block(iv, n / 16));
        let skip = (n % 16) as usize;
        let count = (16 - skip).min(bytes.len() - at);
        add_stream(&mut bytes[at..at + count], &stream[skip..]);
        at += count;
    }
}
