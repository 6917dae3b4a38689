// The bytes of a sample, sealed in place.
ghost use Rattle.std.specs.Prelude.{◌≡◌, ℕ, List, ◌++◌, length, replicate, Some};
ghost use Rattle.eme_types.specs.declared.sample.Scheme.{Scheme};
ghost use Rattle.aes128.specs.Bytes.{AreBytes};
ghost use Rattle.ctr_cbc.specs.KeyStream.{stream_byte};
ghost use Rattle.sample_crypt.specs.Decryption.{iv_bytes, decryption_of};
ghost use Rattle.seal_media.specs.Sealed.{iv_of, sealed_protect};
ghost use Rattle.seal_media.specs.Views.{AreTenthsSealed, IsPartSealed};

use crate::fragment::counted_iv;
use crate::plan::SealPlan;
use aes128::{RoundKeys, inverse_law};
use ctr_cbc::{cbc_encrypt, ctr_apply, short_iv_law};
use eme_types::Scheme;

// What is listed here are bytes.
fn are_bytes(bytes: &[u8])
    ensures { AreBytes bytes.now }
{}

// An IV of 8 bytes with a block number of 0 behind it (ISO/IEC 23001-7 section 9.3).
fn padded(iv: [u8; 8]) -> [u8; 16]
    ensures value { result ≡ iv ++ replicate 8 0 }
    ensures size { length iv ≡ 8 }
{
    [
        iv[0], iv[1], iv[2], iv[3], iv[4], iv[5], iv[6], iv[7], 0, 0, 0, 0, 0, 0, 0, 0,
    ]
}

// The first counter block of a sample.
fn first_counter(iv: [u8; 16], number: u64) -> [u8; 16]
    ensures { (key : List ℕ) (n : ℕ) → stream_byte key result n ≡ stream_byte key (iv_bytes (iv_of Scheme.Cenc iv number)) n }
{
    short_iv_law();
    padded(counted_iv(iv, number))
}

// One block in ten, each chained to the one before (ISO/IEC 23001-7 section 10.4).
fn seal_tenths(keys: &RoundKeys, iv: [u8; 16], bytes: &mut [u8])
    ensures { AreTenthsSealed keys.now iv bytes.old bytes.new }
{
    let mut before = iv;
    for r in 0..(bytes.len() / 16 + 9) / 10 {
        let at = r * 160;
        let last = cbc_encrypt(keys, before, &mut bytes[at..at + 16]);
        before = last;
    }
}

// Seals the protected bytes of the sample of this number.
fn seal_part(plan: &SealPlan, keys: &RoundKeys, number: u64, bytes: &mut [u8])
    ensures { IsPartSealed plan.now.scheme keys.now (iv_of plan.now.scheme plan.now.iv number) bytes.old bytes.new }
{
    match plan.scheme {
        Scheme::Cenc => ctr_apply(keys, first_counter(plan.iv, number), 0, bytes),
        Scheme::Cbcs => seal_tenths(keys, plan.iv, bytes),
    }
}

/// Seals the bytes of the sample of this number: opened, they are what they were.
pub(crate) fn seal_bytes(plan: &SealPlan, keys: &RoundKeys, number: u64, bytes: &mut [u8])
    requires { keys.now ≡ plan.now.key.bytes }
    ensures size { length bytes.new ≡ length bytes.old }
    ensures opens { decryption_of plan.now.key.bytes (Some (sealed_protect plan.now number (length bytes.old))) bytes.new ≡ bytes.old }
{
    inverse_law();
    are_bytes(&plan.key.bytes);
    are_bytes(&plan.iv);
    are_bytes(bytes);
    let clear = usize::from(plan.lead).min(bytes.len());
    seal_part(plan, keys, number, &mut bytes[clear..]);
    are_bytes(bytes);
}
