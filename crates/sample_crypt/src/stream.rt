// Samples in counter mode: the scheme `cenc`.
ghost use Rattle.std.specs.Prelude.{◌≡◌, ℕ, List, ◌++◌, length, replicate, Some, IsTrue};
ghost use Rattle.eme_types.specs.declared.sample.Scheme.{Scheme};
ghost use Rattle.eme_types.specs.WellFormed.{is_well_formed};
ghost use Rattle.ctr_cbc.specs.KeyStream.{stream_byte};
ghost use Rattle.sample_crypt.specs.Decryption.{iv_bytes, decryption_of};

use aes128::RoundKeys;
use ctr_cbc::{ctr_apply, short_iv_law};
use eme_types::{EncSample, Iv, Protect};
use pattern_map::ranges;

// An IV of 8 bytes with a block number of 0 behind it.
fn padded(iv: [u8; 8]) -> [u8; 16]
    ensures value { result ≡ iv ++ replicate 8 0 }
    ensures size { length iv ≡ 8 }
{
    [
        iv[0], iv[1], iv[2], iv[3], iv[4], iv[5], iv[6], iv[7], 0, 0, 0, 0, 0, 0, 0, 0,
    ]
}

// The first counter block.
fn first_counter(iv: Iv) -> [u8; 16]
    ensures { (key : List ℕ) (n : ℕ) → stream_byte key result n ≡ stream_byte key (iv_bytes iv) n }
{
    short_iv_law();
    match iv {
        Iv::Eight(bytes) => padded(bytes),
        Iv::Sixteen(bytes) => bytes,
    }
}

// Opens the protected ranges in place: one key stream over all of them.
pub(crate) fn open_stream(sample: &EncSample, protect: &Protect, keys: &RoundKeys, bytes: &mut [u8])
    requires formed { IsTrue (is_well_formed sample.now) }
    requires protected { sample.now.protect ≡ Some protect.now }
    requires scheme { protect.now.scheme ≡ Scheme.Cenc }
    requires copy { bytes.old ≡ sample.now.bytes }
    ensures { bytes.new ≡ decryption_of keys.now (Some protect.now) sample.now.bytes }
{
    let iv = first_counter(protect.iv);
    let mut from: u64 = 0;
    for range in ranges(sample) {
        ctr_apply(keys, iv, from, &mut bytes[range.from..range.to]);
        from += (range.to - range.from) as u64;
    }
}
