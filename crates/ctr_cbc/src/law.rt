//! Laws of the definitions, for the layers above.

ghost use Rattle.std.specs.Prelude.{◌≡◌, ℕ, ◌+◌, ◌*◌, ◌/◌, ◌%◌, ◌<◌, ◌≤◌, List, ◌++◌, length, slice_index, replicate, bit_xor};
ghost use Rattle.ctr_cbc.specs.Blocks.{block, exclusive_or};
ghost use Rattle.ctr_cbc.specs.KeyStream.{stream_byte};
ghost use Rattle.aes128.specs.Bytes.{AreBytes};
ghost use Rattle.ctr_cbc.specs.Chain.{block_before, opened_block, sealed_block};

use aes128::inverse_law;

/// The bytes of a block, and of the exclusive or of two.
pub fn block_bytes_law()
    ensures block { (bytes : List ℕ) (r i : ℕ) → i < 16
        → slice_index (block bytes r) i ≡ slice_index bytes (r * 16 + i) }
    ensures exclusive_or { (a b : List ℕ) (i : ℕ) → i < 16
        → slice_index (exclusive_or a b) i ≡ bit_xor (slice_index a i) (slice_index b i) }
    ensures exclusive_or_len { (a b : List ℕ) → length (exclusive_or a b) ≡ 16 }
{}

/// An IV of 8 bytes has the key stream of the 16 bytes that it makes with eight zeros behind it (ISO/IEC 23001-7,
/// section 9.3).
pub fn short_iv_law()
    ensures { (key iv : List ℕ) (n : ℕ) → length iv ≡ 8
        → stream_byte key (iv ++ replicate 8 0) n ≡ stream_byte key iv n }
{}

/// A chain over joined runs is the chain over the first, and then over the second with the last block of the first
/// as its IV.
pub fn joined_chain_law()
    ensures first { (iv one two : List ℕ) (r : ℕ) → length one % 16 ≡ 0 → r * 16 < length one
        → block (one ++ two) r ≡ block one r }
    ensures second { (iv one two : List ℕ) (r : ℕ) → length one % 16 ≡ 0
        → block (one ++ two) (length one / 16 + r) ≡ block two r }
    ensures before_first { (iv one two : List ℕ) (r : ℕ) → length one % 16 ≡ 0 → r * 16 ≤ length one
        → block_before iv (one ++ two) r ≡ block_before iv one r }
    ensures before_second { (iv one two : List ℕ) (r : ℕ) → length one % 16 ≡ 0
        → block_before iv (one ++ two) (length one / 16 + r)
        ≡ block_before (block_before iv one (length one / 16)) two r }
{}

/// Opening takes sealing back, block by block.
pub fn opened_again_law()
    ensures { (key iv plaintext ciphertext : List ℕ) (r : ℕ)
        → AreBytes key → AreBytes iv → AreBytes plaintext → AreBytes ciphertext
        → r * 16 + 16 ≤ length plaintext
        → block ciphertext r ≡ sealed_block key iv plaintext ciphertext r
        → opened_block key iv ciphertext r ≡ block plaintext r }
{
    inverse_law();
}
