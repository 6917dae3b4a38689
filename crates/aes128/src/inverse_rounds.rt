//! The rounds of the equivalent inverse cipher on words (FIPS 197, section 5.3.5).

ghost use Rattle.std.specs.Prelude.{◌≡◌, List, ℕ, bit_xor};
ghost use Rattle.aes128.specs.Bytes.{AreBytes};
ghost use Rattle.aes128.specs.Sbox.{inv_sub_byte};
ghost use Rattle.aes128.specs.Cipher.{combined, add_round_key};
ghost use Rattle.aes128.specs.InverseCipher.{inv_sub_bytes, inv_shift_rows, inv_mix_columns};
ghost use Rattle.aes128.specs.Words.{row_byte, state_of_words};

use crate::sbox::{inv_sub_byte, sub_byte};
use crate::word_tables::InverseTable;
use crate::words::{byte, word};

// The product of the matrix of InvMixColumns and the inverse S-box values of a column.
#[inline(always)]
fn inv_mixed(a: u8, b: u8, c: u8, d: u8) -> u32
    ensures row_0 { row_byte result 0
        ≡ combined 14 11 13 9 (inv_sub_byte a) (inv_sub_byte b) (inv_sub_byte c) (inv_sub_byte d) }
    ensures row_1 { row_byte result 1
        ≡ combined 14 11 13 9 (inv_sub_byte b) (inv_sub_byte c) (inv_sub_byte d) (inv_sub_byte a) }
    ensures row_2 { row_byte result 2
        ≡ combined 14 11 13 9 (inv_sub_byte c) (inv_sub_byte d) (inv_sub_byte a) (inv_sub_byte b) }
    ensures row_3 { row_byte result 3
        ≡ combined 14 11 13 9 (inv_sub_byte d) (inv_sub_byte a) (inv_sub_byte b) (inv_sub_byte c) }
{
    (InverseTable::<0>::row(a) ^ InverseTable::<8>::row(b))
        ^ (InverseTable::<16>::row(c) ^ InverseTable::<24>::row(d))
}

// A column after a round but the last: its bytes come from the first row of `a`, the second of `b`, the third of `c` and the last of `d`.
#[inline(always)]
fn inv_mixed_column(a: u32, b: u32, c: u32, d: u32, k: u32) -> u32
    ensures row_0 { row_byte result 0
        ≡ bit_xor (combined 14 11 13 9 (inv_sub_byte (row_byte a 0)) (inv_sub_byte (row_byte b 1))
        (inv_sub_byte (row_byte c 2)) (inv_sub_byte (row_byte d 3))) (row_byte k 0) }
    ensures row_1 { row_byte result 1
        ≡ bit_xor (combined 14 11 13 9 (inv_sub_byte (row_byte b 1)) (inv_sub_byte (row_byte c 2))
        (inv_sub_byte (row_byte d 3)) (inv_sub_byte (row_byte a 0))) (row_byte k 1) }
    ensures row_2 { row_byte result 2
        ≡ bit_xor (combined 14 11 13 9 (inv_sub_byte (row_byte c 2)) (inv_sub_byte (row_byte d 3))
        (inv_sub_byte (row_byte a 0)) (inv_sub_byte (row_byte b 1))) (row_byte k 2) }
    ensures row_3 { row_byte result 3
        ≡ bit_xor (combined 14 11 13 9 (inv_sub_byte (row_byte d 3)) (inv_sub_byte (row_byte a 0))
        (inv_sub_byte (row_byte b 1)) (inv_sub_byte (row_byte c 2))) (row_byte k 3) }
{
    inv_mixed(byte::<0>(a), byte::<1>(b), byte::<2>(c), byte::<3>(d)) ^ k
}

// A column after the last round, from the same places.
#[inline(always)]
fn inv_last_column(a: u32, b: u32, c: u32, d: u32, k: u32) -> u32
    ensures row_0 { row_byte result 0 ≡ bit_xor (inv_sub_byte (row_byte a 0)) (row_byte k 0) }
    ensures row_1 { row_byte result 1 ≡ bit_xor (inv_sub_byte (row_byte b 1)) (row_byte k 1) }
    ensures row_2 { row_byte result 2 ≡ bit_xor (inv_sub_byte (row_byte c 2)) (row_byte k 2) }
    ensures row_3 { row_byte result 3 ≡ bit_xor (inv_sub_byte (row_byte d 3)) (row_byte k 3) }
{
    word(
        inv_sub_byte(byte::<0>(a)),
        inv_sub_byte(byte::<1>(b)),
        inv_sub_byte(byte::<2>(c)),
        inv_sub_byte(byte::<3>(d)),
    ) ^ k
}

/// A round of the inverse cipher but the last, by a round key whose columns are mixed.
#[inline(always)]
pub(crate) fn inv_round(s: [u32; 4], k: [u32; 4]) -> [u32; 4]
    ensures { (key : List ℕ) → AreBytes key → state_of_words k ≡ inv_mix_columns key → state_of_words result
        ≡ inv_mix_columns (add_round_key (inv_sub_bytes (inv_shift_rows (state_of_words s))) key) }
{
    let [a, b, c, d] = s;
    [
        inv_mixed_column(a, d, c, b, k[0]),
        inv_mixed_column(b, a, d, c, k[1]),
        inv_mixed_column(c, b, a, d, k[2]),
        inv_mixed_column(d, c, b, a, k[3]),
    ]
}

/// The last round of the inverse cipher, which mixes no columns.
#[inline(always)]
pub(crate) fn inv_last_round(s: [u32; 4], k: [u32; 4]) -> [u32; 4]
    ensures { state_of_words result
        ≡ add_round_key (inv_sub_bytes (inv_shift_rows (state_of_words s))) (state_of_words k) }
{
    let [a, b, c, d] = s;
    [
        inv_last_column(a, d, c, b, k[0]),
        inv_last_column(b, a, d, c, k[1]),
        inv_last_column(c, b, a, d, k[2]),
        inv_last_column(d, c, b, a, k[3]),
    ]
}

// A column of a round key, mixed. The inverse S-box of the table takes the S-box back.
#[inline(always)]
fn mixed_key_column(k: u32) -> u32
    ensures row_0 { row_byte result 0
        ≡ combined 14 11 13 9 (row_byte k 0) (row_byte k 1) (row_byte k 2) (row_byte k 3) }
    ensures row_1 { row_byte result 1
        ≡ combined 14 11 13 9 (row_byte k 1) (row_byte k 2) (row_byte k 3) (row_byte k 0) }
    ensures row_2 { row_byte result 2
        ≡ combined 14 11 13 9 (row_byte k 2) (row_byte k 3) (row_byte k 0) (row_byte k 1) }
    ensures row_3 { row_byte result 3
        ≡ combined 14 11 13 9 (row_byte k 3) (row_byte k 0) (row_byte k 1) (row_byte k 2) }
{
    inv_mixed(
        sub_byte(byte::<0>(k)),
        sub_byte(byte::<1>(k)),
        sub_byte(byte::<2>(k)),
        sub_byte(byte::<3>(k)),
    )
}

/// A round key whose columns are mixed.
pub(crate) fn mixed_key(k: [u32; 4]) -> [u32; 4]
    ensures { state_of_words result ≡ inv_mix_columns (state_of_words k) }
{
    [
        mixed_key_column(k[0]),
        mixed_key_column(k[1]),
        mixed_key_column(k[2]),
        mixed_key_column(k[3]),
    ]
}
