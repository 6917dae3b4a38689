//! The rounds of the cipher on words (FIPS 197, section 5.1).

ghost use Rattle.std.specs.Prelude.{◌≡◌, bit_xor};
ghost use Rattle.aes128.specs.Sbox.{sub_byte};
ghost use Rattle.aes128.specs.Cipher.{sub_bytes, shift_rows, combined, mix_columns, add_round_key};
ghost use Rattle.aes128.specs.Words.{row_byte, state_of_words};

use crate::sbox::sub_byte;
use crate::word_tables::WordTable;
use crate::words::{byte, word};

// The product of the matrix of MixColumns and the S-box values of a column.
#[inline(always)]
fn mixed(a: u8, b: u8, c: u8, d: u8) -> u32
    ensures row_0 { row_byte result 0 ≡ combined 2 3 1 1 (sub_byte a) (sub_byte b) (sub_byte c) (sub_byte d) }
    ensures row_1 { row_byte result 1 ≡ combined 2 3 1 1 (sub_byte b) (sub_byte c) (sub_byte d) (sub_byte a) }
    ensures row_2 { row_byte result 2 ≡ combined 2 3 1 1 (sub_byte c) (sub_byte d) (sub_byte a) (sub_byte b) }
    ensures row_3 { row_byte result 3 ≡ combined 2 3 1 1 (sub_byte d) (sub_byte a) (sub_byte b) (sub_byte c) }
{
    (WordTable::<0>::row(a) ^ WordTable::<8>::row(b))
        ^ (WordTable::<16>::row(c) ^ WordTable::<24>::row(d))
}

// A column after a round but the last: its bytes come from the first row of `a`, the second of `b`, the third of `c` and the last of `d`.
#[inline(always)]
fn mixed_column(a: u32, b: u32, c: u32, d: u32, k: u32) -> u32
    ensures row_0 { row_byte result 0 ≡ bit_xor (combined 2 3 1 1 (sub_byte (row_byte a 0)) (sub_byte (row_byte b 1))
        (sub_byte (row_byte c 2)) (sub_byte (row_byte d 3))) (row_byte k 0) }
    ensures row_1 { row_byte result 1 ≡ bit_xor (combined 2 3 1 1 (sub_byte (row_byte b 1)) (sub_byte (row_byte c 2))
        (sub_byte (row_byte d 3)) (sub_byte (row_byte a 0))) (row_byte k 1) }
    ensures row_2 { row_byte result 2 ≡ bit_xor (combined 2 3 1 1 (sub_byte (row_byte c 2)) (sub_byte (row_byte d 3))
        (sub_byte (row_byte a 0)) (sub_byte (row_byte b 1))) (row_byte k 2) }
    ensures row_3 { row_byte result 3 ≡ bit_xor (combined 2 3 1 1 (sub_byte (row_byte d 3)) (sub_byte (row_byte a 0))
        (sub_byte (row_byte b 1)) (sub_byte (row_byte c 2))) (row_byte k 3) }
{
    mixed(byte::<0>(a), byte::<1>(b), byte::<2>(c), byte::<3>(d)) ^ k
}

// A column after the last round, from the same places.
#[inline(always)]
fn last_column(a: u32, b: u32, c: u32, d: u32, k: u32) -> u32
    ensures row_0 { row_byte result 0 ≡ bit_xor (sub_byte (row_byte a 0)) (row_byte k 0) }
    ensures row_1 { row_byte result 1 ≡ bit_xor (sub_byte (row_byte b 1)) (row_byte k 1) }
    ensures row_2 { row_byte result 2 ≡ bit_xor (sub_byte (row_byte c 2)) (row_byte k 2) }
    ensures row_3 { row_byte result 3 ≡ bit_xor (sub_byte (row_byte d 3)) (row_byte k 3) }
{
    word(
        sub_byte(byte::<0>(a)),
        sub_byte(byte::<1>(b)),
        sub_byte(byte::<2>(c)),
        sub_byte(byte::<3>(d)),
    ) ^ k
}

/// A round but the last.
#[inline(always)]
pub(crate) fn round(s: [u32; 4], k: [u32; 4]) -> [u32; 4]
    ensures { state_of_words result
        ≡ add_round_key (mix_columns (shift_rows (sub_bytes (state_of_words s)))) (state_of_words k) }
{
    let [a, b, c, d] = s;
    [
        mixed_column(a, b, c, d, k[0]),
        mixed_column(b, c, d, a, k[1]),
        mixed_column(c, d, a, b, k[2]),
        mixed_column(d, a, b, c, k[3]),
    ]
}

/// The last round, which mixes no columns.
#[inline(always)]
pub(crate) fn last_round(s: [u32; 4], k: [u32; 4]) -> [u32; 4]
    ensures { state_of_words result
        ≡ add_round_key (shift_rows (sub_bytes (state_of_words s))) (state_of_words k) }
{
    let [a, b, c, d] = s;
    [
        last_column(a, b, c, d, k[0]),
        last_column(b, c, d, a, k[1]),
        last_column(c, d, a, b, k[2]),
        last_column(d, a, b, c, k[3]),
    ]
}
