//! The key expansion (FIPS 197, sections 5.2 and 5.3.5).

ghost use Rattle.std.specs.Prelude.{◌≡◌};
ghost use Rattle.aes128.specs.KeyExpansion.{next_key};
ghost use Rattle.aes128.specs.Words.{state_of_words};

use crate::inverse_rounds::mixed_key;
use crate::sbox::sub_byte;
use crate::words::{byte, word, words_of};
use std::marker::Model;

// The round key after `k`.
#[inline(always)]
fn next_key(k: [u32; 4], constant: u8) -> [u32; 4]
    ensures { state_of_words result ≡ next_key constant (state_of_words k) }
{
    let turned = word(
        sub_byte(byte::<1>(k[3])),
        sub_byte(byte::<2>(k[3])),
        sub_byte(byte::<3>(k[3])),
        sub_byte(byte::<0>(k[3])),
    );
    let a = (k[0] ^ turned) ^ word(constant, 0, 0, 0);
    let b = k[1] ^ a;
    let c = k[2] ^ b;
    [a, b, c, k[3] ^ c]
}

/// The keys of rounds 0 to 10, for the cipher and for the inverse cipher, seen as the key that they come from.
#[derive(Drop)]
pub struct RoundKeys {
    pub(crate) words: [[u32; 4]; 11],
    // Those of rounds 1 to 9 have mixed columns.
    pub(crate) inverse: [[u32; 4]; 11],
}

impl Model for RoundKeys {
    ghost use Rattle.std.specs.Prelude.{◌≡◌, ℕ, List, [], map, slice_index_or};
    ghost use Rattle.aes128.specs.KeyExpansion.{round_keys};
    ghost use Rattle.aes128.specs.InverseCipher.{inverse_round_keys};
    ghost use Rattle.aes128.specs.Words.{state_of_words};

    ghost Value = { List ℕ };

    ghost view = { λ k. state_of_words (slice_index_or k.words 0 []) };

    ghost invariant = { λ k. (map state_of_words k.words ≡ round_keys (state_of_words (slice_index_or k.words 0 [])))
        × (map state_of_words k.inverse ≡ inverse_round_keys (state_of_words (slice_index_or k.words 0 []))) };
}

/// The round keys of a key: KeyExpansion.
pub fn expand(key: [u8; 16]) -> RoundKeys
    ensures { result ≡ key }
{
    let k0 = words_of(key);
    let k1 = next_key(k0, 0x01);
    let k2 = next_key(k1, 0x02);
    let k3 = next_key(k2, 0x04);
    let k4 = next_key(k3, 0x08);
    let k5 = next_key(k4, 0x10);
    let k6 = next_key(k5, 0x20);
    let k7 = next_key(k6, 0x40);
    let k8 = next_key(k7, 0x80);
    let k9 = next_key(k8, 0x1b);
    let k10 = next_key(k9, 0x36);
    let (m1, m2, m3) = (mixed_key(k1), mixed_key(k2), mixed_key(k3));
    let (m4, m5, m6) = (mixed_key(k4), mixed_key(k5), mixed_key(k6));
    let (m7, m8, m9) = (mixed_key(k7), mixed_key(k8), mixed_key(k9));
    RoundKeys {
        words: [k0, k1, k2, k3, k4, k5, k6, k7, k8, k9, k10],
        inverse: [k0, m1, m2, m3, m4, m5, m6, m7, m8, m9, k10],
    }
}
