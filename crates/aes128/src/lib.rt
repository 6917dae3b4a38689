//! The block cipher AES-128 (FIPS 197). No call allocates or can be refused.
#![tactic(auto)]

ghost use Rattle.std.specs.Prelude.{◌≡◌, ℕ, List, length};
ghost use Rattle.aes128.specs.Bytes.{AreBytes};
ghost use Rattle.aes128.specs.Cipher.{cipher};
ghost use Rattle.aes128.specs.InverseCipher.{inv_cipher};

mod inverse_rounds;
mod key_expansion;
mod rounds;
mod sbox;
mod word_tables;
mod words;

use inverse_rounds::{inv_last_round, inv_round};
pub use key_expansion::{RoundKeys, expand};
use rounds::{last_round, round};
pub use sbox::sbox_rows;
pub use word_tables::{InverseTable, WordTable, word_rows};
use words::{add_round_key, block_of, words_of};

// The rounds by these round keys, written out one after the other.
macro_rules! rounds {
    ($state:ident, $round:ident, $keys:expr, $($n:literal)*) => {
        $(let $state = $round($state, $keys[$n]);)*
    };
}

/// The cipher of a block (FIPS 197, section 5.1).
#[inline(always)]
pub fn encrypt_block(keys: &RoundKeys, block: [u8; 16]) -> [u8; 16]
    ensures { result ≡ cipher keys.now block }
{
    let state = add_round_key(words_of(block), keys.words[0]);
    rounds!(state, round, keys.words, 1 2 3 4 5 6 7 8 9);
    block_of(last_round(state, keys.words[10]))
}

/// The inverse cipher of a block (FIPS 197, section 5.3), as the equivalent inverse cipher (section 5.3.5).
#[inline(always)]
pub fn decrypt_block(keys: &RoundKeys, block: [u8; 16]) -> [u8; 16]
    ensures { result ≡ inv_cipher keys.now block }
{
    let state = add_round_key(words_of(block), keys.inverse[10]);
    rounds!(state, inv_round, keys.inverse, 9 8 7 6 5 4 3 2 1);
    block_of(inv_last_round(state, keys.inverse[0]))
}

/// The inverse cipher undoes the cipher, and the cipher the inverse cipher.
pub fn inverse_law()
    ensures back { (key block : List ℕ) → length block ≡ 16 → AreBytes key → AreBytes block
        → inv_cipher key (cipher key block) ≡ block }
    ensures forth { (key block : List ℕ) → length block ≡ 16 → AreBytes key → AreBytes block
        → cipher key (inv_cipher key block) ≡ block }
{}

#[cfg(test)]
mod tests {
    use super::*;

    #[test]
    fn standard_blocks(rt: HostRuntime) {
        // Key, plaintext and ciphertext of FIPS 197, appendices B and C.1, and of SP 800-38A, F.1.1.
        let blocks: [(u128, u128, u128); 3] = [
            (
                0x2b7e151628aed2a6abf7158809cf4f3c,
                0x3243f6a8885a308d313198a2e0370734,
                0x3925841d02dc09fbdc118597196a0b32,
            ),
            (
                0x000102030405060708090a0b0c0d0e0f,
                0x00112233445566778899aabbccddeeff,
                0x69c4e0d86a7b0430d8cdb78070b4c55a,
            ),
            (
                0x2b7e151628aed2a6abf7158809cf4f3c,
                0x6bc1bee22e409f96e93d7e117393172a,
                0x3ad77bb40d7a3660a89ecaf32466ef97,
            ),
        ];
        for (key, plain, secret) in blocks {
            let keys = expand(key.to_be_bytes());
            let sealed = encrypt_block(&keys, plain.to_be_bytes());
            assert_eq!(rt; u128::from_be_bytes(sealed), secret);
            let opened = decrypt_block(&keys, secret.to_be_bytes());
            assert_eq!(rt; u128::from_be_bytes(opened), plain);
        }
    }

    #[test]
    fn counter_block(rt: HostRuntime) {
        // SP 800-38A, F.5.1: the first counter block, enciphered, is added to the first plaintext.
        let key: u128 = 0x2b7e151628aed2a6abf7158809cf4f3c;
        let counter: u128 = 0xf0f1f2f3f4f5f6f7f8f9fafbfcfdfeff;
        let plain: u128 = 0x6bc1bee22e409f96e93d7e117393172a;
        let stream = encrypt_block(&expand(key.to_be_bytes()), counter.to_be_bytes());
        assert_eq!(rt;
            u128::from_be_bytes(stream) ^ plain,
            0x874d6191b620e3261bef6864990db6ce
        );
    }

    #[test]
    fn first_rows_of_the_word_tables(rt: HostRuntime) {
        // The S-box takes 0 to 63, and the inverse S-box to 52.
        assert_eq!(rt; WordTable::<0>::row(0), 0xc66363a5);
        assert_eq!(rt; WordTable::<8>::row(0), 0xa5c66363);
        assert_eq!(rt; InverseTable::<0>::row(0), 0x51f4a750);
    }
}
