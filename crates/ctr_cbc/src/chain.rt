//! Cipher block chaining (SP 800-38A, section 6.2).

ghost use Rattle.std.specs.Prelude.{◌≡◌, ℕ, ◌*◌, ◌/◌, ◌%◌, ◌<◌, length};
ghost use Rattle.aes128.specs.Cipher.{cipher};
ghost use Rattle.aes128.specs.InverseCipher.{inv_cipher};
ghost use Rattle.ctr_cbc.specs.Blocks.{block, exclusive_or};
ghost use Rattle.ctr_cbc.specs.Chain.{block_before, opened_block, sealed_block};

use crate::block::{block_of, exclusive_or};
use aes128::{RoundKeys, decrypt_block, encrypt_block};

// Opens one block in place, and answers the ciphertext that it was.
fn open_block(keys: &RoundKeys, before: [u8; 16], bytes: &mut [u8]) -> [u8; 16]
    requires { length bytes.old ≡ 16 }
    ensures opened { bytes.new ≡ exclusive_or (inv_cipher keys.now bytes.old) before }
    ensures was { result ≡ bytes.old }
{
    let ciphertext = block_of(bytes);
    let plaintext = exclusive_or(decrypt_block(keys, ciphertext), before);
    bytes.copy_from_slice(&plaintext);
    ciphertext
}

// Seals one block in place, and answers the ciphertext that it is.
fn seal_block(keys: &RoundKeys, before: [u8; 16], bytes: &mut [u8]) -> [u8; 16]
    requires { length bytes.old ≡ 16 }
    ensures sealed { bytes.new ≡ cipher keys.now (exclusive_or bytes.old before) }
    ensures is { result ≡ bytes.new }
{
    let ciphertext = encrypt_block(keys, exclusive_or(block_of(bytes), before));
    bytes.copy_from_slice(&ciphertext);
    ciphertext
}

/// Opens whole blocks in place, and answers the last ciphertext block, or `iv` where there is none.
pub fn cbc_decrypt(keys: &RoundKeys, iv: [u8; 16], bytes: &mut [u8]) -> [u8; 16]
    requires { length bytes.old % 16 ≡ 0 }
    ensures opened { (r : ℕ) → r * 16 < length bytes.old
        → block bytes.new r ≡ opened_block keys.now iv bytes.old r }
    ensures last { result ≡ block_before iv bytes.old (length bytes.old / 16) }
    ensures len { length bytes.new ≡ length bytes.old }
{
    let mut before = iv;
    for r in 0..bytes.len() / 16 {
        let at = r * 16;
        let ciphertext = open_block(keys, before, &mut bytes[at..at + 16]);
        before = ciphertext;
    }
    before
}

/// Seals whole blocks in place, and answers the last ciphertext block, or `iv` where there is none.
pub fn cbc_encrypt(keys: &RoundKeys, iv: [u8; 16], bytes: &mut [u8]) -> [u8; 16]
    requires { length bytes.old % 16 ≡ 0 }
    ensures sealed { (r : ℕ) → r * 16 < length bytes.old
        → block bytes.new r ≡ sealed_block keys.now iv bytes.old bytes.new r }
    ensures last { result ≡ block_before iv bytes.new (length bytes.old / 16) }
    ensures len { length bytes.new ≡ length bytes.old }
{
    let mut before = iv;
    for r in 0..bytes.len() / 16 {
        let at = r * 16;
        let ciphertext = seal_block(keys, before, &mut bytes[at..at + 16]);
        before = ciphertext;
    }
    before
}
