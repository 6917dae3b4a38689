// Hexadecimal words.
ghost use Rattle.std.specs.Prelude.{◌≡◌, Some, None, is_some, IfOk, MatchOption};
ghost use Rattle.std.specs.List.{list_all};
ghost use Rattle.hex.specs.Hex.{is_hex_digit};
ghost use Rattle.text_words.specs.Hexadecimal.{hex_bytes};

use hex::FromHexError;
use std::alloc::{AllocError, Global};

/// The bytes that pairs of hexadecimal digits spell, or none where a word is no such pairs.
#[tactic(auto, unfolding(crate::specs::Hexadecimal::hex_bytes))]
pub fn hex_bytes(alloc: Global, word: &[u8]) -> Result<Option<Vec<u8>>, AllocError>
    ensures { IfOk result (λ bytes. MatchOption bytes (hex_bytes word.now ≡ None) (λ b. hex_bytes word.now ≡ Some b.items)) }
{
    match hex::decode(alloc, word) {
        Ok(bytes) => Ok(Some(bytes)),
        Err(FromHexError::OutOfMemory) => Err(AllocError),
        Err(_) => Ok(None),
    }
}

/// Whether a word is pairs of hexadecimal digits. It takes no memory.
pub fn is_hex(word: &[u8]) -> bool
    ensures { result ≡ is_some (hex_bytes word.now) }
{
    if word.len() % 2 != 0 {
        return false;
    }
    are_hex_digits(word)
}

fn are_hex_digits(word: &[u8]) -> bool
    ensures { result ≡ list_all is_hex_digit word.now }
{
    word.iter().all(|b| is_hex_digit(*b))
}

fn is_hex_digit(b: u8) -> bool
    ensures { result ≡ is_hex_digit b }
{
    b.is_ascii_hexdigit()
}
