// Words of a line that are not numbers.
ghost use Rattle.std.specs.Prelude.{◌≡◌, ◌≤◌, [], None, Some, MatchOption, IfOk, IfSome, length};
ghost use Rattle.std.specs.Option.{option_map};
ghost use Rattle.text_words.specs.Hexadecimal.{hex_bytes};
ghost use Rattle.track_media.specs.Text.{has_empty_word, data_in, kid_in, hex_of, iv_in, init_kind};
ghost use Rattle.track_media.specs.ListLine.{one_word, two_words, four_words, five_words};
ghost use Rattle.track_media.specs.Views.{protection_of};

use eme_types::{Bytes, InitKind, Iv, KeyId, KeyIdFault};
use std::alloc::{AllocError, Global};
use text_words::Pieces;

/// The words of a protected sample, but for its pattern.
#[derive(Clone, Copy)]
pub struct Protected<'a> {
    pub kid: &'a [u8],
    pub iv: &'a [u8],
    pub subs: &'a [u8],
    pub bytes: &'a [u8],
}

/// The one word that is left.
pub fn one_word<'a>(mut words: Pieces<'a>) -> Option<&'a [u8]>
    ensures { MatchOption result (one_word words.entry ≡ None) (λ word. one_word words.entry ≡ Some word.now) }
{
    let word = words.next()?;
    if words.next().is_some() {
        return None;
    }
    Some(word)
}

/// The two words that are left.
pub fn two_words<'a>(mut words: Pieces<'a>) -> Option<(&'a [u8], &'a [u8])>
    ensures { MatchOption result (two_words words.entry ≡ None) (λ p. two_words words.entry ≡ Some (p.0.now, p.1.now)) }
{
    let first = words.next()?;
    let second = one_word(words)?;
    Some((first, second))
}

/// The four words that are left.
pub fn four_words<'a>(mut words: Pieces<'a>) -> Option<Protected<'a>>
    ensures { MatchOption result (four_words words.entry ≡ None) (λ p. four_words words.entry ≡ Some (protection_of p)) }
{
    let kid = words.next()?;
    let iv = words.next()?;
    let (subs, bytes) = two_words(words)?;
    Some(Protected {
        kid,
        iv,
        subs,
        bytes,
    })
}

/// The five words that are left, the third of which is the pattern.
pub fn five_words<'a>(mut words: Pieces<'a>) -> Option<(Protected<'a>, &'a [u8])>
    ensures { MatchOption result (five_words words.entry ≡ None) (λ p. five_words words.entry ≡ Some (protection_of p.0, p.1.now)) }
{
    let kid = words.next()?;
    let iv = words.next()?;
    let pattern = words.next()?;
    let (subs, bytes) = two_words(words)?;
    let words = Protected {
        kid,
        iv,
        subs,
        bytes,
    };
    Some((words, pattern))
}

/// Whether a line has a word without a byte.
pub fn has_empty_word(line: &[u8]) -> bool
    ensures { result ≡ has_empty_word line.now }
{
    let mut words = Pieces::new(line, b' ');
    while let Some(word) = words.next() {
        if word.is_empty() {
            return true;
        }
    }
    false
}

/// Pairs of hexadecimal digits.
fn hex_bytes(alloc: Global, word: &[u8]) -> Result<Option<Bytes>, AllocError>
    ensures { IfOk result (λ bytes. bytes ≡ hex_bytes word.now) }
{
    match text_words::hex_bytes(alloc, word)? {
        Some(bytes) => Ok(Some(Bytes::from_vec(bytes))),
        None => Ok(None),
    }
}

/// Pairs of hexadecimal digits, or a dash for no bytes.
pub fn data_in(alloc: Global, word: &[u8]) -> Result<Option<Bytes>, AllocError>
    ensures { IfOk result (λ bytes. bytes ≡ data_in word.now) }
{
    if word == b"-".as_slice() {
        return Ok(Some(Bytes::new(alloc)));
    }
    hex_bytes(alloc, word)
}

/// A key id.
pub fn kid_in(alloc: Global, word: &[u8]) -> Result<Option<KeyId>, AllocError>
    ensures { IfOk result (λ kid. kid ≡ kid_in word.now) }
{
    let Some(bytes) = hex_bytes(alloc, word)? else {
        return Ok(None);
    };
    match KeyId::new(alloc, bytes.as_slice()) {
        Ok(kid) => Ok(Some(kid)),
        Err(KeyIdFault::Length) => Ok(None),
        Err(KeyIdFault::OutOfMemory) => Err(AllocError),
    }
}

#[tactic(auto, unfolding(crate::specs::Text::hex_of))]
fn eight(word: &[u8]) -> Option<[u8; 8]>
    ensures { result ≡ hex_of 8 word.now }
{
    let mut bytes = [0; 8];
    match hex::decode_to_slice(word, &mut bytes) {
        Ok(()) => Some(bytes),
        Err(_) => None,
    }
}

#[tactic(auto, unfolding(crate::specs::Text::hex_of))]
fn sixteen(word: &[u8]) -> Option<[u8; 16]>
    ensures { result ≡ hex_of 16 word.now }
{
    let mut bytes = [0; 16];
    match hex::decode_to_slice(word, &mut bytes) {
        Ok(()) => Some(bytes),
        Err(_) => None,
    }
}

/// An initialization vector of 8 or 16 bytes.
pub fn iv_in(word: &[u8]) -> Option<Iv>
    ensures { result ≡ iv_in word.now }
{
    if let Some(bytes) = eight(word) {
        return Some(Iv::Eight(bytes));
    }
    match sixteen(word) {
        Some(bytes) => Some(Iv::Sixteen(bytes)),
        None => None,
    }
}

/// A type of initialization data.
pub fn init_kind(word: &[u8]) -> Option<InitKind>
    ensures { result ≡ init_kind word.now }
{
    if word == b"cenc".as_slice() {
        return Some(InitKind::Cenc);
    }
    if word == b"keyids".as_slice() {
        return Some(InitKind::Keyids);
    }
    None
}
