// Words of a row.
ghost use Rattle.std.specs.Prelude.{◌≡◌, ◌≤◌, None, Some, MatchOption, IfOk, IfSome, IsTrue};
ghost use Rattle.license_desk.specs.Words.{words_of, has_empty_word, row_text, kid_in, key_in, moment_in, end_in};
ghost use Rattle.license_desk.specs.Rows.{is_end};
ghost use Rattle.license_desk.specs.Views.{row_text_of};
ghost use Rattle.eme_types.specs.declared.limits.TheConstants.{MAX_MOMENT};

use eme_types::{KeyId, KeyIdFault, MAX_MOMENT};
use std::alloc::{AllocError, Global};
use text_words::{Pieces, hex_bytes, number_up_to};

/// What stands behind the word `key`.
#[derive(Clone, Copy)]
pub struct RowWords<'a> {
    pub kid: &'a [u8],
    pub key: &'a [u8],
    pub from: &'a [u8],
    pub expires: &'a [u8],
}

/// Whether a line has a word without a byte.
pub fn has_empty_word(line: &[u8]) -> bool
    ensures { result ≡ has_empty_word line.now }
{
    let mut words = Pieces::new(line, b' ');
    while let Some(word) = words.next() {
        if word.is_empty() {
            return true;
        }
    }
    false
}

/// The words of a row, where a line is five words, of which the first is `key`.
pub fn row_words(line: &[u8]) -> Option<RowWords<'_>>
    ensures { MatchOption result (row_text (words_of line.now) ≡ None) (λ w. row_text (words_of line.now) ≡ Some (row_text_of w)) }
{
    let mut words = Pieces::new(line, b' ');
    let verb = words.next()?;
    let kid = words.next()?;
    let key = words.next()?;
    let from = words.next()?;
    let expires = words.next()?;
    if words.next().is_some() {
        return None;
    }
    if verb != b"key".as_slice() {
        return None;
    }
    Some(RowWords {
        kid,
        key,
        from,
        expires,
    })
}

/// A key id.
pub fn kid_in(alloc: Global, word: &[u8]) -> Result<Option<KeyId>, AllocError>
    ensures { IfOk result (λ kid. kid ≡ kid_in word.now) }
{
    let Some(bytes) = hex_bytes(alloc, word)? else {
        return Ok(None);
    };
    match KeyId::new(alloc, bytes.as_slice()) {
        Ok(kid) => Ok(Some(kid)),
        Err(KeyIdFault::Length) => Ok(None),
        Err(KeyIdFault::OutOfMemory) => Err(AllocError),
    }
}

/// A key.
#[tactic(auto, unfolding(crate::specs::Words::key_in))]
pub fn key_in(word: &[u8]) -> Option<[u8; 16]>
    ensures { result ≡ key_in word.now }
{
    let mut bytes = [0; 16];
    match hex::decode_to_slice(word, &mut bytes) {
        Ok(()) => Some(bytes),
        Err(_) => None,
    }
}

/// A moment.
pub fn moment_in(word: &[u8]) -> Option<u64>
    ensures value { result ≡ moment_in word.now }
    ensures within { IfSome result (λ moment. moment ≤ MAX_MOMENT) }
{
    number_up_to(MAX_MOMENT, word)
}

/// A moment, or a dash for none.
pub fn end_in(word: &[u8]) -> Option<Option<u64>>
    ensures value { result ≡ end_in word.now }
    ensures within { IfSome result (λ last. IsTrue (is_end last)) }
{
    if word == b"-".as_slice() {
        return Some(None);
    }
    let moment = moment_in(word)?;
    Some(Some(moment))
}
