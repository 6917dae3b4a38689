// Data and moments.
ghost use Rattle.std.specs.Prelude.{◌≡◌, None, codes, MatchResult, IfOk};
ghost use Rattle.text_words.specs.Fronts.{behind};
ghost use Rattle.script_lang.specs.Content.{text_of, moment_of};
ghost use Rattle.script_lang.specs.Rules.{data_fault};
ghost use Rattle.script_lang.specs.Faults.{Breaks};
ghost use Rattle.script_lang.specs.Read.{ReadsData};

use crate::fault::{LineFault, ScriptKind};
use eme_types::{Bytes, MAX_MOMENT};
use std::alloc::{AllocError, Global};
use text_words::{behind, hex_bytes, number_up_to};

/// A name or a type; `-` alone is the empty text.
pub fn text_of(alloc: Global, word: &[u8]) -> Result<Bytes, AllocError>
    ensures { IfOk result (λ text. text ≡ text_of word.now) }
{
    if word == b"-".as_slice() {
        return Ok(Bytes::new(alloc));
    }
    Bytes::from_slice(alloc, word)
}

/// The bytes of data, or the first broken rule on it.
pub fn data_of(alloc: Global, text: &[u8]) -> Result<Bytes, LineFault>
    ensures { MatchResult result (ReadsData text.now) (Breaks (data_fault text.now)) }
{
    match behind(b"text:", text) {
        Some(rest) => Ok(Bytes::from_slice(alloc, rest)?),
        None => hex_of(alloc, text),
    }
}

/// The bytes of data that does not begin with `text:`.
fn hex_of(alloc: Global, text: &[u8]) -> Result<Bytes, LineFault>
    requires { behind (codes "text:") text.now ≡ None }
    ensures { MatchResult result (ReadsData text.now) (Breaks (data_fault text.now)) }
{
    let Some(digits) = behind(b"hex:", text) else {
        return Err(LineFault::Broken(ScriptKind::Form));
    };
    match hex_bytes(alloc, digits)? {
        Some(bytes) => Ok(Bytes::from_vec(bytes)),
        None => Err(LineFault::Broken(ScriptKind::Hex)),
    }
}

/// A moment in milliseconds: a decimal number up to 2^53.
pub fn moment_of(text: &[u8]) -> Option<u64>
    ensures { result ≡ moment_of text.now }
{
    number_up_to(MAX_MOMENT, text)
}
