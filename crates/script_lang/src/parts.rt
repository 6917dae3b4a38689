// Parts of a line.
ghost use Rattle.std.specs.Prelude.{◌≡◌, Some, MatchResult};
ghost use Rattle.std.specs.List.{list_all};
ghost use Rattle.script_lang.specs.Labels.{is_label, is_label_byte};
ghost use Rattle.script_lang.specs.Rules.{after_words, ends_well, has_words, words_fault};
ghost use Rattle.script_lang.specs.Read.{IsPartsOf};

use crate::fault::ScriptKind;
use crate::verb::Verb;
use crate::words::lane_of;
use text_words::{begins, cut_word, is_word, next_word, split_front};

/// The parts of a line that acts. A word is empty where none stands.
#[derive(Clone, Copy)]
pub struct Parts<'a> {
    pub lane: u8,
    pub verb: Verb,
    /// The first word behind the verb.
    pub first: &'a [u8],
    /// The second word behind the verb.
    pub second: &'a [u8],
    /// Data or a moment.
    pub last: &'a [u8],
}

/// The parts of a line, or the first broken rule on its words.
pub fn parts_of(line: &[u8]) -> Result<Parts<'_>, ScriptKind>
    ensures { MatchResult result (IsPartsOf line.now) (λ kind. words_fault line.now ≡ Some kind) }
{
    let (lane, rest) = cut_word(line);
    let Some(lane) = lane_of(lane) else {
        return Err(ScriptKind::Lane);
    };
    let (verb, rest) = next_word(rest);
    let Some(verb) = Verb::of(verb) else {
        return Err(ScriptKind::Verb);
    };
    if verb.is_of_lane_0() && lane != 0 {
        return Err(ScriptKind::LaneKind);
    }
    let (first, after_first) = next_word(rest);
    let (second, _) = next_word(after_first);
    let end = after_words(verb.plain_words(), rest);
    if !has_words(verb, first, second, end) {
        return Err(ScriptKind::Words);
    }
    let (_, last) = split_front(end, 1);
    Ok(Parts {
        lane,
        verb,
        first,
        second,
        last,
    })
}

/// What follows so many words, at most two.
fn after_words(count: usize, rest: &[u8]) -> &[u8]
    ensures { result.now ≡ after_words count rest.now }
{
    if count == 0 {
        return rest;
    }
    let (_, rest) = next_word(rest);
    if count == 1 {
        return rest;
    }
    let (_, rest) = next_word(rest);
    rest
}

fn has_words(verb: Verb, first: &[u8], second: &[u8], end: &[u8]) -> bool
    ensures { result ≡ has_words verb first.now second.now end.now }
{
    let count = verb.plain_words();
    !(0 < count && first.is_empty()) && !(1 < count && second.is_empty()) && ends_well(verb, end)
}

fn ends_well(verb: Verb, end: &[u8]) -> bool
    ensures { result ≡ ends_well verb end.now }
{
    let (_, last) = split_front(end, 1);
    if verb.takes_data() {
        is_word(last) || begins(b"text:", last)
    } else if verb.is_clock() {
        is_word(last)
    } else {
        end.is_empty()
    }
}

/// Whether a text is 1 to 32 of the characters `a` to `z`, `0` to `9` and `_`.
pub fn is_label(text: &[u8]) -> bool
    ensures { result ≡ is_label text.now }
{
    if text.is_empty() {
        return false;
    }
    if 32 < text.len() {
        return false;
    }
    are_label_bytes(text)
}

fn are_label_bytes(text: &[u8]) -> bool
    ensures { result ≡ list_all is_label_byte text.now }
{
    text.iter().all(|b| is_label_byte(*b))
}

fn is_label_byte(b: u8) -> bool
    ensures { result ≡ is_label_byte b }
{
    b.is_ascii_lowercase() || b.is_ascii_digit() || b == b'_'
}
