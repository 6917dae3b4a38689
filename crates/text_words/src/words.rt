// Words of a line.
ghost use Rattle.std.specs.Prelude.{◌≡◌, position};
ghost use Rattle.std.specs.List.{list_any};
ghost use Rattle.text_words.specs.Words.{is_space, first_word, after_word, next_word, after_next, is_word};

use crate::fronts::split_front;

/// The word that a text begins with, and what follows it.
pub fn cut_word(text: &[u8]) -> (&[u8], &[u8])
    ensures word { result.0.now ≡ first_word text.now }
    ensures rest { result.1.now ≡ after_word text.now }
{
    match word_end(text) {
        None => (text, &[]),
        Some(end) => text.split_at(end),
    }
}

fn word_end(text: &[u8]) -> Option<usize>
    ensures { result ≡ position is_space text.now }
{
    text.iter().position(|b| *b == b' ')
}

/// The word behind a space, and what follows it. The word is empty where nothing follows.
pub fn next_word(rest: &[u8]) -> (&[u8], &[u8])
    ensures word { result.0.now ≡ next_word rest.now }
    ensures rest { result.1.now ≡ after_next rest.now }
{
    let (_, text) = split_front(rest, 1);
    cut_word(text)
}

/// Whether a text is one word.
pub fn is_word(text: &[u8]) -> bool
    ensures { result ≡ is_word text.now }
{
    !text.is_empty() && !has_space(text)
}

fn has_space(text: &[u8]) -> bool
    ensures { result ≡ list_any is_space text.now }
{
    text.iter().any(|b| *b == b' ')
}
