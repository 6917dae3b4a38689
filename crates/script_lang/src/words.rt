// The lane of a line, and which lines act.
ghost use Rattle.std.specs.Prelude.{◌≡◌};
ghost use Rattle.script_lang.specs.Words.{lane_of, acts};

use eme_types::MAX_LANES;

/// The lane of a word, 0 to 7.
pub fn lane_of(word: &[u8]) -> Option<u8>
    ensures { result ≡ lane_of word.now }
{
    match word {
        [digit] if b'0' <= *digit && *digit - b'0' < MAX_LANES => Some(*digit - b'0'),
        _ => None,
    }
}

/// Whether a line does something: it is not empty and does not begin with `#`.
pub fn acts(line: &[u8]) -> bool
    ensures { result ≡ acts line.now }
{
    match line {
        [] => false,
        [first, ..] => *first != b'#',
    }
}
