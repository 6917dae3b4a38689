// The words of a command line, and what is wrong with the first bad one.
ghost use Rattle.std.specs.Prelude.{◌≡◌, [], ◌∷◌, map, string_bytes, MatchOption};
ghost use Rattle.eme_edge.specs.Words.{bad_word};

/// What is wrong with a word.
#[derive(Clone, Copy, Debug, PartialEq, Eq)]
pub enum UsageKind {
    /// No word was given.
    MissingCommand,
    /// The first word is none of the commands.
    UnknownCommand,
    /// The words end too early; the place is the one behind the last word.
    MissingWord,
    /// A word stands where the form of its command allows none.
    ExtraWord,
    /// The word is no decimal number, or one above its limit.
    BadNumber,
    /// The word is no type of initialization data.
    BadKind,
    /// The word is not pairs of hexadecimal digits.
    BadHex,
    /// The name of a file or the prefix is empty.
    EmptyName,
    /// A file that the play reads has a name that it may write; the place is that of the prefix.
    NameClash,
}

/// The first bad word, counted from 1.
#[derive(Clone, Copy, Debug, PartialEq, Eq)]
pub struct UsageFault {
    pub place: u32,
    pub kind: UsageKind,
}

/// A word at this place is bad.
pub fn bad_word(place: u32, kind: UsageKind) -> UsageFault
    ensures { result ≡ bad_word place kind }
{
    UsageFault { place, kind }
}

/// The first word, and those behind it.
pub fn next_word(words: &[String]) -> Option<(&str, &[String])>
    ensures { MatchOption result (map string_bytes words.now ≡ []) (λ p. map string_bytes words.now ≡ p.0.now ∷ map string_bytes p.1.now) }
{
    let (word, rest) = words.split_first()?;
    Some((word.as_str(), rest))
}
