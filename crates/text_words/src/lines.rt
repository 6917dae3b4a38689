// Lines of a text.
ghost use Rattle.std.specs.Prelude.{◌≡◌, ◌+◌, ◌<◌, ◌≤◌, [], ◌∷◌, length, position, MatchOption, IfSome};
ghost use Rattle.text_words.specs.Lines.{lines_of, is_line_feed};

/// The first line of a text and what follows it; nothing where no text is left. Each line ends with a line feed, which the
/// last may lack.
pub fn next_line(text: &[u8]) -> Option<(&[u8], &[u8])>
    ensures lines { MatchOption result (lines_of text.now ≡ []) (λ p. lines_of text.now ≡ p.0.now ∷ lines_of p.1.now) }
    ensures none { MatchOption result (text.now ≡ []) (λ p. 0 < length text.now) }
    ensures shorter { IfSome result (λ p. (length p.1.now < length text.now) × (length p.0.now + length p.1.now ≤ length text.now)) }
    ensures parted { IfSome result (λ p. 0 < length p.1.now → length p.0.now + length p.1.now + 1 ≡ length text.now) }
{
    if text.is_empty() {
        return None;
    }
    match line_end(text) {
        None => Some((text, &[])),
        Some(end) => Some((&text[..end], &text[end + 1..])),
    }
}

fn line_end(text: &[u8]) -> Option<usize>
    ensures { result ≡ position is_line_feed text.now }
{
    text.iter().position(|b| *b == b'\n')
}
