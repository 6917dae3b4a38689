// Pieces of a text.
ghost use Rattle.std.specs.Prelude.{◌≡◌, ◌==◌, [], ◌∷◌, position, MatchOption};
ghost use Rattle.text_words.specs.Pieces.{cut};

use std::marker::Model;

/// What stands between the bytes `at` of a text, and seen as the pieces that are still to come.
#[derive(Drop)]
pub struct Pieces<'a> {
    text: &'a [u8],
    more: bool,
    at: u8,
}

impl<'a> Model for Pieces<'a> {
    ghost use Rattle.std.specs.Prelude.{ℕ, List};
    ghost use Rattle.text_words.specs.Pieces.{pieces_left};

    ghost Value = { List (List ℕ) };

    ghost view = { λ p. pieces_left p.more p.at p.text.now };
}

fn first_place(text: &[u8], at: u8) -> Option<usize>
    ensures { result ≡ position (λ b. b == at) text.now }
{
    text.iter().position(|b| *b == at)
}

/// The text up to the first byte `at`, and what follows it; nothing follows where there is no such byte.
fn cut_at(text: &[u8], at: u8) -> (&[u8], Option<&[u8]>)
    ensures { MatchOption result.1 (cut at text.now ≡ result.0.now ∷ []) (λ rest. cut at text.now ≡ result.0.now ∷ cut at rest.now) }
{
    match first_place(text, at) {
        None => (text, None),
        Some(end) => (&text[..end], Some(&text[end + 1..])),
    }
}

impl<'a> Pieces<'a> {
    ghost use Rattle.text_words.specs.Pieces.{pieces_left};

    pub fn new(text: &'a [u8], at: u8) -> Pieces<'a>
        ensures { result ≡ cut at text.now }
    {
        Pieces {
            text,
            more: true,
            at,
        }
    }

    /// The next piece, or none at the end.
    pub fn next(&mut self) -> Option<&'a [u8]>
        ensures gives { MatchOption result ((self.old ≡ []) × (self.new ≡ [])) (λ piece. self.old ≡ piece.now ∷ self.new) }
    {
        if !self.more {
            return None;
        }
        let (piece, rest) = cut_at(self.text, self.at);
        match rest {
            None => self.more = false,
            Some(rest) => self.text = rest,
        }
        Some(piece)
    }
}
