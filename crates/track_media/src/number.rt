// Numbers in a line.
ghost use Rattle.std.specs.Prelude.{◌≡◌, ◌≤◌, IfOk, IfSome};
ghost use Rattle.text_words.specs.Pieces.{cut};
ghost use Rattle.text_words.specs.Numbers.{number_up_to};
ghost use Rattle.track_media.specs.Text.{track_id, pair_at, pattern_in, sub_in, subs_in, all_subs};

use eme_types::{Sub, Subs};
use std::alloc::{AllocError, Global};
use text_words::Pieces;

/// The number that a text writes, where it is at most this.
fn number_up_to(most: u32, text: &[u8]) -> Option<u32>
    ensures value { result ≡ number_up_to most text.now }
    ensures within { IfSome result (λ n. n ≤ most) }
{
    let number = text_words::number_up_to(u64::from(most), text)?;
    Some(number as u32)
}

/// A track id.
pub fn track_id(word: &[u8]) -> Option<u32>
    ensures { result ≡ track_id word.now }
{
    let id = number_up_to(u32::MAX, word)?;
    if id == 0 {
        return None;
    }
    Some(id)
}

/// Two numbers, before and behind a sign.
#[tactic(auto, unfolding(crate::specs::Text::pair_at))]
fn pair_at(sign: u8, most_before: u32, most_behind: u32, text: &[u8]) -> Option<(u32, u32)>
    ensures value { result ≡ pair_at sign most_before most_behind text.now }
    ensures within { IfSome result (λ p. (p.0 ≤ most_before) × (p.1 ≤ most_behind)) }
{
    let mut pieces = Pieces::new(text, sign);
    let before = pieces.next()?;
    let behind = pieces.next()?;
    if pieces.next().is_some() {
        return None;
    }
    let before = number_up_to(most_before, before)?;
    let behind = number_up_to(most_behind, behind)?;
    Some((before, behind))
}

/// The crypt and the skip count of a pattern.
pub fn pattern_in(word: &[u8]) -> Option<(u8, u8)>
    ensures { result ≡ pattern_in word.now }
{
    let (crypt, skip) = pair_at(b':', 15, 15, word)?;
    Some((crypt as u8, skip as u8))
}

/// The clear and the protected bytes of a subsample.
#[tactic(auto, unfolding(crate::specs::Text::sub_in))]
fn sub_in(text: &[u8]) -> Option<Sub>
    ensures { result ≡ sub_in text.now }
{
    let (clear, prot) = pair_at(b'+', 65535, u32::MAX, text)?;
    Some(Sub {
        clear: clear as u16,
        prot,
    })
}

/// Subsamples joined by commas.
#[tactic(auto, using(crate::proofs::SubsampleLemmas::one_more, crate::proofs::SubsampleLemmas::no_more, crate::proofs::SubsampleLemmas::all_done, crate::proofs::SubsampleLemmas::none_done))]
fn joined_subs(alloc: Global, word: &[u8]) -> Result<Option<Subs>, AllocError>
    ensures { IfOk result (λ subs. subs ≡ all_subs (cut 44 word.now)) }
{
    let mut subs = Subs::new(alloc);
    let mut pieces = Pieces::new(word, b',');
    while let Some(text) = pieces.next() {
        match sub_in(text) {
            Some(sub) => subs.push(sub)?,
            None => return Ok(None),
        }
    }
    Ok(Some(subs))
}

/// Subsamples joined by commas, or a dash for none.
pub fn subs_in(alloc: Global, word: &[u8]) -> Result<Option<Subs>, AllocError>
    ensures { IfOk result (λ subs. subs ≡ subs_in word.now) }
{
    if word == b"-".as_slice() {
        return Ok(Some(Subs::new(alloc)));
    }
    joined_subs(alloc, word)
}
