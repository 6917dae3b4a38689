// The words of the command `seal`.
ghost use Rattle.std.specs.Prelude.{◌≡◌, map, string_bytes, MatchOption, MatchResult, Ok, Err};
ghost use Rattle.player_cli.specs.Command.{quiet_command, told_command, seal_words, seal_scheme, seal_kid, seal_key, seal_iv, seal_lead, seal_out, sixteen_bytes, scheme_of, IsSeal};

use eme_edge::{UsageFault, UsageKind, bad_word, next_word};
use eme_types::{KeyBytes, Scheme};
use seal_media::SealPlan;
use text_words::number_up_to;

/// The greatest lead of a sample, in bytes.
const MAX_LEAD: u64 = 65535;

/// What the words of the command ask for: the name of the media, how they are sealed, and the name of the output.
#[derive(Clone, Copy)]
pub struct SealWords<'a> {
    pub media: &'a str,
    pub plan: SealPlan,
    pub out: &'a str,
}

/// The words behind the command `seal`, if that is the command.
#[tactic(auto, unfolding(crate::specs::Command::quiet_command, crate::specs::Command::told_command))]
pub fn seal_command(words: &[String]) -> Option<&[String]>
    ensures { MatchOption result (quiet_command (map string_bytes words.now) ≡ told_command (map string_bytes words.now)) (λ rest. quiet_command (map string_bytes words.now) ≡ seal_words (map string_bytes rest.now)) }
{
    let (command, rest) = next_word(words)?;
    if command != "seal" {
        return None;
    }
    Some(rest)
}

/// The protection scheme that a word names (ISO/IEC 23001-7 section 10).
fn scheme_of(word: &str) -> Option<Scheme>
    ensures { result ≡ scheme_of word.now }
{
    if word == "cenc" {
        return Some(Scheme::Cenc);
    }
    if word == "cbcs" {
        return Some(Scheme::Cbcs);
    }
    None
}

/// The 16 bytes that a word spells in hexadecimal.
#[tactic(auto, unfolding(crate::specs::Command::sixteen_bytes))]
fn sixteen_bytes(word: &str) -> Option<[u8; 16]>
    ensures { result ≡ sixteen_bytes word.now }
{
    let mut bytes = [0; 16];
    match hex::decode_to_slice(word.as_bytes(), &mut bytes) {
        Ok(()) => Some(bytes),
        Err(_) => None,
    }
}

/// Reads the words behind `seal` from left to right.
pub fn read_seal(words: &[String]) -> Result<SealWords<'_>, UsageFault>
    ensures { MatchResult result (IsSeal (seal_words (map string_bytes words.now))) (λ e. seal_words (map string_bytes words.now) ≡ Err e) }
{
    let Some((media, rest)) = next_word(words) else {
        return Err(bad_word(2, UsageKind::MissingWord));
    };
    if media.is_empty() {
        return Err(bad_word(2, UsageKind::EmptyName));
    }
    read_scheme(media, rest)
}

/// Reads the words behind the name of the media.
fn read_scheme<'a>(media: &'a str, words: &'a [String]) -> Result<SealWords<'a>, UsageFault>
    ensures { MatchResult result (IsSeal (seal_scheme media.now (map string_bytes words.now))) (λ e. seal_scheme media.now (map string_bytes words.now) ≡ Err e) }
{
    let Some((word, rest)) = next_word(words) else {
        return Err(bad_word(3, UsageKind::MissingWord));
    };
    let Some(scheme) = scheme_of(word) else {
        return Err(bad_word(3, UsageKind::BadKind));
    };
    read_kid(media, scheme, rest)
}

/// Reads the words behind the scheme.
fn read_kid<'a>(
    media: &'a str,
    scheme: Scheme,
    words: &'a [String],
) -> Result<SealWords<'a>, UsageFault>
    ensures { MatchResult result (IsSeal (seal_kid media.now scheme (map string_bytes words.now))) (λ e. seal_kid media.now scheme (map string_bytes words.now) ≡ Err e) }
{
    let Some((word, rest)) = next_word(words) else {
        return Err(bad_word(4, UsageKind::MissingWord));
    };
    let Some(kid) = sixteen_bytes(word) else {
        return Err(bad_word(4, UsageKind::BadHex));
    };
    read_key(media, scheme, kid, rest)
}

/// Reads the words behind the key id.
fn read_key<'a>(
    media: &'a str,
    scheme: Scheme,
    kid: [u8; 16],
    words: &'a [String],
) -> Result<SealWords<'a>, UsageFault>
    ensures { MatchResult result (IsSeal (seal_key media.now scheme kid (map string_bytes words.now))) (λ e. seal_key media.now scheme kid (map string_bytes words.now) ≡ Err e) }
{
    let Some((word, rest)) = next_word(words) else {
        return Err(bad_word(5, UsageKind::MissingWord));
    };
    let Some(bytes) = sixteen_bytes(word) else {
        return Err(bad_word(5, UsageKind::BadHex));
    };
    read_iv(media, scheme, kid, KeyBytes { bytes }, rest)
}

/// Reads the words behind the key.
fn read_iv<'a>(
    media: &'a str,
    scheme: Scheme,
    kid: [u8; 16],
    key: KeyBytes,
    words: &'a [String],
) -> Result<SealWords<'a>, UsageFault>
    ensures { MatchResult result (IsSeal (seal_iv media.now scheme kid key (map string_bytes words.now))) (λ e. seal_iv media.now scheme kid key (map string_bytes words.now) ≡ Err e) }
{
    let Some((word, rest)) = next_word(words) else {
        return Err(bad_word(6, UsageKind::MissingWord));
    };
    let Some(iv) = sixteen_bytes(word) else {
        return Err(bad_word(6, UsageKind::BadHex));
    };
    let lead = 0;
    let plan = SealPlan {
        scheme,
        kid,
        key,
        iv,
        lead,
    };
    read_lead(media, plan, rest)
}

/// Reads the words behind the IV, where all of the plan but its lead is known.
fn read_lead<'a>(
    media: &'a str,
    plan: SealPlan,
    words: &'a [String],
) -> Result<SealWords<'a>, UsageFault>
    ensures { MatchResult result (IsSeal (seal_lead media.now plan (map string_bytes words.now))) (λ e. seal_lead media.now plan (map string_bytes words.now) ≡ Err e) }
{
    let Some((word, rest)) = next_word(words) else {
        return Err(bad_word(7, UsageKind::MissingWord));
    };
    let Some(lead) = number_up_to(MAX_LEAD, word.as_bytes()) else {
        return Err(bad_word(7, UsageKind::BadNumber));
    };
    let lead = lead as u16;
    read_out(media, SealPlan { lead, ..plan }, rest)
}

/// Reads the words behind the lead.
fn read_out<'a>(
    media: &'a str,
    plan: SealPlan,
    words: &'a [String],
) -> Result<SealWords<'a>, UsageFault>
    ensures { MatchResult result (IsSeal (seal_out media.now plan (map string_bytes words.now))) (λ e. seal_out media.now plan (map string_bytes words.now) ≡ Err e) }
{
    let Some((out, rest)) = next_word(words) else {
        return Err(bad_word(8, UsageKind::MissingWord));
    };
    if out.is_empty() {
        return Err(bad_word(8, UsageKind::EmptyName));
    }
    if out == media {
        return Err(bad_word(8, UsageKind::NameClash));
    }
    match next_word(rest) {
        None => Ok(SealWords { media, plan, out }),
        Some(_) => Err(bad_word(9, UsageKind::ExtraWord)),
    }
}
