// The words behind the name of the vault's file.
ghost use Rattle.std.specs.Prelude.{◌≡◌, map, string_bytes, MatchResult, Ok, Err};
ghost use Rattle.vault_tool.specs.Words.{command, label_words, store_words, nothing_behind, asked_of, Store};

use eme_edge::{UsageFault, UsageKind, bad_word, next_word};

/// What the words ask for.
#[derive(Clone, Copy)]
pub enum VaultWords<'a> {
    Create,
    /// `licence` is the name of the licence's file.
    Store { label: &'a str, licence: &'a str },
    Load { label: &'a str },
    Release { label: &'a str },
    Ack { label: &'a str },
}

/// Reads the words from left to right.
#[tactic(auto, unfolding(crate::specs::Words::command))]
pub fn read_words(words: &[String]) -> Result<VaultWords<'_>, UsageFault>
    ensures { MatchResult result (λ w. command (map string_bytes words.now) ≡ Ok (asked_of w)) (λ e. command (map string_bytes words.now) ≡ Err e) }
{
    let Some((command, rest)) = next_word(words) else {
        return Err(bad_word(1, UsageKind::MissingCommand));
    };
    if command == "create" {
        return match read_end(rest, 2) {
            Ok(()) => Ok(VaultWords::Create),
            Err(fault) => Err(fault),
        };
    }
    if command == "store" {
        return match read_store(rest) {
            Ok((label, licence)) => Ok(VaultWords::Store { label, licence }),
            Err(fault) => Err(fault),
        };
    }
    if command == "load" {
        return match read_label(rest) {
            Ok(label) => Ok(VaultWords::Load { label }),
            Err(fault) => Err(fault),
        };
    }
    if command == "release" {
        return match read_label(rest) {
            Ok(label) => Ok(VaultWords::Release { label }),
            Err(fault) => Err(fault),
        };
    }
    if command == "ack" {
        return match read_label(rest) {
            Ok(label) => Ok(VaultWords::Ack { label }),
            Err(fault) => Err(fault),
        };
    }
    Err(bad_word(1, UsageKind::UnknownCommand))
}

/// No word stands at this place.
fn read_end(words: &[String], place: u32) -> Result<(), UsageFault>
    ensures { result ≡ nothing_behind place (map string_bytes words.now) }
{
    match next_word(words) {
        None => Ok(()),
        Some(_) => Err(bad_word(place, UsageKind::ExtraWord)),
    }
}

/// The label, which is the last word.
fn read_label(words: &[String]) -> Result<&str, UsageFault>
    ensures { MatchResult result (λ label. label_words (map string_bytes words.now) ≡ Ok label.now) (λ e. label_words (map string_bytes words.now) ≡ Err e) }
{
    let Some((label, rest)) = next_word(words) else {
        return Err(bad_word(2, UsageKind::MissingWord));
    };
    match read_end(rest, 3) {
        Ok(()) => Ok(label),
        Err(fault) => Err(fault),
    }
}

/// The label, and the name of the licence's file.
fn read_store(words: &[String]) -> Result<(&str, &str), UsageFault>
    ensures { MatchResult result (λ w. store_words (map string_bytes words.now) ≡ Ok (Store w.0.now w.1.now)) (λ e. store_words (map string_bytes words.now) ≡ Err e) }
{
    let Some((label, rest)) = next_word(words) else {
        return Err(bad_word(2, UsageKind::MissingWord));
    };
    let Some((licence, rest)) = next_word(rest) else {
        return Err(bad_word(3, UsageKind::MissingWord));
    };
    if licence.is_empty() {
        return Err(bad_word(3, UsageKind::EmptyName));
    }
    match read_end(rest, 4) {
        Ok(()) => Ok((label, licence)),
        Err(fault) => Err(fault),
    }
}
