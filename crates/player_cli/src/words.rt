// The words of the command line.
ghost use Rattle.std.specs.Prelude.{◌≡◌, ◌≤◌, [], ◌∷◌, map, string_bytes, MatchOption, MatchResult, IfOk, Ok, Err};
ghost use Rattle.eme_types.specs.declared.limits.TheConstants.{MAX_WORKERS};
ghost use Rattle.player_cli.specs.Command.{command, quiet_command, play_words, media_words, prefix_words, play_end, is_ending, clashes, IsAsked};

use eme_edge::{UsageFault, UsageKind, bad_word, next_word};
use eme_types::MAX_WORKERS;
use text_words::{are_digits, behind, number_up_to};

/// Workers of a play whose words name no number.
const DEFAULT_WORKERS: u8 = 4;

/// What the words of a play ask for.
#[derive(Clone, Copy)]
pub struct PlayWords<'a> {
    pub script: &'a str,
    pub media: &'a str,
    pub prefix: &'a str,
    pub workers: u8,
}

/// The words behind the command `play`, if that is the command.
#[tactic(auto, unfolding(crate::specs::Command::command, crate::specs::Command::quiet_command))]
pub fn play_command(words: &[String]) -> Option<&[String]>
    ensures { MatchOption result (command (map string_bytes words.now) ≡ quiet_command (map string_bytes words.now)) (λ rest. command (map string_bytes words.now) ≡ play_words (map string_bytes rest.now)) }
{
    let (command, rest) = next_word(words)?;
    if command != "play" {
        return None;
    }
    Some(rest)
}

/// Reads the words behind `play` from left to right.
pub fn read_play(words: &[String]) -> Result<PlayWords<'_>, UsageFault>
    ensures asked { MatchResult result (IsAsked (play_words (map string_bytes words.now))) (λ e. play_words (map string_bytes words.now) ≡ Err e) }
    ensures few { IfOk result (λ w. w.workers ≤ MAX_WORKERS) }
{
    let Some((script, rest)) = next_word(words) else {
        return Err(bad_word(2, UsageKind::MissingWord));
    };
    if script.is_empty() {
        return Err(bad_word(2, UsageKind::EmptyName));
    }
    read_media_words(script, rest)
}

/// Reads the words behind the name of the script.
fn read_media_words<'a>(script: &'a str, words: &'a [String]) -> Result<PlayWords<'a>, UsageFault>
    ensures asked { MatchResult result (IsAsked (media_words script.now (map string_bytes words.now))) (λ e. media_words script.now (map string_bytes words.now) ≡ Err e) }
    ensures few { IfOk result (λ w. w.workers ≤ MAX_WORKERS) }
{
    let Some((media, rest)) = next_word(words) else {
        return Err(bad_word(3, UsageKind::MissingWord));
    };
    if media.is_empty() {
        return Err(bad_word(3, UsageKind::EmptyName));
    }
    read_prefix_words(script, media, rest)
}

/// Reads the words behind the names of both files.
fn read_prefix_words<'a>(
    script: &'a str,
    media: &'a str,
    words: &'a [String],
) -> Result<PlayWords<'a>, UsageFault>
    ensures asked { MatchResult result (IsAsked (prefix_words script.now media.now (map string_bytes words.now))) (λ e. prefix_words script.now media.now (map string_bytes words.now) ≡ Err e) }
    ensures few { IfOk result (λ w. w.workers ≤ MAX_WORKERS) }
{
    let Some((prefix, rest)) = next_word(words) else {
        return Err(bad_word(4, UsageKind::MissingWord));
    };
    if prefix.is_empty() {
        return Err(bad_word(4, UsageKind::EmptyName));
    }
    if clashes(prefix, script) {
        return Err(bad_word(4, UsageKind::NameClash));
    }
    if clashes(prefix, media) {
        return Err(bad_word(4, UsageKind::NameClash));
    }
    match read_workers(rest) {
        Err(fault) => Err(fault),
        Ok(workers) => Ok(PlayWords {
            script,
            media,
            prefix,
            workers,
        }),
    }
}

/// Whether the name may be that of a file that the play writes.
fn clashes(prefix: &str, name: &str) -> bool
    ensures { result ≡ clashes prefix.now name.now }
{
    let Some(rest) = behind(prefix.as_bytes(), name.as_bytes()) else {
        return false;
    };
    match behind(b".", rest) {
        None => false,
        Some(text) => is_ending(text),
    }
}

/// Whether the text is `log`, or digits alone.
fn is_ending(text: &[u8]) -> bool
    ensures { result ≡ is_ending text.now }
{
    if text == b"log".as_slice() {
        return true;
    }
    if text.is_empty() {
        return false;
    }
    are_digits(text)
}

/// Reads the number of workers behind the prefix.
fn read_workers(words: &[String]) -> Result<u8, UsageFault>
    ensures asked { MatchResult result (λ n. play_end (map string_bytes words.now) ≡ Ok n) (λ e. play_end (map string_bytes words.now) ≡ Err e) }
    ensures few { IfOk result (λ n. n ≤ MAX_WORKERS) }
{
    let Some((option, rest)) = next_word(words) else {
        return Ok(DEFAULT_WORKERS);
    };
    if option != "--workers" {
        return Err(bad_word(5, UsageKind::ExtraWord));
    }
    let Some((word, rest)) = next_word(rest) else {
        return Err(bad_word(6, UsageKind::MissingWord));
    };
    let Some(workers) = number_up_to(u64::from(MAX_WORKERS), word.as_bytes()) else {
        return Err(bad_word(6, UsageKind::BadNumber));
    };
    match next_word(rest) {
        None => Ok(workers as u8),
        Some(_) => Err(bad_word(7, UsageKind::ExtraWord)),
    }
}
