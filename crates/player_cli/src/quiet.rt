// The words of the commands that say a text.
ghost use Rattle.std.specs.Prelude.{◌≡◌, map, string_bytes, MatchResult, Ok, Err};
ghost use Rattle.player_cli.specs.Command.{told_command, inspect_words, request_words, demo_words, desk_words, desk_request, kind_of, Tell, Inspect, Demo, Desk, desk_names, IsRequested, IsQuiet};

use eme_edge::{UsageFault, UsageKind, bad_word, next_word};
use eme_types::{InitKind, MAX_MOMENT};
use text_words::{is_hex, number_up_to};

/// What the words of a request ask for. The hexadecimal word is in its form.
#[derive(Clone, Copy)]
pub struct RequestWords<'a> {
    pub kind: InitKind,
    pub hex: &'a str,
}

/// What the words of a desk ask for: the names of its table and of the request, and the moment of the answer, in milliseconds.
#[derive(Clone, Copy)]
pub struct DeskWords<'a> {
    pub table: &'a str,
    pub request: &'a str,
    pub moment: u64,
}

/// What the words of a command ask for that says a text.
#[derive(Clone, Copy)]
pub enum QuietWords<'a> {
    /// The text of the media file of this name.
    Inspect(&'a str),
    Request(RequestWords<'a>),
    /// The play of the demonstration of this number.
    Demo(u64),
    Desk(DeskWords<'a>),
}

fn kind_of(word: &str) -> Option<InitKind>
    ensures { result ≡ kind_of word.now }
{
    if word == "cenc" {
        return Some(InitKind::Cenc);
    }
    if word == "keyids" {
        return Some(InitKind::Keyids);
    }
    None
}

/// Reads the words from left to right. `play` and `seal` are none of these commands.
#[tactic(auto, unfolding(crate::specs::Command::told_command))]
pub fn read_quiet(words: &[String]) -> Result<QuietWords<'_>, UsageFault>
    ensures { MatchResult result (IsQuiet (told_command (map string_bytes words.now))) (λ e. told_command (map string_bytes words.now) ≡ Err e) }
{
    let Some((command, rest)) = next_word(words) else {
        return Err(bad_word(1, UsageKind::MissingCommand));
    };
    if command == "inspect" {
        return match read_inspect(rest) {
            Ok(media) => Ok(QuietWords::Inspect(media)),
            Err(fault) => Err(fault),
        };
    }
    if command == "request" {
        return match read_request(rest) {
            Ok(asked) => Ok(QuietWords::Request(asked)),
            Err(fault) => Err(fault),
        };
    }
    if command == "demo" {
        return match read_demo(rest) {
            Ok(n) => Ok(QuietWords::Demo(n)),
            Err(fault) => Err(fault),
        };
    }
    if command == "desk" {
        return match read_desk_words(rest) {
            Ok(asked) => Ok(QuietWords::Desk(asked)),
            Err(fault) => Err(fault),
        };
    }
    Err(bad_word(1, UsageKind::UnknownCommand))
}

/// The name of the media file.
fn read_inspect(words: &[String]) -> Result<&str, UsageFault>
    ensures { MatchResult result (λ media. inspect_words (map string_bytes words.now) ≡ Ok (Tell (Inspect media.now))) (λ e. inspect_words (map string_bytes words.now) ≡ Err e) }
{
    let Some((media, rest)) = next_word(words) else {
        return Err(bad_word(2, UsageKind::MissingWord));
    };
    if media.is_empty() {
        return Err(bad_word(2, UsageKind::EmptyName));
    }
    match next_word(rest) {
        None => Ok(media),
        Some(_) => Err(bad_word(3, UsageKind::ExtraWord)),
    }
}

fn read_request(words: &[String]) -> Result<RequestWords<'_>, UsageFault>
    ensures { MatchResult result (IsRequested (request_words (map string_bytes words.now))) (λ e. request_words (map string_bytes words.now) ≡ Err e) }
{
    let Some((kind, rest)) = next_word(words) else {
        return Err(bad_word(2, UsageKind::MissingWord));
    };
    let Some(kind) = kind_of(kind) else {
        return Err(bad_word(2, UsageKind::BadKind));
    };
    let Some((hex, rest)) = next_word(rest) else {
        return Err(bad_word(3, UsageKind::MissingWord));
    };
    if !is_hex(hex.as_bytes()) {
        return Err(bad_word(3, UsageKind::BadHex));
    }
    match next_word(rest) {
        None => Ok(RequestWords { kind, hex }),
        Some(_) => Err(bad_word(4, UsageKind::ExtraWord)),
    }
}

/// The number of the demonstration.
fn read_demo(words: &[String]) -> Result<u64, UsageFault>
    ensures { MatchResult result (λ n. demo_words (map string_bytes words.now) ≡ Ok (Tell (Demo n))) (λ e. demo_words (map string_bytes words.now) ≡ Err e) }
{
    let Some((word, rest)) = next_word(words) else {
        return Err(bad_word(2, UsageKind::MissingWord));
    };
    let Some(n) = number_up_to(u64::MAX, word.as_bytes()) else {
        return Err(bad_word(2, UsageKind::BadNumber));
    };
    match next_word(rest) {
        None => Ok(n),
        Some(_) => Err(bad_word(3, UsageKind::ExtraWord)),
    }
}

fn read_desk_words(words: &[String]) -> Result<DeskWords<'_>, UsageFault>
    ensures { MatchResult result (λ w. desk_words (map string_bytes words.now) ≡ Ok (Tell (Desk (desk_names w)))) (λ e. desk_words (map string_bytes words.now) ≡ Err e) }
{
    let Some((table, rest)) = next_word(words) else {
        return Err(bad_word(2, UsageKind::MissingWord));
    };
    if table.is_empty() {
        return Err(bad_word(2, UsageKind::EmptyName));
    }
    read_desk_request(table, rest)
}

/// Reads the words behind the name of the table.
fn read_desk_request<'a>(table: &'a str, words: &'a [String]) -> Result<DeskWords<'a>, UsageFault>
    ensures { MatchResult result (λ w. desk_request table.now (map string_bytes words.now) ≡ Ok (Tell (Desk (desk_names w)))) (λ e. desk_request table.now (map string_bytes words.now) ≡ Err e) }
{
    let Some((request, rest)) = next_word(words) else {
        return Err(bad_word(3, UsageKind::MissingWord));
    };
    if request.is_empty() {
        return Err(bad_word(3, UsageKind::EmptyName));
    }
    let Some((word, rest)) = next_word(rest) else {
        return Err(bad_word(4, UsageKind::MissingWord));
    };
    let Some(moment) = number_up_to(MAX_MOMENT, word.as_bytes()) else {
        return Err(bad_word(4, UsageKind::BadNumber));
    };
    match next_word(rest) {
        None => Ok(DeskWords {
            table,
            request,
            moment,
        }),
        Some(_) => Err(bad_word(5, UsageKind::ExtraWord)),
    }
}
