// The top calls.
ghost use Rattle.std.specs.Prelude.{map, string_bytes};
ghost use Rattle.player_cli.specs.Command.{command, quiet_command, told_command, play_words, seal_words};
ghost use Rattle.player_cli.specs.Says.{Says, QuietSays, SaysOf, IsDoneWhole};

use crate::end::outcome_of;
use crate::outcome::Outcome;
use crate::play::play_files;
use crate::quiet::read_quiet;
use crate::seal::seal_file;
use crate::seal_words::{read_seal, seal_command};
use crate::tell::tell;
use crate::words::{play_command, read_play};
use decrypt_workers::Gate;
use eme_edge::Shelf;
use std::alloc::Global;
use std::sync::Wait;
use std::thread::Threads;

/// Does what the words ask for. The words are those of the command line, without the program's name. `play` starts a thread for each worker
/// and for each lane beside lane 0, and waits for them; a worker passes the gate with each claim. Every other command is one call of
/// `run_quiet`, and waits for nobody.
pub fn run_player<R: Threads + Wait + Sync, S: Shelf, G: Gate + Sync>(
    rt: &R,
    alloc: Global,
    words: &[String],
    shelf: &mut S,
    gate: &G,
) -> Outcome
    ensures says { Says (map string_bytes words.now) result (S.state shelf.old) (S.state shelf.new) }
    ensures complete { IsDoneWhole (command (map string_bytes words.now)) result (S.state shelf.old) (S.state shelf.new) }
{
    run_words(rt, alloc, words, shelf, gate)
}

/// Does what the words of a command ask for that plays no files. `play` is an unknown command here.
pub fn run_quiet<S: Shelf>(alloc: Global, words: &[String], shelf: &mut S) -> Outcome
    ensures says { QuietSays (map string_bytes words.now) result (S.state shelf.old) (S.state shelf.new) }
    ensures complete { IsDoneWhole (quiet_command (map string_bytes words.now)) result (S.state shelf.old) (S.state shelf.new) }
{
    run_quietly(alloc, words, shelf)
}

fn run_words<R: Threads + Wait + Sync, S: Shelf, G: Gate + Sync>(
    rt: &R,
    alloc: Global,
    words: &[String],
    shelf: &mut S,
    gate: &G,
) -> Outcome
    ensures { Says (map string_bytes words.now) result (S.state shelf.old) (S.state shelf.new) }
{
    match play_command(words) {
        None => run_quiet(alloc, words, shelf),
        Some(rest) => run_play(rt, alloc, rest, shelf, gate),
    }
}

/// Plays what the words behind `play` name.
fn run_play<R: Threads + Wait + Sync, S: Shelf, G: Gate + Sync>(
    rt: &R,
    alloc: Global,
    words: &[String],
    shelf: &mut S,
    gate: &G,
) -> Outcome
    ensures { SaysOf (play_words (map string_bytes words.now)) result (S.state shelf.old) (S.state shelf.new) }
{
    match read_play(words) {
        Err(fault) => Outcome::Usage(fault),
        Ok(asked) => outcome_of(Outcome::Played, play_files(rt, alloc, asked, shelf, gate)),
    }
}

fn run_quietly<S: Shelf>(alloc: Global, words: &[String], shelf: &mut S) -> Outcome
    ensures { QuietSays (map string_bytes words.now) result (S.state shelf.old) (S.state shelf.new) }
{
    match seal_command(words) {
        None => run_telling(alloc, words, shelf),
        Some(rest) => run_seal(alloc, rest, shelf),
    }
}

/// Seals what the words behind `seal` name.
fn run_seal<S: Shelf>(alloc: Global, words: &[String], shelf: &mut S) -> Outcome
    ensures { SaysOf (seal_words (map string_bytes words.now)) result (S.state shelf.old) (S.state shelf.new) }
{
    match read_seal(words) {
        Err(fault) => Outcome::Usage(fault),
        Ok(asked) => outcome_of(Outcome::Done, seal_file(alloc, asked, shelf)),
    }
}

/// Says the text that the words ask for.
fn run_telling<S: Shelf>(alloc: Global, words: &[String], shelf: &mut S) -> Outcome
    ensures { SaysOf (told_command (map string_bytes words.now)) result (S.state shelf.old) (S.state shelf.new) }
{
    match read_quiet(words) {
        Err(fault) => Outcome::Usage(fault),
        Ok(asked) => outcome_of(Outcome::Done, tell(alloc, asked, shelf)),
    }
}
