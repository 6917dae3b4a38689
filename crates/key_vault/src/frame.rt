// The bytes of commands.
ghost use Rattle.std.specs.Prelude.{◌≡◌, ◌<◌, ◌≤◌, ◌+◌, ◌^◌, ◌++◌, [], ◌∷◌, ℕ, List, length, take, drop, IfOk, MatchOption};
ghost use Rattle.key_vault.specs.declared.command.Command.{Command};
ghost use Rattle.key_vault.specs.Bytes.{command_bytes, length_bytes, HasCommand, HasNoCommand};
ghost use Rattle.key_vault.specs.Told.{command_of};

use eme_types::Bytes;
use std::alloc::{AllocError, Global};

/// A command as bytes tell it.
#[derive(Clone, Copy)]
pub enum Told<'a> {
    Stores { label: &'a [u8], licence: &'a [u8] },
    Releases { label: &'a [u8] },
    Acks { label: &'a [u8] },
}

/// What stands behind the gate of a command: its length, the command, and the next gate, closed.
pub fn behind_gate(
    alloc: Global,
    verb: u8,
    label: &[u8],
    licence: &[u8],
) -> Result<Bytes, AllocError>
    requires label { length label.now < 256 }
    requires all { 2 + length label.now + length licence.now < 2 ^ 32 }
    ensures { IfOk result (λ b. b ≡ length_bytes (2 + length label.now + length licence.now) ++ (verb ∷ length label.now ∷ label.now ++ licence.now ++ 0 ∷ [])) }
{
    let count = 2 + label.len() + licence.len();
    let mut bytes = Bytes::from_slice(alloc, &(count as u32).to_be_bytes())?;
    bytes.push(verb)?;
    bytes.push(label.len() as u8)?;
    bytes.extend_from_slice(label)?;
    bytes.extend_from_slice(licence)?;
    bytes.push(0)?;
    Ok(bytes)
}

/// The command that these bytes are.
fn read_command(bytes: &[u8]) -> Option<Told<'_>>
    ensures { MatchOption result ((c : Command) → bytes.now ≡ command_bytes c → ⊥) (λ t. bytes.now ≡ command_bytes (command_of t)) }
{
    let [verb, count, rest @ ..] = bytes else {
        return None;
    };
    let count = *count as usize;
    if count > rest.len() {
        return None;
    }
    let (label, licence) = rest.split_at(count);
    match *verb {
        1 => Some(Told::Stores { label, licence }),
        2 if licence.is_empty() => Some(Told::Releases { label }),
        3 if licence.is_empty() => Some(Told::Acks { label }),
        _ => None,
    }
}

/// The command behind a gate, and how many bytes its length and it take.
pub fn read_frame(bytes: &[u8]) -> Option<(Told<'_>, usize)>
    ensures { MatchOption result (HasNoCommand bytes.now) (λ read. HasCommand bytes.now (command_of read.0) read.1) }
{
    let [a, b, c, d, rest @ ..] = bytes else {
        return None;
    };
    let count = u32::from_be_bytes([*a, *b, *c, *d]) as usize;
    if count > rest.len() {
        return None;
    }
    let told = read_command(&rest[..count])?;
    Some((told, 4 + count))
}
