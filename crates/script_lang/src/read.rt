// The reader.
ghost use Rattle.std.specs.Prelude.{◌≡◌, ◌≤◌, ◌++◌, Ok, None, false, codes, MatchResult, OnOk, IfErr};
ghost use Rattle.std.specs.Str.{bytes_eq, is_utf8};
ghost use Rattle.eme_types.specs.declared.limits.TheConstants.{MAX_SCRIPT_LINES};
ghost use Rattle.script_lang.specs.Rules.{verb_in, action_fault, line_fault};
ghost use Rattle.script_lang.specs.Grammar.{action_line, meaning, created, moment_at_end, script_of, EndsAt};
ghost use Rattle.script_lang.specs.Faults.{Breaks};
ghost use Rattle.script_lang.specs.Read.{IsTold};

use crate::actions::action_of;
use crate::fault::{LineFault, ScriptFault, ScriptKind};
use crate::parts::parts_of;
use crate::script::{Line, Script};
use crate::told::Told;
use crate::words::acts;
use eme_types::MAX_SCRIPT_LINES;
use std::alloc::Global;
use std::str::from_utf8;
use text_words::next_line;

/// Reads a script: its lines that act, in order.
///
/// A script is refused at its first line with a broken rule, by that line's first broken rule in the order of `ScriptKind`.
pub fn read_script(alloc: Global, bytes: &[u8]) -> Result<Script, ScriptFault>
    ensures { MatchResult result (λ s. script_of bytes.now ≡ Ok s) (EndsAt (script_of bytes.now)) }
{
    if bytes.is_empty() {
        let fault = LineFault::Broken(ScriptKind::Header);
        return Err(fault.at(1));
    }
    let mut told = Told::new(alloc);
    let mut number = 0;
    let mut rest = bytes;
    while let Some((line, more)) = next_line(rest) {
        number += 1;
        if let Err(fault) = read_line(alloc, number, line, &mut told) {
            return Err(fault.at(number));
        }
        rest = more;
    }
    Ok(Script::new(told.lines))
}

/// Whether a text is UTF-8.
fn is_utf8(text: &[u8]) -> bool
    ensures { result ≡ is_utf8 text.now }
{
    match from_utf8(text) {
        Ok(_) => true,
        Err(_) => false,
    }
}

/// Reads the line of this number.
fn read_line(alloc: Global, number: u32, line: &[u8], told: &mut Told) -> Result<(), LineFault>
    requires { IsTold told.old }
    ensures ok { OnOk result (line_fault number (created told.old.lines) (moment_at_end told.old.lines) line.now ≡ None) }
    ensures lines { OnOk result (told.new.lines ≡ told.old.lines ++ meaning number line.now) }
    ensures told { OnOk result (IsTold told.new) }
    ensures small { OnOk result (number ≤ MAX_SCRIPT_LINES) }
    ensures err { IfErr result (Breaks (line_fault number (created told.old.lines) (moment_at_end told.old.lines) line.now)) }
{
    if !is_utf8(line) {
        return Err(LineFault::Broken(ScriptKind::NotUtf8));
    }
    if number == 1 {
        return read_header(line);
    }
    if MAX_SCRIPT_LINES < number {
        return Err(LineFault::Broken(ScriptKind::TooManyLines));
    }
    if !acts(line) {
        return Ok(());
    }
    read_action(alloc, number, line, told)
}

/// The first line is the name of the format and its version.
fn read_header(line: &[u8]) -> Result<(), LineFault>
    ensures { MatchResult result (λ _. line.now ≡ codes "EMES 1") (λ fault. (bytes_eq line.now (codes "EMES 1") ≡ false) × (fault ≡ LineFault.Broken ScriptKind.Header)) }
{
    if line != b"EMES 1".as_slice() {
        return Err(LineFault::Broken(ScriptKind::Header));
    }
    Ok(())
}

/// Reads a line that acts.
fn read_action(alloc: Global, number: u32, line: &[u8], told: &mut Told) -> Result<(), LineFault>
    requires { IsTold told.old }
    ensures ok { OnOk result (action_fault (created told.old.lines) (moment_at_end told.old.lines) line.now ≡ None) }
    ensures lines { OnOk result (told.new.lines ≡ told.old.lines ++ action_line number (verb_in line.now) line.now) }
    ensures told { OnOk result (IsTold told.new) }
    ensures err { IfErr result (Breaks (action_fault (created told.old.lines) (moment_at_end told.old.lines) line.now)) }
{
    let parts = match parts_of(line) {
        Ok(parts) => parts,
        Err(kind) => return Err(LineFault::Broken(kind)),
    };
    told.take_label(alloc, parts.verb, parts.first)?;
    let action = action_of(alloc, told.moment, &parts)?;
    told.push(Line {
        number,
        lane: parts.lane,
        action,
    })?;
    Ok(())
}
