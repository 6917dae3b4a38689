// The reader of a table.
ghost use Rattle.std.specs.Prelude.{◌≡◌, Ok, MatchResult, IfOk, IsTrue};
ghost use Rattle.eme_types.specs.FirstFault.{Gives};
ghost use Rattle.license_desk.specs.Rows.{has_moments};
ghost use Rattle.license_desk.specs.Table.{row_in, with_line, desk_of, EndsAt, WantsMemory, broken};

use crate::desk::KeyDesk;
use crate::fault::{DeskFault, DeskKind, LineFault};
use crate::terms::Terms;
use crate::words::{end_in, has_empty_word, key_in, kid_in, moment_in, row_words};
use eme_types::{KeyBytes, KeyId};
use std::alloc::Global;
use text_words::next_line;

/// The row of a line.
#[tactic(auto, unfolding(crate::specs::Table::row_in))]
fn read_row(alloc: Global, line: &[u8]) -> Result<(KeyId, Terms), LineFault>
    ensures value { Gives WantsMemory (λ row. row) result (broken (row_in line.now)) }
    ensures moments { IfOk result (λ row. IsTrue (has_moments row.1)) }
{
    if has_empty_word(line) {
        return Err(LineFault::Broken(DeskKind::Line));
    }
    let Some(words) = row_words(line) else {
        return Err(LineFault::Broken(DeskKind::Line));
    };
    let Some(kid) = kid_in(alloc, words.kid)? else {
        return Err(LineFault::Broken(DeskKind::Kid));
    };
    let Some(bytes) = key_in(words.key) else {
        return Err(LineFault::Broken(DeskKind::Key));
    };
    let Some(from) = moment_in(words.from) else {
        return Err(LineFault::Broken(DeskKind::Number));
    };
    let Some(expires) = end_in(words.expires) else {
        return Err(LineFault::Broken(DeskKind::Number));
    };
    let key = KeyBytes { bytes };
    Ok((kid, Terms { key, from, expires }))
}

/// Adds the row of a line.
#[tactic(auto, unfolding(crate::specs::Table::with_line))]
fn add_line(alloc: Global, desk: &mut KeyDesk, line: &[u8]) -> Result<(), LineFault>
    ensures { Gives WantsMemory (λ _. desk.new) result (broken (with_line desk.old line.now)) }
{
    let (kid, terms) = read_row(alloc, line)?;
    if desk.insert(kid, terms)? {
        Ok(())
    } else {
        Err(LineFault::Broken(DeskKind::DuplicateKid))
    }
}

/// Reads a table of keys: the line `DESK 1`, and then a row on each line: `key`, a key id and its key in hexadecimal, a start,
/// and an expiration or `-` for none. The last line feed may be missing.
///
/// A table is refused at its first line with a broken rule, by that line's first broken rule in the order of `DeskKind`.
pub fn read_desk(alloc: Global, bytes: &[u8]) -> Result<KeyDesk, DeskFault>
    ensures { MatchResult result (λ desk. desk_of bytes.now ≡ Ok desk) (EndsAt (desk_of bytes.now)) }
{
    let Some((header, rows)) = next_line(bytes) else {
        return Err(DeskFault::Refused {
            line: 1,
            kind: DeskKind::Header,
        });
    };
    if header != b"DESK 1".as_slice() {
        return Err(DeskFault::Refused {
            line: 1,
            kind: DeskKind::Header,
        });
    }
    let mut desk = KeyDesk::new(alloc);
    let mut number: u32 = 2;
    let mut rest = rows;
    while let Some((line, more)) = next_line(rest) {
        if let Err(fault) = add_line(alloc, &mut desk, line) {
            return Err(fault.at(number));
        }
        number = number.saturating_add(1);
        rest = more;
    }
    Ok(desk)
}
