// Answers.
ghost use Rattle.std.specs.Prelude.{◌≡◌, ◌≢◌, Ok, Err, IfOk, IfErr, IfSome, IsTrue};
ghost use Rattle.std.specs.List.{list_all};
ghost use Rattle.eme_types.specs.FirstFault.{Gives};
ghost use Rattle.license_desk.specs.declared.fault.AnswerFault.TheVariants.{OutOfMemory};
ghost use Rattle.license_desk.specs.Rows.{has_moments};
ghost use Rattle.license_desk.specs.Licence.{licence_text, IsLicenceFor};
ghost use Rattle.license_desk.specs.Answer.{row_for, given, requested, licence_of, answer_of};

use crate::desk::KeyDesk;
use crate::fault::AnswerFault;
use crate::licence::licence_text;
use crate::request::asks_temporary;
use crate::terms::{Rows, Terms};
use eme_types::{Bytes, Copies, InitKind, KeyId, MAX_KEY_SET_BYTES, MAX_SESSION_KIDS};
use init_data::kids_of;
use std::alloc::{AllocError, Global};

/// The row of a key id, where the table has one that has not expired.
fn row_for(desk: &KeyDesk, moment: u64, kid: &KeyId) -> Result<Option<(KeyId, Terms)>, AllocError>
    ensures row { IfOk result (λ row. row ≡ row_for desk.now moment kid.now) }
    ensures moments { IfOk result (λ row. IfSome row (λ r. IsTrue (has_moments r.1))) }
{
    let Some(terms) = desk.get(kid) else {
        return Ok(None);
    };
    if terms.is_expired(moment) {
        return Ok(None);
    }
    Ok(Some((kid.copy()?, terms)))
}

/// The rows of key ids, in the order of the ids.
fn given(alloc: Global, desk: &KeyDesk, moment: u64, kids: &[KeyId]) -> Result<Rows, AllocError>
    ensures rows { IfOk result (λ rows. rows ≡ given desk.now moment kids.now) }
    ensures moments { IfOk result (λ rows. IsTrue (list_all (λ row. has_moments row.1) rows)) }
{
    let mut rows = Rows::new(alloc);
    for kid in kids {
        if let Some(row) = row_for(desk, moment, kid)? {
            rows.push(row)?;
        }
    }
    Ok(rows)
}

/// The text of the licence for rows, within the limits of a session and of a key set.
#[tactic(auto, unfolding(crate::specs::Answer::licence_of))]
fn licence_of(alloc: Global, rows: &[(KeyId, Terms)]) -> Result<Bytes, AnswerFault>
    requires { IsTrue (list_all (λ row. has_moments row.1) rows.now) }
    ensures text { Gives (λ e. e ≡ OutOfMemory) (λ text. text) result (licence_of rows.now) }
    ensures licence { IfOk result (IsLicenceFor rows.now) }
{
    if rows.is_empty() {
        return Err(AnswerFault::NoKeys);
    }
    if MAX_SESSION_KIDS < rows.len() {
        return Err(AnswerFault::TooMany);
    }
    let text = licence_text(alloc, rows)?;
    if MAX_KEY_SET_BYTES < text.as_str().len() {
        return Err(AnswerFault::TooLong);
    }
    Ok(Bytes::from_vec(text.into_bytes()))
}

/// The licence that a request gets at a moment: a key set of the requested keys that the table has and that have not expired,
/// in the order of the request. It starts with the latest start of their rows and expires with their earliest expiration, so it
/// is usable only within the time of each.
///
/// A refusal is the first rule that is broken, in the order of `AnswerFault`.
#[tactic(auto, unfolding(crate::specs::Answer::answer_of))]
pub fn answer(
    alloc: Global,
    desk: &KeyDesk,
    request: &[u8],
    moment: u64,
) -> Result<Bytes, AnswerFault>
    ensures ok { IfOk result (λ text. answer_of desk.now moment request.now ≡ Ok text) }
    ensures licence { IfOk result (IsLicenceFor (given desk.now moment (requested request.now))) }
    ensures refused { IfErr result (λ fault. fault ≢ OutOfMemory → answer_of desk.now moment request.now ≡ Err fault) }
{
    let kids = kids_of(alloc, InitKind::Keyids, request)?;
    if !asks_temporary(alloc, request)? {
        return Err(AnswerFault::Kind);
    }
    let rows = given(alloc, desk, moment, kids.as_slice())?;
    licence_of(alloc, rows.as_slice())
}
