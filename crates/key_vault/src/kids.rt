// The key ids of a licence, and the text of a release.
ghost use Rattle.std.specs.Prelude.{◌≡◌, ◌++◌, map, codes, IfOk, OnOk, string_bytes, if◌then◌else◌, ◌==◌};
ghost use Rattle.clearkey_json.specs.Base64url.{base64url};
ghost use Rattle.init_data.specs.InitData.{first_occurrences};
ghost use Rattle.key_vault.specs.Records.{kids_in};
ghost use Rattle.key_vault.specs.Texts.{quoted, release_text};

use base64::engine::general_purpose::URL_SAFE_NO_PAD;
use clearkey_json::{KeySetFault, read_key_set};
use eme_types::{Bytes, Copies, KeyBytes, KeyId, Kids};
use indexmap::IndexSet;
use std::alloc::{AllocError, Global};

/// The key ids of a licence, each once, in the order of first occurrence; none where it is no licence.
pub fn kids_in(alloc: Global, licence: &[u8]) -> Result<Kids, AllocError>
    ensures { IfOk result (λ kids. kids ≡ kids_in licence.now) }
{
    match read_key_set(alloc, licence) {
        Ok(set) => {
            let ids = ids_of(alloc, set.keys.as_slice())?;
            let distinct = distinct(alloc, &ids)?;
            as_kids(alloc, distinct)
        }
        Err(KeySetFault::OutOfMemory) => Err(AllocError),
        Err(_) => Ok(Kids::new(alloc)),
    }
}

fn ids_of(alloc: Global, pairs: &[(KeyId, KeyBytes)]) -> Result<Vec<KeyId>, AllocError>
    ensures { IfOk result (λ ids. ids.items ≡ map (λ pair. pair.0) pairs.now) }
{
    let mut ids = Vec::new(alloc);
    for pair in pairs {
        ids.push(pair.0.copy()?)?;
    }
    Ok(ids)
}

fn distinct(alloc: Global, kids: &[KeyId]) -> Result<IndexSet<KeyId>, AllocError>
    ensures { IfOk result (λ set. set.keys ≡ first_occurrences kids.now) }
{
    let mut distinct: IndexSet<KeyId> = IndexSet::new(alloc);
    for kid in kids {
        distinct.insert(kid.copy()?)?;
    }
    Ok(distinct)
}

fn as_kids(alloc: Global, set: IndexSet<KeyId>) -> Result<Kids, AllocError>
    ensures { IfOk result (λ kids. kids ≡ set.keys) }
{
    let mut kids = Kids::new(alloc);
    for kid in set {
        kids.push(kid)?;
    }
    Ok(kids)
}

/// The JSON object whose member `kids` lists the ids in base64url.
pub fn release_text(alloc: Global, kids: &[KeyId]) -> Result<Bytes, AllocError>
    ensures { IfOk result (λ text. text ≡ release_text kids.now) }
{
    let mut text = String::from_str(alloc, "{\"kids\":[")?;
    for (i, kid) in kids.iter().enumerate() {
        push_comma(&mut text, i)?;
        push_quoted(&mut text, kid)?;
    }
    text.push_str("]}")?;
    Ok(Bytes::from_vec(text.into_bytes()))
}

/// A comma, but before the first id.
fn push_comma(text: &mut String, i: usize) -> Result<(), AllocError>
    ensures { OnOk result (string_bytes text.new ≡ (if i == 0 then string_bytes text.old else string_bytes text.old ++ codes ",")) }
{
    if i == 0 {
        return Ok(());
    }
    text.push_str(",")
}

fn push_quoted(text: &mut String, kid: &KeyId) -> Result<(), AllocError>
    ensures { OnOk result (string_bytes text.new ≡ string_bytes text.old ++ quoted kid.now) }
{
    text.push_str("\"")?;
    URL_SAFE_NO_PAD.encode_string(kid.bytes(), text)?;
    text.push_str("\"")
}
