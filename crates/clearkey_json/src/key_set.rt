// Key sets.
ghost use Rattle.std.specs.Prelude.{◌≡◌, ◌≢◌, map, IfOk, IfErr, Ok, Err, codes, option_map};
ghost use Rattle.clearkey_json.specs.declared.key_set.KeySetFault.TheVariants.{OutOfMemory};
ghost use Rattle.std.specs.List.{list_all};
ghost use Rattle.serde_json.specs.View.{view};
ghost use Rattle.serde_json.specs.Find.{get};
ghost use Rattle.eme_types.specs.FirstFault.{Gives};
ghost use Rattle.clearkey_json.specs.KeySet.{is_web_key, web_keys, pair_of, pairs_of, is_temporary, moment_of, key_set};

use crate::text::{json_of, key_of, kid_of, text_at};
use eme_types::{KeyBytes, KeyId, KeyPairs, MAX_KEY_SET_BYTES, MAX_MOMENT};
use serde_json::Value;
use std::alloc::{AllocError, Global};

/// The keys of a licence, in its order; the moment in milliseconds from which on they are expired, none: never; and the
/// moment from which on they are usable, none: at once.
#[derive(Drop)]
pub struct KeySet {
    pub keys: KeyPairs,
    pub expires: Option<u64>,
    pub from: Option<u64>,
}

/// The first rule that bytes break which are no key set.
#[derive(Clone, Copy, Debug, PartialEq, Eq)]
pub enum KeySetFault {
    /// There are more than 65,536 bytes.
    TooLong,
    /// They are not UTF-8 or not JSON.
    Json,
    /// They are no object whose member `keys` is a list of objects with the texts `kty`, `kid` and `k`.
    Shape,
    /// The list is empty.
    NoKeys,
    /// A `kty` is not `oct`.
    Kty,
    /// A `kid` is not base64url of 1 to 512 bytes.
    Kid,
    /// A `k` is not base64url of 16 bytes.
    Key,
    /// The member `type` is not `temporary`.
    Kind,
    /// The member `expires` is no whole number from 0 to 2^53, written as digits alone.
    Expires,
    /// The member `from` is no whole number from 0 to 2^53, written as digits alone.
    From,
    OutOfMemory,
}

impl From<AllocError> for KeySetFault {
    ghost use Rattle.std.specs.Prelude.{◌≡◌};
    ghost use Rattle.clearkey_json.specs.declared.key_set.KeySetFault.TheVariants.{OutOfMemory};

    ghost from_gives = { λ _ e. e ≡ OutOfMemory };

    fn from(_: AllocError) -> KeySetFault {
        KeySetFault::OutOfMemory
    }
}

// An object with the texts kty, kid and k.
fn is_web_key(object: &Value) -> bool
    ensures { result ≡ is_web_key (view object.now) }
{
    text_at(object, "kty").is_some()
        && text_at(object, "kid").is_some()
        && text_at(object, "k").is_some()
}

fn are_web_keys(objects: &[Value]) -> bool
    ensures { result ≡ list_all (λ object. is_web_key (view object)) objects.now }
{
    objects.iter().all(|object| is_web_key(object))
}

// The member keys of a key set (RFC 7517 section 5.1).
#[tactic(auto, unfolding(crate::specs::KeySet::web_keys))]
fn web_keys(set: &Value) -> Option<&[Value]>
    ensures { option_map (λ objects. map view objects.now) result ≡ web_keys (view set.now) }
{
    let objects = set.get("keys")?.as_array()?;
    if are_web_keys(objects) {
        Some(objects)
    } else {
        None
    }
}

// A key id and its key (RFC 7517 section 4).
#[tactic(auto, unfolding(crate::specs::KeySet::pair_of))]
fn pair_of(alloc: Global, object: &Value) -> Result<(KeyId, KeyBytes), KeySetFault>
    ensures { Gives (λ e. e ≡ OutOfMemory) (λ pair. pair) result (pair_of (view object.now)) }
{
    let Some(kty) = text_at(object, "kty") else {
        return Err(KeySetFault::Shape);
    };
    let Some(kid) = text_at(object, "kid") else {
        return Err(KeySetFault::Shape);
    };
    let Some(k) = text_at(object, "k") else {
        return Err(KeySetFault::Shape);
    };
    if kty != "oct" {
        return Err(KeySetFault::Kty);
    }
    let Some(kid) = kid_of(alloc, kid)? else {
        return Err(KeySetFault::Kid);
    };
    let Some(key) = key_of(alloc, k)? else {
        return Err(KeySetFault::Key);
    };
    Ok((kid, key))
}

fn pairs_of(alloc: Global, objects: &[Value]) -> Result<KeyPairs, KeySetFault>
    ensures { Gives (λ e. e ≡ OutOfMemory) (λ pairs. pairs) result (pairs_of (map view objects.now)) }
{
    if objects.is_empty() {
        return Err(KeySetFault::NoKeys);
    }
    let mut pairs = KeyPairs::with_capacity(alloc, objects.len())?;
    for object in objects {
        let pair = pair_of(alloc, object)?;
        pairs.push(pair)?;
    }
    Ok(pairs)
}

fn is_temporary(set: &Value) -> bool
    ensures { result ≡ is_temporary (get (codes "type") (view set.now)) }
{
    match set.get("type") {
        None => true,
        Some(kind) => kind.as_str() == Some("temporary"),
    }
}

// The moment that a member says, if it is there.
fn moment_of(member: Option<&Value>, fault: KeySetFault) -> Result<Option<u64>, KeySetFault>
    ensures { result ≡ moment_of fault (option_map (λ value. view value.now) member.entry) }
{
    let Some(member) = member else {
        return Ok(None);
    };
    match member.as_u64() {
        Some(moment) if moment <= MAX_MOMENT => Ok(Some(moment)),
        _ => Err(fault),
    }
}

/// Reads a key set (Encrypted Media Extensions section 9.1.4, RFC 7517 section 5). A fault is the first rule that the bytes
/// break, in the order of `KeySetFault`.
#[tactic(auto, unfolding(crate::specs::KeySet::key_set))]
pub fn read_key_set(alloc: Global, bytes: &[u8]) -> Result<KeySet, KeySetFault>
    ensures ok { IfOk result (λ set. key_set bytes.now ≡ Ok set) }
    ensures refused { IfErr result (λ fault. fault ≢ OutOfMemory → key_set bytes.now ≡ Err fault) }
{
    if bytes.len() > MAX_KEY_SET_BYTES {
        return Err(KeySetFault::TooLong);
    }
    let Some(set) = json_of(alloc, bytes)? else {
        return Err(KeySetFault::Json);
    };
    let Some(objects) = web_keys(&set) else {
        return Err(KeySetFault::Shape);
    };
    let keys = pairs_of(alloc, objects)?;
    if !is_temporary(&set) {
        return Err(KeySetFault::Kind);
    }
    let expires = moment_of(set.get("expires"), KeySetFault::Expires)?;
    let from = moment_of(set.get("from"), KeySetFault::From)?;
    Ok(KeySet {
        keys,
        expires,
        from,
    })
}
