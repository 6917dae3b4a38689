// The text of a licence.
ghost use Rattle.std.specs.Prelude.{◌≡◌, ◌<◌, ◌++◌, length, Some, IfOk, OnOk, string_bytes};
ghost use Rattle.std.specs.List.{All};
ghost use Rattle.clearkey_json.specs.Base64url.{base64url, key_of};
ghost use Rattle.license_desk.specs.Licence.{latest_start, earlier, earliest_end, stated, key_text, keys_text, start_text, end_text, licence_text};
ghost use Rattle.license_desk.specs.ReadBack.{IsEncoded, IsReadBack};

use crate::terms::Terms;
use base64::engine::general_purpose::URL_SAFE_NO_PAD;
use eme_types::KeyId;
use std::alloc::{AllocError, Global};

/// The latest start of rows, or 0.
fn latest_start(rows: &[(KeyId, Terms)]) -> u64
    ensures { result ≡ latest_start rows.now }
{
    let mut latest: u64 = 0;
    for row in rows {
        latest = latest.max(row.1.from);
    }
    latest
}

fn earlier(a: Option<u64>, b: Option<u64>) -> Option<u64>
    ensures { result ≡ earlier a b }
{
    match (a, b) {
        (None, other) => other,
        (Some(a), None) => Some(a),
        (Some(a), Some(b)) => Some(a.min(b)),
    }
}

/// The earliest expiration of rows, where one has any.
fn earliest_end(rows: &[(KeyId, Terms)]) -> Option<u64>
    ensures { result ≡ earliest_end rows.now }
{
    let mut last = None;
    for row in rows {
        last = earlier(last, row.1.expires);
    }
    last
}

/// A start that is above 0.
fn stated(start: u64) -> Option<u64>
    ensures { result ≡ stated start }
{
    if start == 0 { None } else { Some(start) }
}

/// Bytes as a base64url text.
fn encoded(alloc: Global, bytes: &[u8]) -> Result<String, AllocError>
    ensures text { IfOk result (λ s. string_bytes s ≡ base64url bytes.now) }
    ensures reads { IfOk result (λ s. IsEncoded bytes.now) }
{
    URL_SAFE_NO_PAD.encode(alloc, bytes)
}

/// A key as a base64url text.
fn encoded_key(alloc: Global, key: [u8; 16]) -> Result<String, AllocError>
    ensures text { IfOk result (λ s. string_bytes s ≡ base64url key) }
    ensures reads { IfOk result (λ s. key_of (base64url key) ≡ Some key) }
    ensures plain { IfOk result (λ s. IsEncoded key) }
{
    encoded(alloc, &key)
}

/// A key as a JSON Web Key.
fn key_text(alloc: Global, row: &(KeyId, Terms)) -> Result<String, AllocError>
    ensures text { IfOk result (λ s. string_bytes s ≡ key_text row.now) }
    ensures reads { IfOk result (λ s. IsReadBack row.now) }
{
    let kid = encoded(alloc, row.0.bytes())?;
    let key = encoded_key(alloc, row.1.key.bytes)?;
    format!(in alloc; "{{\"kty\":\"oct\",\"kid\":\"{kid}\",\"k\":\"{key}\"}}")
}

/// Adds the keys of rows, joined by commas.
fn put_keys(alloc: Global, text: &mut String, rows: &[(KeyId, Terms)]) -> Result<(), AllocError>
    requires { 0 < length rows.now }
    ensures text { OnOk result (string_bytes text.new ≡ string_bytes text.old ++ keys_text rows.now) }
    ensures reads { OnOk result (All IsReadBack rows.now) }
{
    let first = key_text(alloc, &rows[0])?;
    text.push_str(&first)?;
    for row in &rows[1..] {
        let key = key_text(alloc, row)?;
        text.push_str(",")?;
        text.push_str(&key)?;
    }
    Ok(())
}

/// Adds the member `from`, where there is a start.
fn put_start(alloc: Global, text: &mut String, start: Option<u64>) -> Result<(), AllocError>
    ensures { OnOk result (string_bytes text.new ≡ string_bytes text.old ++ start_text start) }
{
    let Some(moment) = start else {
        return Ok(());
    };
    let member = format!(in alloc; ",\"from\":{moment}")?;
    text.push_str(&member)
}

/// Adds the member `expires`, where there is an expiration.
fn put_end(alloc: Global, text: &mut String, last: Option<u64>) -> Result<(), AllocError>
    ensures { OnOk result (string_bytes text.new ≡ string_bytes text.old ++ end_text last) }
{
    let Some(moment) = last else {
        return Ok(());
    };
    let member = format!(in alloc; ",\"expires\":{moment}")?;
    text.push_str(&member)
}

/// The text of the licence for rows: a key set of their keys, that starts with the latest start and expires with the earliest
/// expiration (Encrypted Media Extensions section 9.1.4). It is JSON without spaces.
#[tactic(auto, unfolding(crate::specs::Licence::licence_text))]
pub fn licence_text(alloc: Global, rows: &[(KeyId, Terms)]) -> Result<String, AllocError>
    requires { 0 < length rows.now }
    ensures text { IfOk result (λ s. string_bytes s ≡ licence_text rows.now) }
    ensures reads { IfOk result (λ s. All IsReadBack rows.now) }
{
    let mut text = String::from_str(alloc, "{\"keys\":[")?;
    put_keys(alloc, &mut text, rows)?;
    text.push_str("],\"type\":\"temporary\"")?;
    put_start(alloc, &mut text, stated(latest_start(rows)))?;
    put_end(alloc, &mut text, earliest_end(rows))?;
    text.push_str("}")?;
    Ok(text)
}
