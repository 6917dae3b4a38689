// JSON texts and base64url texts.
ghost use Rattle.std.specs.Prelude.{◌≡◌, IfOk, option_map};
ghost use Rattle.serde_json.specs.View.{view};
ghost use Rattle.clearkey_json.specs.Base64url.{bytes_of, kid_of, key_of};
ghost use Rattle.clearkey_json.specs.Json.{json_of, text_at};

use base64::DecodeAllocError;
use base64::engine::general_purpose::URL_SAFE_NO_PAD;
use eme_types::{KeyBytes, KeyId, KeyIdFault};
use serde_json::Value;
use std::alloc::{AllocError, Global};

/// The JSON value of UTF-8 bytes (RFC 8259), nested at most 127 deep; none where they are no such text.
pub fn json_of(alloc: Global, bytes: &[u8]) -> Result<Option<Value>, AllocError>
    ensures { IfOk result (λ value. option_map view value ≡ json_of bytes.now) }
{
    match Value::from_slice(alloc, bytes) {
        Ok(value) => Ok(Some(value)),
        Err(fault) => {
            if fault.is_memory() {
                return Err(AllocError);
            }
            Ok(None)
        }
    }
}

// The text at a member of an object.
#[tactic(auto, unfolding(crate::specs::Json::text_at))]
pub(crate) fn text_at<'a>(object: &'a Value, name: &str) -> Option<&'a str>
    ensures { option_map (λ s. s.now) result ≡ text_at name.now (view object.now) }
{
    object.get(name).and_then(Value::as_str)
}

// The bytes of a base64url text without padding (RFC 4648 section 5).
fn bytes_of(alloc: Global, text: &str) -> Result<Option<Vec<u8>>, AllocError>
    ensures { IfOk result (λ bytes. option_map (λ v. v.items) bytes ≡ bytes_of text.now) }
{
    match URL_SAFE_NO_PAD.decode(alloc, text.as_bytes()) {
        Ok(bytes) => Ok(Some(bytes)),
        Err(DecodeAllocError::DecodeError(_)) => Ok(None),
        Err(DecodeAllocError::OutOfMemory) => Err(AllocError),
    }
}

/// The key id of a base64url text (Encrypted Media Extensions section 9.1.6); none where the text is not that of 1 to 512
/// bytes.
#[tactic(auto, unfolding(crate::specs::Base64url::kid_of))]
pub fn kid_of(alloc: Global, text: &str) -> Result<Option<KeyId>, AllocError>
    ensures { IfOk result (λ kid. kid ≡ kid_of text.now) }
{
    let Some(bytes) = bytes_of(alloc, text)? else {
        return Ok(None);
    };
    match KeyId::new(alloc, &bytes) {
        Ok(kid) => Ok(Some(kid)),
        Err(KeyIdFault::Length) => Ok(None),
        Err(KeyIdFault::OutOfMemory) => Err(AllocError),
    }
}

// The key of a base64url text; none where the text is not that of 16 bytes.
#[tactic(auto, unfolding(crate::specs::Base64url::key_of))]
pub(crate) fn key_of(alloc: Global, text: &str) -> Result<Option<KeyBytes>, AllocError>
    ensures { IfOk result (λ key. option_map (λ k. k.bytes) key ≡ key_of text.now) }
{
    let Some(decoded) = bytes_of(alloc, text)? else {
        return Ok(None);
    };
    match <[u8; 16]>::try_from(decoded.as_slice()) {
        Ok(bytes) => Ok(Some(KeyBytes { bytes })),
        Err(_) => Ok(None),
    }
}
