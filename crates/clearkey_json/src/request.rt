// Licence requests.
ghost use Rattle.std.specs.Prelude.{◌<◌, ◌≡◌, length, IfOk, string_bytes};
ghost use Rattle.clearkey_json.specs.Request.{request_text};

use base64::engine::general_purpose::URL_SAFE_NO_PAD;
use eme_types::{Bytes, Kids};
use std::alloc::{AllocError, Global};

/// The licence request for temporary keys of these ids, in their order (Encrypted Media Extensions section 9.1.3): JSON
/// without spaces.
pub fn request_text(alloc: Global, kids: &Kids) -> Result<Bytes, AllocError>
    requires { 0 < length kids.now }
    ensures { IfOk result (λ text. text ≡ request_text kids.now) }
{
    let kids = kids.as_slice();
    let mut text = String::from_str(alloc, "{\"kids\":[\"")?;
    URL_SAFE_NO_PAD.encode_string(kids[0].bytes(), &mut text)?;
    for kid in &kids[1..] {
        text.push_str("\",\"")?;
        URL_SAFE_NO_PAD.encode_string(kid.bytes(), &mut text)?;
    }
    text.push_str("\"],\"type\":\"temporary\"}")?;
    Ok(Bytes::from_vec(text.into_bytes()))
}
