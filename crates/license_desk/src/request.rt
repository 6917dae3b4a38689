// Licence requests.
ghost use Rattle.std.specs.Prelude.{◌≡◌, codes, IfOk, Ok};
ghost use Rattle.serde_json.specs.View.{view};
ghost use Rattle.serde_json.specs.Find.{get};
ghost use Rattle.clearkey_json.specs.KeySet.{is_temporary};
ghost use Rattle.license_desk.specs.Answer.{asks_temporary};

use clearkey_json::json_of;
use serde_json::Value;
use std::alloc::{AllocError, Global};

fn is_temporary(request: &Value) -> bool
    ensures { result ≡ is_temporary (get (codes "type") (view request.now)) }
{
    match request.get("type") {
        None => true,
        Some(kind) => kind.as_str() == Some("temporary"),
    }
}

/// Whether a request is for keys of a temporary session, or does not say.
pub fn asks_temporary(alloc: Global, request: &[u8]) -> Result<bool, AllocError>
    ensures { IfOk result (λ temporary. temporary ≡ asks_temporary request.now) }
{
    match json_of(alloc, request)? {
        None => Ok(true),
        Some(request) => Ok(is_temporary(&request)),
    }
}
