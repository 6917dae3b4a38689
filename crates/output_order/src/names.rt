// The names of the texts.
ghost use Rattle.std.specs.Prelude.{◌≡◌, IfOk, string_bytes};
ghost use Rattle.output_order.specs.Log.{hex_text, verdict_name, status_name, reason_name, error_name, init_name};

use eme_types::{DomError, InitKind, Reason, Status, Verdict};
use std::alloc::{AllocError, Global};

/// Lower-case hexadecimal; a dash for no bytes.
pub fn hex_text(alloc: Global, bytes: &[u8]) -> Result<String, AllocError>
    ensures { IfOk result (λ s. string_bytes s ≡ hex_text bytes.now) }
{
    if bytes.is_empty() {
        return String::from_str(alloc, "-");
    }
    hex::encode(alloc, bytes)
}

pub fn verdict_name(verdict: Verdict) -> &'static str
    ensures { result.now ≡ verdict_name verdict }
{
    match verdict {
        Verdict::Taken => "taken",
        Verdict::Stale => "stale",
    }
}

/// MediaKeyStatus.
pub fn status_name(status: Status) -> &'static str
    ensures { result.now ≡ status_name status }
{
    match status {
        Status::Usable => "usable",
        Status::Expired => "expired",
        Status::Released => "released",
        Status::UsableInFuture => "usable-in-future",
    }
}

/// MediaKeySessionClosedReason.
pub fn reason_name(reason: Reason) -> &'static str
    ensures { result.now ≡ reason_name reason }
{
    match reason {
        Reason::ClosedByApplication => "closed-by-application",
        Reason::ResourceEvicted => "resource-evicted",
    }
}

pub fn error_name(error: DomError) -> &'static str
    ensures { result.now ≡ error_name error }
{
    match error {
        DomError::InvalidState => "InvalidStateError",
        DomError::TypeFault => "TypeError",
        DomError::NotSupported => "NotSupportedError",
        DomError::Quota => "QuotaExceededError",
        DomError::UnknownLabel => "UnknownLabel",
    }
}

/// The name of an initialization data type (W3C Initialization Data Format Registry).
pub fn init_name(kind: InitKind) -> &'static str
    ensures { result.now ≡ init_name kind }
{
    match kind {
        InitKind::Cenc => "cenc",
        InitKind::Keyids => "keyids",
    }
}
