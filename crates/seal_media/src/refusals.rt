// What keeps media from being sealed.
ghost use Rattle.std.specs.Prelude.{◌≡◌};
ghost use Rattle.std.specs.List.{list_any};
ghost use Rattle.seal_media.specs.Refusals.{is_protected, parts_refusal, fragment_refusal, fragment_number, fragments_refusal};

use crate::fault::SealFault;
use eme_types::{EncSample, Fragment, TrackPart};

fn has_protected(samples: &[EncSample]) -> bool
    ensures { result ≡ list_any is_protected samples.now }
{
    for sample in samples {
        if sample.protect.is_some() {
            return true;
        }
    }
    false
}

fn parts_refusal(number: u32, parts: &[TrackPart]) -> Option<SealFault>
    ensures { result ≡ parts_refusal number parts.now }
{
    for part in parts {
        if has_protected(part.samples.as_slice()) {
            return Some(SealFault::Protected {
                fragment: number,
                track: part.track,
            });
        }
    }
    None
}

fn fragment_refusal(number: u32, fragment: &Fragment) -> Option<SealFault>
    ensures { result ≡ fragment_refusal number fragment.now }
{
    if fragment.inits.len() > 0 {
        return Some(SealFault::HasInit { fragment: number });
    }
    parts_refusal(number, fragment.parts.as_slice())
}

/// The first fragment that has initialization data or a protected sample.
pub(crate) fn fragments_refusal(fragments: &[Fragment]) -> Option<SealFault>
    ensures { result ≡ fragments_refusal 0 fragments.now }
{
    let mut number: u32 = 1;
    for fragment in fragments {
        if let Some(fault) = fragment_refusal(number, fragment) {
            return Some(fault);
        }
        number = number.saturating_add(1);
    }
    None
}
