//! What a play gives, as a text: of each track its file, and of each promise how it was settled, as the log tells it.
use crate::SerialEnd;
use cdm_state::Cdm;
use eme_types::{DomError, Effect, Settled};
use output_order::track_bytes;
use std::alloc::{AllocError, Global};
use std::str::from_utf8;
use std::test::Fail;

fn put_track(text: &mut String, id: u32, bytes: &[u8]) -> Result<(), AllocError> {
    write!(&mut *text, "track {id}")?;
    if !bytes.is_empty() {
        text.push_str(" ")?;
    }
    for byte in bytes {
        write!(&mut *text, "{byte:02x}")?;
    }
    text.push_str("\n")
}

fn name_of(error: DomError) -> &'static str {
    match error {
        DomError::InvalidState => "InvalidStateError",
        DomError::TypeFault => "TypeError",
        DomError::NotSupported => "NotSupportedError",
        DomError::Quota => "QuotaExceededError",
        DomError::UnknownLabel => "UnknownLabel",
    }
}

fn put_promise(text: &mut String, number: usize, how: &Settled) -> Result<(), Fail> {
    match how {
        Settled::Resolved => write!(&mut *text, "promise {number} resolved\n")?,
        Settled::ResolvedFalse => write!(&mut *text, "promise {number} resolved false\n")?,
        Settled::ResolvedConfig(config) => {
            let config = from_utf8(config.as_slice())?;
            write!(&mut *text, "promise {number} resolved {config}\n")?;
        }
        Settled::Rejected(error) => {
            let error = name_of(*error);
            write!(&mut *text, "promise {number} rejected {error}\n")?;
        }
    }
    Ok(())
}

/// What the serial play gives.
pub fn answer_of(alloc: Global, end: &SerialEnd) -> Result<String, Fail> {
    let mut text = String::new(alloc);
    for (id, bytes) in end.tracks.as_slice() {
        put_track(&mut text, *id, bytes.as_slice())?;
    }
    for (i, how) in end.results.as_slice().iter().enumerate() {
        put_promise(&mut text, i.saturating_add(1), how)?;
    }
    Ok(text)
}

/// How these effects settle the promise with a number.
fn settled_in(effects: &[Effect], number: u64) -> Option<&Settled> {
    for effect in effects {
        if let Effect::Promise { promise, how } = effect {
            if *promise == number {
                return Some(how);
            }
        }
    }
    None
}

/// How a history settles the promise with a number.
fn settled_by(cdm: &Cdm, number: u64) -> Option<&Settled> {
    for i in 0..cdm.history().len() as u64 {
        if let Some(effects) = cdm.effects(i.saturating_add(1)) {
            if let Some(how) = settled_in(effects, number) {
                return Some(how);
            }
        }
    }
    None
}

/// What the history of a core gives.
pub fn answer_by(alloc: Global, cdm: &Cdm) -> Result<String, Fail> {
    let mut text = String::new(alloc);
    for id in cdm.tracks().as_slice() {
        let bytes = track_bytes(alloc, cdm, *id)?;
        put_track(&mut text, *id, bytes.as_slice())?;
    }
    for number in 1..100usize {
        match settled_by(cdm, number as u64) {
            Some(how) => put_promise(&mut text, number, how)?,
            None => return Ok(text),
        }
    }
    Ok(text)
}
