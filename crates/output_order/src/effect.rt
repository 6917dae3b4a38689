// The lines of effects.
ghost use Rattle.std.specs.Prelude.{◌≡◌, ◌++◌, OnOk, IfOk, string_bytes};
ghost use Rattle.std.specs.List.{flat_map};
ghost use Rattle.eme_types.specs.declared.call.Event.TheVariants.{Encrypted};
ghost use Rattle.output_order.specs.Log.{status_words, settled_words, event_line, effect_line, effect_lines};

use crate::names::{error_name, hex_text, init_name, reason_name, status_name};
use eme_types::{Bytes, Effect, Event, InitData, KeyId, Settled, Status};
use std::alloc::{AllocError, Global};

fn status_text(alloc: Global, kid: &KeyId, status: Status) -> Result<String, AllocError>
    ensures { IfOk result (λ s. string_bytes s ≡ status_words (kid.now, status)) }
{
    let kid = hex_text(alloc, kid.bytes())?;
    let status = status_name(status);
    format!(in alloc; " {kid}={status}")
}

fn put_statuses(alloc: Global, out: &mut Bytes, list: &[(KeyId, Status)]) -> Result<(), AllocError>
    ensures { OnOk result (out.new ≡ out.old ++ flat_map status_words list.now) }
{
    for (kid, status) in list {
        let words = status_text(alloc, kid, *status)?;
        out.extend_from_slice(words.as_bytes())?;
    }
    Ok(())
}

fn put_settled(alloc: Global, out: &mut Bytes, how: &Settled) -> Result<(), AllocError>
    ensures { OnOk result (out.new ≡ out.old ++ settled_words how.now) }
{
    match how {
        Settled::Resolved => out.extend_from_slice(b" resolved\n"),
        Settled::ResolvedFalse => out.extend_from_slice(b" resolved false\n"),
        Settled::ResolvedConfig(text) => {
            out.extend_from_slice(b" resolved ")?;
            out.extend_from_slice(text.as_slice())?;
            out.extend_from_slice(b"\n")?;
            Ok(())
        }
        Settled::Rejected(error) => {
            let name = error_name(*error);
            let words = format!(in alloc; " rejected {name}\n")?;
            out.extend_from_slice(words.as_bytes())?;
            Ok(())
        }
    }
}

fn encrypted_line(alloc: Global, init: &InitData) -> Result<String, AllocError>
    ensures { IfOk result (λ s. string_bytes s ≡ event_line (Encrypted init.now)) }
{
    let kind = init_name(init.kind);
    let bytes = hex_text(alloc, init.bytes.as_slice())?;
    format!(in alloc; "  event encrypted {kind} {bytes}\n")
}

fn put_event(alloc: Global, out: &mut Bytes, event: &Event) -> Result<(), AllocError>
    ensures { OnOk result (out.new ≡ out.old ++ event_line event.now) }
{
    match event {
        Event::Message { session, id, text } => {
            let words = format!(in alloc; "  event message {session} {id} license-request ")?;
            out.extend_from_slice(words.as_bytes())?;
            out.extend_from_slice(text.as_slice())?;
            out.extend_from_slice(b"\n")?;
            Ok(())
        }
        Event::KeyStatuses { session } => {
            let line = format!(in alloc; "  event keystatuseschange {session}\n")?;
            out.extend_from_slice(line.as_bytes())?;
            Ok(())
        }
        Event::WaitingForKey { track } => {
            let line = format!(in alloc; "  event waitingforkey {track}\n")?;
            out.extend_from_slice(line.as_bytes())?;
            Ok(())
        }
        Event::Encrypted { init } => {
            let line = encrypted_line(alloc, init)?;
            out.extend_from_slice(line.as_bytes())?;
            Ok(())
        }
    }
}

fn put_effect(alloc: Global, out: &mut Bytes, effect: &Effect) -> Result<(), AllocError>
    ensures { OnOk result (out.new ≡ out.old ++ effect_line effect.now) }
{
    match effect {
        Effect::Statuses { session, list } => {
            let words = format!(in alloc; "  statuses {session}")?;
            out.extend_from_slice(words.as_bytes())?;
            put_statuses(alloc, out, list.as_slice())?;
            out.extend_from_slice(b"\n")?;
            Ok(())
        }
        Effect::Closed { session, reason } => {
            let reason = reason_name(*reason);
            let line = format!(in alloc; "  closed {session} {reason}\n")?;
            out.extend_from_slice(line.as_bytes())?;
            Ok(())
        }
        Effect::Promise { promise, how } => {
            let words = format!(in alloc; "  promise {promise}")?;
            out.extend_from_slice(words.as_bytes())?;
            put_settled(alloc, out, how)?;
            Ok(())
        }
        Effect::Fired { event } => {
            put_event(alloc, out, event)?;
            Ok(())
        }
    }
}

/// Adds the lines of these effects, in order.
pub fn put_effects(alloc: Global, out: &mut Bytes, effects: &[Effect]) -> Result<(), AllocError>
    ensures { OnOk result (out.new ≡ out.old ++ effect_lines effects.now) }
{
    for effect in effects {
        put_effect(alloc, out, effect)?;
    }
    Ok(())
}
