// The actions of lines.
ghost use Rattle.std.specs.Prelude.{MatchResult};
ghost use Rattle.script_lang.specs.Rules.{content_fault, moment_fault};
ghost use Rattle.script_lang.specs.Faults.{Breaks};
ghost use Rattle.script_lang.specs.Read.{ActsAs, ReadsMoment};

use crate::content::{data_of, moment_of, text_of};
use crate::fault::{LineFault, ScriptKind};
use crate::parts::Parts;
use crate::script::Action;
use crate::verb::Verb;
use eme_types::{AppCall, Bytes};
use std::alloc::Global;

/// The action of a line's parts, or the first broken rule on its data or moment.
pub fn action_of(alloc: Global, moment: u64, parts: &Parts<'_>) -> Result<Action, LineFault>
    ensures { MatchResult result (ActsAs moment parts.now) (Breaks (content_fault moment parts.now.verb parts.now.last.now)) }
{
    match parts.verb {
        Verb::Access => {
            let list = data_of(alloc, parts.last)?;
            let name = text_of(alloc, parts.first)?;
            Ok(Action::Ask(AppCall::Access { name, list }))
        }
        Verb::Create => {
            let label = Bytes::from_slice(alloc, parts.first)?;
            let kind = text_of(alloc, parts.second)?;
            Ok(Action::Ask(AppCall::Create { label, kind }))
        }
        Verb::Request => {
            let init = data_of(alloc, parts.last)?;
            let label = Bytes::from_slice(alloc, parts.first)?;
            let kind = text_of(alloc, parts.second)?;
            Ok(Action::Ask(AppCall::Request { label, kind, init }))
        }
        Verb::Update => {
            let response = data_of(alloc, parts.last)?;
            let label = Bytes::from_slice(alloc, parts.first)?;
            Ok(Action::Ask(AppCall::Update { label, response }))
        }
        Verb::Close => {
            let label = Bytes::from_slice(alloc, parts.first)?;
            Ok(Action::Ask(AppCall::Close { label }))
        }
        Verb::Remove => {
            let label = Bytes::from_slice(alloc, parts.first)?;
            Ok(Action::Ask(AppCall::Remove { label }))
        }
        Verb::Certificate => {
            let cert = data_of(alloc, parts.last)?;
            Ok(Action::Ask(AppCall::Certificate { cert }))
        }
        Verb::Feed => Ok(Action::Feed),
        Verb::Clock => Ok(Action::Clock(clock_of(moment, parts.last)?)),
        Verb::Evict => Ok(Action::Evict(Bytes::from_slice(alloc, parts.first)?)),
        Verb::Settle => Ok(Action::Settle),
    }
}

/// A moment that is not below this one.
fn clock_of(moment: u64, text: &[u8]) -> Result<u64, LineFault>
    ensures { MatchResult result (ReadsMoment moment text.now) (Breaks (moment_fault moment text.now)) }
{
    let Some(next) = moment_of(text) else {
        return Err(LineFault::Broken(ScriptKind::Number));
    };
    if next < moment {
        return Err(LineFault::Broken(ScriptKind::ClockBack));
    }
    Ok(next)
}
