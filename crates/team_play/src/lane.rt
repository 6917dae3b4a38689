// A lane other than lane 0: it makes calls.
ghost use Rattle.std.specs.Prelude.{◌≡◌, ◌<◌, [], OnOk};
ghost use mathlib.Core.List.{IsPrefix};
ghost use Rattle.eme_types.specs.declared.entry.Entry.TheVariants.{Call as CallEntry};
ghost use Rattle.shared_cdm.specs.Passes.{IsOf, seen, own};
ghost use Rattle.play_parts.specs.Parts.{HasCalled};
ghost use Rattle.team_play.specs.Adds.{AddsOne, Stays};

use book_lock::Pass;
use cdm_state::Cdm;
use eme_types::{AppCall, Copies};
use script_lang::{Action, Line, Script};
use shared_cdm::SharedCdm;
use std::alloc::AllocError;
use std::sync::Wait;

/// Makes the call of a line.
pub fn make_call<R: Wait>(
    rt: &R,
    shared: &SharedCdm,
    pass: Pass<Cdm>,
    line: &Line,
    call: &AppCall,
) -> (Pass<Cdm>, Result<(), AllocError>)
    requires { IsOf shared.now pass }
    ensures kept { Stays shared.now pass result.0 }
    ensures later { IsPrefix (seen pass) (seen result.0) }
    ensures adds { OnOk result.1 (AddsOne (CallEntry line.now.lane line.now.number call.now) (seen pass) (own pass) (seen result.0) (own result.0)) }
{
    match call.copy() {
        Ok(copy) => {
            let (pass, made) = shared.call(rt, pass, line.lane, line.number, copy);
            match made {
                Ok(_) => (pass, Ok(())),
                Err(back) => (pass, Err(back.error)),
            }
        }
        Err(error) => (pass, Err(error)),
    }
}

/// Makes the calls of the lane's lines, in order.
pub fn run_lane<R: Wait>(
    rt: &R,
    shared: &SharedCdm,
    pass: Pass<Cdm>,
    script: &Script,
    lane: u8,
) -> (Pass<Cdm>, Result<(), AllocError>)
    requires of { IsOf shared.now pass }
    requires none { own pass ≡ [] }
    requires other { 0 < lane }
    ensures kept { Stays shared.now pass result.0 }
    ensures later { IsPrefix (seen pass) (seen result.0) }
    ensures called { OnOk result.1 (HasCalled script.now lane (own result.0)) }
{
    let mut pass = pass;
    for line in script.as_slice() {
        if line.lane == lane {
            let Action::Ask(call) = &line.action else {
                unreachable!()
            };
            let (next, made) = make_call(rt, shared, pass, line, call);
            match made {
                Ok(()) => pass = next,
                Err(error) => return (next, Err(error)),
            }
        }
    }
    (pass, Ok(()))
}
