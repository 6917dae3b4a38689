// What the sessions do at a line.
ghost use Rattle.std.specs.Prelude.{◌≡◌, Some, OnOk, IfOk};
ghost use Rattle.key_sessions.specs.Steps.{unmoved};
ghost use Rattle.serial_play.specs.Served.{IsIdle, served};
ghost use Rattle.serial_play.specs.Serial.{told_of};
ghost use Rattle.serial_play.specs.Answer.{StepsOn};

use eme_types::{Copies, Event, Fragment};
use key_sessions::{Sessions, StepFault};
use std::alloc::AllocError;

/// Runs the front job, or where there is none the front task. It is told whether there was one.
fn step(sessions: &mut Sessions) -> Result<bool, AllocError>
    ensures { IfOk result (λ went. StepsOn sessions.old went sessions.new) }
{
    match sessions.job() {
        Ok(()) => return Ok(true),
        Err(StepFault::OutOfMemory) => return Err(AllocError),
        Err(StepFault::Empty) => {}
    }
    match sessions.task() {
        Ok(_) => Ok(true),
        Err(StepFault::OutOfMemory) => Err(AllocError),
        Err(StepFault::Empty) => Ok(false),
    }
}

/// Does what is queued, and what that queues, until nothing is left.
pub fn serve(sessions: &mut Sessions) -> Result<(), AllocError>
    ensures done { OnOk result (sessions.new.machine ≡ (served (unmoved sessions.old.machine)).machine) }
    ensures idle { OnOk result (IsIdle sessions.new.machine) }
{
    'work: while step(sessions)? {}
    Ok(())
}

/// Queues `encrypted` for each initialization data of a fragment.
pub fn tell(sessions: &mut Sessions, fragment: &Fragment) -> Result<(), AllocError>
    ensures { OnOk result (sessions.new.machine ≡ told_of (Some fragment.now) sessions.old.machine) }
{
    for init in fragment.inits.as_slice() {
        let event = Event::Encrypted { init: init.copy()? };
        sessions.reserve_events(1)?;
        sessions.queue_event(event);
    }
    Ok(())
}
