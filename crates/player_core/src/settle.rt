// The loop that settles.
ghost use Rattle.std.specs.Prelude.{OnOk, IfOk, IsTrue};
ghost use Rattle.eme_types.specs.Fed.{are_distinct};
ghost use Rattle.cdm_state.specs.Progress.{NoneWaits, NothingToDo};
ghost use Rattle.player_core.specs.Course.{Steps, Settles};
ghost use Rattle.player_core.specs.Turns.{Turns};

use cdm_state::{Cdm, ClaimFault, SettleFault, StepFault, what_has_nothing_to_do_is_at_rest};
use sample_crypt::open_sample;
use std::alloc::{AllocError, Global};

/// What one turn of the loop did.
#[derive(Clone, Copy)]
pub enum Turn {
    /// A step was taken.
    Went,
    /// The settle of the line was added: nothing was left to do.
    Settled,
}

/// Adds the settle of the line where nothing is left to do: the core is at rest there.
fn settle_now(cdm: &mut Cdm, line: u32) -> Result<(), AllocError>
    requires idle { NothingToDo cdm.old.tracks cdm.old.history }
    requires delivered { NoneWaits cdm.old.history }
    requires distinct { IsTrue (are_distinct cdm.old.tracks) }
    ensures { OnOk result (Settles cdm.old cdm.new line) }
{
    what_has_nothing_to_do_is_at_rest();
    let _legal = cdm.history();
    match cdm.settle(line) {
        Ok(()) => Ok(()),
        Err(SettleFault::OutOfMemory) => Err(AllocError),
        Err(SettleFault::Job) => unreachable!(),
        Err(SettleFault::Task) => unreachable!(),
        Err(SettleFault::Track(_)) => unreachable!(),
    }
}

/// Takes the first of these that is enabled: a job; a task; a publication; a clear sample; a claim, which is opened and
/// delivered at once; a wait for a key; the settle of the line.
fn take_turn(alloc: Global, cdm: &mut Cdm, line: u32) -> Result<Turn, AllocError>
    requires delivered { NoneWaits cdm.old.history }
    requires distinct { IsTrue (are_distinct cdm.old.tracks) }
    ensures { IfOk result (λ turn. Turns cdm.old line turn cdm.new) }
{
    match cdm.job() {
        Ok(()) => return Ok(Turn::Went),
        Err(StepFault::OutOfMemory) => return Err(AllocError),
        Err(StepFault::Empty) => {}
    }
    match cdm.task() {
        Ok(()) => return Ok(Turn::Went),
        Err(StepFault::OutOfMemory) => return Err(AllocError),
        Err(StepFault::Empty) => {}
    }
    match cdm.publish() {
        Ok(_) => return Ok(Turn::Went),
        Err(_) => {}
    }
    match cdm.pass_clear() {
        Ok(_) => return Ok(Turn::Went),
        Err(_) => {}
    }
    match cdm.claim(0) {
        Ok(claim) => {
            let clear = open_sample(alloc, &claim.sample, &claim.key)?;
            let _delivered = cdm.deliver(claim, clear);
            return Ok(Turn::Went);
        }
        Err(ClaimFault::OutOfMemory) => return Err(AllocError),
        Err(ClaimFault::NoWork) => {}
    }
    match cdm.wait_for_key() {
        Ok(_) => return Ok(Turn::Went),
        Err(_) => {}
    }
    settle_now(cdm, line)?;
    Ok(Turn::Settled)
}

/// Takes steps until nothing is left to do, and adds the settle of the line. It ends, since each turn lowers what is left.
pub fn settle_all(alloc: Global, cdm: &mut Cdm, line: u32) -> Result<(), AllocError>
    requires delivered { NoneWaits cdm.old.history }
    requires distinct { IsTrue (are_distinct cdm.old.tracks) }
    ensures { OnOk result (Settles cdm.old cdm.new line) }
{
    loop {
        match take_turn(alloc, cdm, line)? {
            Turn::Went => {
                let _legal = cdm.history();
            }
            Turn::Settled => return Ok(()),
        }
    }
}
