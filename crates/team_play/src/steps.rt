// The steps that lane 0 takes when it settles, beside workers.
ghost use Rattle.std.specs.Prelude.{◌≡◌, OnOk};
ghost use mathlib.Core.List.{IsPrefix};
ghost use Rattle.shared_cdm.specs.Passes.{IsOf, seen, own, tracks_of};
ghost use Rattle.team_play.specs.Adds.{Stays, Steps, Settles};

use crate::patience::Patience;
use book_lock::Pass;
use cdm_state::{Cdm, ClaimFault, SettleFault, StepFault};
use sample_crypt::open_sample;
use shared_cdm::SharedCdm;
use std::alloc::{AllocError, Global};
use std::sync::Wait;

/// Claims a sample as worker 0, opens it outside the lock and delivers it. Answers whether there was one.
fn claim_one<R: Wait>(
    rt: &R,
    alloc: Global,
    shared: &SharedCdm,
    pass: Pass<Cdm>,
) -> (Pass<Cdm>, Result<bool, AllocError>)
    requires { IsOf shared.now pass }
    ensures kept { Stays shared.now pass result.0 }
    ensures later { IsPrefix (seen pass) (seen result.0) }
    ensures steps { OnOk result.1 (Steps (seen pass) (own pass) (seen result.0) (own result.0)) }
{
    let (pass, claimed) = shared.claim(rt, pass, 0);
    match claimed {
        Ok(claim) => match open_sample(alloc, &claim.sample, &claim.key) {
            Ok(clear) => {
                let (pass, _delivered) = shared.deliver(rt, pass, claim, clear);
                (pass, Ok(true))
            }
            Err(error) => (pass, Err(error)),
        },
        Err(ClaimFault::NoWork) => (pass, Ok(false)),
        Err(ClaimFault::OutOfMemory) => (pass, Err(AllocError)),
    }
}

/// Claims a sample, and where there is none waits for a key; where nothing waits, it rests.
fn claim_or_wait<R: Wait>(
    rt: &R,
    alloc: Global,
    shared: &SharedCdm,
    pass: Pass<Cdm>,
    patience: &mut Patience,
) -> (Pass<Cdm>, Result<(), AllocError>)
    requires { IsOf shared.now pass }
    ensures kept { Stays shared.now pass result.0 }
    ensures later { IsPrefix (seen pass) (seen result.0) }
    ensures steps { OnOk result.1 (Steps (seen pass) (own pass) (seen result.0) (own result.0)) }
{
    patience.renew();
    let (pass, claimed) = claim_one(rt, alloc, shared, pass);
    match claimed {
        Ok(true) => (pass, Ok(())),
        Ok(false) => {
            let (pass, waiting) = shared.wait_for_key(rt, pass);
            if waiting.is_err() {
                patience.rest(rt);
            }
            (pass, Ok(()))
        }
        Err(error) => (pass, Err(error)),
    }
}

/// Lets a sample out: one that was delivered, else a clear one. Answers whether there was one.
fn let_out<R: Wait>(rt: &R, shared: &SharedCdm, pass: Pass<Cdm>) -> (Pass<Cdm>, bool)
    requires { IsOf shared.now pass }
    ensures kept { Stays shared.now pass result.0 }
    ensures later { IsPrefix (seen pass) (seen result.0) }
    ensures steps { Steps (seen pass) (own pass) (seen result.0) (own result.0) }
{
    let (pass, published) = shared.publish(rt, pass);
    let out = published.is_ok();
    if out {
        return (pass, true);
    }
    let (pass, passed) = shared.pass_clear(rt, pass);
    (pass, passed.is_ok())
}

/// Lets a sample out, else claims one where it is time to, else rests.
fn pass_sample<R: Wait>(
    rt: &R,
    alloc: Global,
    shared: &SharedCdm,
    pass: Pass<Cdm>,
    patience: &mut Patience,
) -> (Pass<Cdm>, Result<(), AllocError>)
    requires { IsOf shared.now pass }
    ensures kept { Stays shared.now pass result.0 }
    ensures later { IsPrefix (seen pass) (seen result.0) }
    ensures steps { OnOk result.1 (Steps (seen pass) (own pass) (seen result.0) (own result.0)) }
{
    let (pass, out) = let_out(rt, shared, pass);
    if out {
        patience.renew();
        return (pass, Ok(()));
    }
    let over = patience.is_over();
    if over {
        return claim_or_wait(rt, alloc, shared, pass, patience);
    }
    patience.rest(rt);
    (pass, Ok(()))
}

/// Of what a step answers, want of memory alone ends a settle: a queue may be empty, since others ran its front.
fn unless_short(ran: Result<(), StepFault>) -> Result<(), AllocError> {
    match ran {
        Err(StepFault::OutOfMemory) => Err(AllocError),
        _ => Ok(()),
    }
}

/// Runs the front job, if there still is one.
fn run_job<R: Wait>(
    rt: &R,
    shared: &SharedCdm,
    pass: Pass<Cdm>,
) -> (Pass<Cdm>, Result<(), AllocError>)
    requires { IsOf shared.now pass }
    ensures kept { Stays shared.now pass result.0 }
    ensures later { IsPrefix (seen pass) (seen result.0) }
    ensures steps { OnOk result.1 (Steps (seen pass) (own pass) (seen result.0) (own result.0)) }
{
    let (pass, ran) = shared.job(rt, pass);
    (pass, unless_short(ran))
}

/// Runs the front task, if there still is one.
fn run_task<R: Wait>(
    rt: &R,
    shared: &SharedCdm,
    pass: Pass<Cdm>,
) -> (Pass<Cdm>, Result<(), AllocError>)
    requires { IsOf shared.now pass }
    ensures kept { Stays shared.now pass result.0 }
    ensures later { IsPrefix (seen pass) (seen result.0) }
    ensures steps { OnOk result.1 (Steps (seen pass) (own pass) (seen result.0) (own result.0)) }
{
    let (pass, ran) = shared.task(rt, pass);
    (pass, unless_short(ran))
}

/// Takes a step by what keeps the core from its settle. Others may have taken it before.
fn take_step<R: Wait>(
    rt: &R,
    alloc: Global,
    shared: &SharedCdm,
    pass: Pass<Cdm>,
    fault: SettleFault,
    patience: &mut Patience,
) -> (Pass<Cdm>, Result<(), AllocError>)
    requires { IsOf shared.now pass }
    ensures kept { Stays shared.now pass result.0 }
    ensures later { IsPrefix (seen pass) (seen result.0) }
    ensures steps { OnOk result.1 (Steps (seen pass) (own pass) (seen result.0) (own result.0)) }
{
    match fault {
        SettleFault::Job => {
            patience.renew();
            run_job(rt, shared, pass)
        }
        SettleFault::Task => {
            patience.renew();
            run_task(rt, shared, pass)
        }
        SettleFault::Track(_) => pass_sample(rt, alloc, shared, pass, patience),
        SettleFault::OutOfMemory => (pass, Err(AllocError)),
    }
}

/// Takes the first step that is enabled, again and again, until the settle of the line is added. Beside workers lane 0 leaves most samples to
/// them; where nothing is enabled and the core is not at rest, a worker holds a claim, and lane 0 tries again.
pub fn settle_all<R: Wait>(
    rt: &R,
    alloc: Global,
    shared: &SharedCdm,
    pass: Pass<Cdm>,
    line: u32,
    workers: u8,
) -> (Pass<Cdm>, Result<(), AllocError>)
    requires { IsOf shared.now pass }
    ensures kept { Stays shared.now pass result.0 }
    ensures later { IsPrefix (seen pass) (seen result.0) }
    ensures settles { OnOk result.1 (Settles line (tracks_of pass) (seen pass) (own pass) (seen result.0) (own result.0)) }
{
    let mut pass = pass;
    let mut patience = Patience::beside(workers);
    for _ in rt.forever() {
        let (next, settled) = shared.settle(rt, pass, line);
        match settled {
            Ok(()) => return (next, Ok(())),
            Err(fault) => {
                let (next, went) = take_step(rt, alloc, shared, next, fault, &mut patience);
                match went {
                    Ok(()) => pass = next,
                    Err(error) => return (next, Err(error)),
                }
            }
        }
    }
    unreachable!()
}
