//! Calls with passes, and two threads that make them.
ghost use Rattle.std.specs.Prelude.{◌≡◌, ◌<◌, length};
ghost use Rattle.shared_cdm.specs.Passes.{IsOf, seen, own, parts, first_of};

use crate::shared::SharedCdm;
use book_lock::Pass;
use cdm_state::{Cdm, StepFault};
use decrypt_workers::{FreeGate, WorkEnd, work};
use eme_types::{AppCall, Bytes};
use std::alloc::{AllocError, Global};
use std::sync::Wait;
use std::thread::{Threads, join};

/// The call that creates a session.
pub fn creation(alloc: Global) -> Result<AppCall, AllocError> {
    Ok(AppCall::Create {
        label: Bytes::from_slice(alloc, b"a")?,
        kind: Bytes::from_slice(alloc, b"temporary")?,
    })
}

/// The call of line 2 on lane 1; answers whether it was made.
pub fn ask<R: Wait>(rt: &R, shared: &SharedCdm, pass: Pass<Cdm>, call: AppCall) -> (Pass<Cdm>, bool)
    requires { IsOf shared.now pass }
    ensures { IsOf shared.now result.0 × (parts result.0 ≡ parts pass) }
{
    let (pass, made) = shared.call(rt, pass, 1, 2, call);
    (pass, made.is_ok())
}

/// A feed without a fragment; answers whether it was made.
pub fn feed_nothing<R: Wait>(rt: &R, shared: &SharedCdm, pass: Pass<Cdm>) -> (Pass<Cdm>, bool)
    requires of { IsOf shared.now pass }
    requires first { 0 < first_of pass }
    ensures { IsOf shared.now result.0 × (parts result.0 ≡ parts pass) }
{
    let (pass, fed) = shared.feed(rt, pass, 3, None);
    (pass, fed.is_ok())
}

/// The label of that session.
pub fn label(alloc: Global) -> Result<Bytes, AllocError> {
    Bytes::from_slice(alloc, b"a")
}

/// An eviction of the label by line 4; answers whether it ended a session, where memory was there.
pub fn evict<R: Wait>(
    rt: &R,
    shared: &SharedCdm,
    pass: Pass<Cdm>,
    label: Bytes,
) -> (Pass<Cdm>, Option<bool>)
    requires { IsOf shared.now pass }
    ensures { IsOf shared.now result.0 × (parts result.0 ≡ parts pass) }
{
    let (pass, evicted) = shared.evict(rt, pass, 4, label);
    (pass, evicted.ok())
}

/// The front job.
pub fn job<R: Wait>(
    rt: &R,
    shared: &SharedCdm,
    pass: Pass<Cdm>,
) -> (Pass<Cdm>, Result<(), StepFault>)
    requires { IsOf shared.now pass }
    ensures { IsOf shared.now result.0 × (parts result.0 ≡ parts pass) }
{
    shared.job(rt, pass)
}

/// How many entries the core has that the pass looks at.
pub fn entries_seen<R: Wait>(rt: &R, shared: &SharedCdm, pass: Pass<Cdm>) -> (Pass<Cdm>, usize)
    requires { IsOf shared.now pass }
    ensures of { IsOf shared.now result.0 × (parts result.0 ≡ parts pass) }
    ensures own { own result.0 ≡ own pass }
    ensures seen { result.1 ≡ length (seen result.0) }
{
    shared.look(
        rt,
        pass,
        |cdm: &Cdm| -> usize
            ensures { result ≡ length cdm.now.history }
        { cdm.history().len() },
    )
}

/// A worker at the desk; answers whether it has ended because the desk is over.
pub fn works<R: Wait>(
    rt: &R,
    alloc: Global,
    shared: &SharedCdm,
    pass: Pass<Cdm>,
) -> (Pass<Cdm>, bool)
    requires { IsOf shared.now pass }
    ensures { IsOf shared.now result.0 × (parts result.0 ≡ parts pass) }
{
    let (pass, end) = work(rt, alloc, shared, &FreeGate, 1, pass);
    (pass, matches!(end, WorkEnd::Over(_)))
}

/// A hundred certificate calls of a lane, with the lines 1 to 100; answers whether all were made.
fn certificates<R: Wait>(
    rt: &R,
    alloc: Global,
    shared: &SharedCdm,
    mut pass: Pass<Cdm>,
    lane: u8,
) -> (Pass<Cdm>, bool)
    requires { IsOf shared.now pass }
    ensures { IsOf shared.now result.0 × (parts result.0 ≡ parts pass) }
{
    for line in 1..101u32 {
        let call = AppCall::Certificate {
            cert: Bytes::new(alloc),
        };
        let (next, made) = shared.call(rt, pass, lane, line, call);
        pass = next;
        if made.is_err() {
            return (pass, false);
        }
    }
    (pass, true)
}

/// Two threads make a hundred certificate calls each, on the lanes 1 and 2.
pub fn two_threads<R: Threads + Wait + Sync>(
    rt: &R,
    alloc: Global,
    shared: &SharedCdm,
    one: Pass<Cdm>,
    two: Pass<Cdm>,
) -> (Pass<Cdm>, Pass<Cdm>, bool)
    requires { IsOf shared.now one × IsOf shared.now two }
    ensures one { IsOf shared.now result.0 × (parts result.0 ≡ parts one) }
    ensures two { IsOf shared.now result.1 × (parts result.1 ≡ parts two) }
{
    let ((one, first), (two, second)) = join(
        rt,
        || -> (Pass<Cdm>, bool)
            requires { IsOf shared.now one }
            ensures { IsOf shared.entry.now result.0 × (parts result.0 ≡ parts one) }
        { certificates(rt, alloc, shared, one, 1) },
        || -> (Pass<Cdm>, bool)
            requires { IsOf shared.now two }
            ensures { IsOf shared.entry.now result.0 × (parts result.0 ≡ parts two) }
        { certificates(rt, alloc, shared, two, 2) },
    );
    (one, two, first && second)
}
