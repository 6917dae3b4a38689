// What a call of the application will do, with all memory that it takes.
ghost use Rattle.std.specs.Prelude.{◌≡◌, ◌≤◌, ◌<◌, map, length, Some, IfOk, vec_len, vec_capacity};
ghost use Rattle.eme_types.specs.declared.limits.TheConstants.{MAX_SESSIONS};
ghost use Rattle.key_sessions.specs.SessionOf.{session_of};
ghost use Rattle.key_sessions.specs.Machine.{Machine};
ghost use Rattle.key_sessions.specs.Calls.{next_promise, answer_now, reject_now, access_call, create_call, request_kind as kind_of, request_started, request_on, update_on, close_on, remove_on};
ghost use Rattle.key_sessions.specs.Plans.{IsCallPlan, call_done, answered, told, created_in, promises_by, jobs_by};
ghost use Rattle.task_queue.specs.Pending.{IsPending};

use crate::access::negotiate;
use crate::change::Change;
use crate::session::{Session, ends, find_label, labelled, state_fault, update_fault};
use eme_types::{
    AppCall, Bytes, Copies, DomError, Effect, Effects, InitKind, MAX_SESSIONS, Settled,
};
use std::alloc::{AllocError, Global};
use task_queue::{Job, Promises, Queue};

/// What a call does: the session that it creates, the change of one session, and how its promise is answered.
#[derive(Drop)]
pub struct CallPlan {
    pub created: Option<Session>,
    pub session: u32,
    pub change: Option<Change>,
    pub answer: Answer,
}

/// How the promise of a call is answered.
#[derive(Drop)]
pub enum Answer {
    /// It is settled at once.
    Now(Settled),
    /// It waits for a job.
    Later(Job),
}

fn settle_now(how: Settled) -> CallPlan
    ensures { (m : Machine) → call_done result m ≡ answer_now how m }
{
    CallPlan {
        created: None,
        session: 0,
        change: None,
        answer: Answer::Now(how),
    }
}

fn reject(error: DomError) -> CallPlan
    ensures { (m : Machine) → call_done result m ≡ reject_now error m }
{
    settle_now(Settled::Rejected(error))
}

fn ask_access(alloc: Global, name: &[u8], list: &[u8]) -> Result<CallPlan, AllocError>
    ensures { IfOk result (λ plan. (m : Machine) → call_done plan m ≡ access_call name.now list.now m) }
{
    let how = negotiate(alloc, name, list)?;
    Ok(settle_now(how))
}

fn ask_create(
    alloc: Global,
    label: &Bytes,
    kind: &[u8],
    sessions: &[Session],
) -> Result<CallPlan, AllocError>
    ensures { IfOk result (λ plan. (m : Machine) → m.sessions ≡ map session_of sessions.now → call_done plan m ≡ create_call label.now kind.now m) }
{
    if kind != b"temporary".as_slice() {
        return Ok(reject(DomError::NotSupported));
    }
    if sessions.len() >= MAX_SESSIONS {
        return Ok(reject(DomError::Quota));
    }
    let session = labelled(alloc, label)?;
    Ok(CallPlan {
        created: Some(session),
        session: 0,
        change: None,
        answer: Answer::Now(Settled::Resolved),
    })
}

/// The type of a request's data, or why the request is refused.
fn request_kind(kind: &[u8], init: &[u8]) -> Result<InitKind, DomError>
    ensures { result ≡ kind_of kind.now init.now }
{
    if kind.is_empty() {
        return Err(DomError::TypeFault);
    }
    if init.is_empty() {
        return Err(DomError::TypeFault);
    }
    if kind == b"cenc".as_slice() {
        return Ok(InitKind::Cenc);
    }
    if kind == b"keyids".as_slice() {
        return Ok(InitKind::Keyids);
    }
    Err(DomError::NotSupported)
}

/// How a request is answered that has ended `uninitialized`.
fn start_request(
    session: u32,
    kind: &[u8],
    init: &Bytes,
    promise: u64,
) -> Result<Answer, AllocError>
    ensures { IfOk result (λ a. (m : Machine) → next_promise m ≡ promise → answered a m ≡ request_started session init.now (kind_of kind.now init.now) m) }
{
    match request_kind(kind, init.as_slice()) {
        Err(error) => Ok(Answer::Now(Settled::Rejected(error))),
        Ok(kind) => Ok(Answer::Later(Job::Request {
            session,
            kind,
            init: init.copy()?,
            promise,
        })),
    }
}

fn ask_request(
    number: u32,
    session: &Session,
    kind: &[u8],
    init: &Bytes,
    promise: u64,
) -> Result<CallPlan, AllocError>
    ensures { IfOk result (λ plan. (m : Machine) → next_promise m ≡ promise → call_done plan m ≡ request_on kind.now init.now m (Some (number, session_of session.now))) }
{
    if ends(session) {
        return Ok(reject(DomError::InvalidState));
    }
    if !session.uninitialized {
        return Ok(reject(DomError::InvalidState));
    }
    let answer = start_request(number, kind, init, promise)?;
    Ok(CallPlan {
        created: None,
        session: number,
        change: Some(Change::Started),
        answer,
    })
}

fn ask_update(
    number: u32,
    session: &Session,
    response: &Bytes,
    promise: u64,
) -> Result<CallPlan, AllocError>
    ensures { IfOk result (λ plan. (m : Machine) → next_promise m ≡ promise → call_done plan m ≡ update_on response.now m (Some (number, session_of session.now))) }
{
    if let Some(error) = update_fault(session, response.as_slice()) {
        return Ok(reject(error));
    }
    let response = response.copy()?;
    Ok(CallPlan {
        created: None,
        session: number,
        change: None,
        answer: Answer::Later(Job::Update {
            session: number,
            response,
            promise,
        }),
    })
}

fn ask_close(number: u32, session: &Session, promise: u64) -> CallPlan
    ensures { (m : Machine) → next_promise m ≡ promise → call_done result m ≡ close_on m (Some (number, session_of session.now)) }
{
    if ends(session) {
        return settle_now(Settled::Resolved);
    }
    if !session.callable {
        return reject(DomError::InvalidState);
    }
    CallPlan {
        created: None,
        session: number,
        change: Some(Change::Closing),
        answer: Answer::Later(Job::Close {
            session: number,
            promise,
        }),
    }
}

fn ask_remove(number: u32, session: &Session, promise: u64) -> CallPlan
    ensures { (m : Machine) → next_promise m ≡ promise → call_done result m ≡ remove_on m (Some (number, session_of session.now)) }
{
    if let Some(error) = state_fault(session) {
        return reject(error);
    }
    CallPlan {
        created: None,
        session: number,
        change: None,
        answer: Answer::Later(Job::Remove {
            session: number,
            promise,
        }),
    }
}

/// What a call will do; `promise` is the number of the promise that it makes.
pub fn plan_call(
    alloc: Global,
    call: &AppCall,
    sessions: &[Session],
    promise: u64,
) -> Result<CallPlan, AllocError>
    requires { length sessions.now ≤ MAX_SESSIONS }
    ensures { IfOk result (IsCallPlan call.now (map session_of sessions.now) promise) }
{
    match call {
        AppCall::Access { name, list } => ask_access(alloc, name.as_slice(), list.as_slice()),
        AppCall::Create { label, kind } => ask_create(alloc, label, kind.as_slice(), sessions),
        AppCall::Request { label, kind, init } => match find_label(sessions, label.as_slice()) {
            None => Ok(reject(DomError::UnknownLabel)),
            Some(at) => ask_request(at as u32 + 1, &sessions[at], kind.as_slice(), init, promise),
        },
        AppCall::Update { label, response } => match find_label(sessions, label.as_slice()) {
            None => Ok(reject(DomError::UnknownLabel)),
            Some(at) => ask_update(at as u32 + 1, &sessions[at], response, promise),
        },
        AppCall::Close { label } => match find_label(sessions, label.as_slice()) {
            None => Ok(reject(DomError::UnknownLabel)),
            Some(at) => Ok(ask_close(at as u32 + 1, &sessions[at], promise)),
        },
        AppCall::Remove { label } => match find_label(sessions, label.as_slice()) {
            None => Ok(reject(DomError::UnknownLabel)),
            Some(at) => Ok(ask_remove(at as u32 + 1, &sessions[at], promise)),
        },
        AppCall::Certificate { .. } => Ok(settle_now(Settled::ResolvedFalse)),
    }
}

/// What the application is told at once.
pub fn tell(alloc: Global, promise: u64, answer: &Answer) -> Result<Effects, AllocError>
    ensures { IfOk result (λ effects. effects ≡ told promise answer.now) }
{
    let mut effects = Effects::new(alloc);
    match answer {
        Answer::Now(how) => {
            let how = how.copy()?;
            effects.push(Effect::Promise { promise, how })?;
            Ok(effects)
        }
        Answer::Later(_) => Ok(effects),
    }
}

/// The created session is added.
pub fn add_session(sessions: &mut Vec<Session>, created: Option<Session>)
    requires { vec_len sessions.old < vec_capacity sessions.old }
    ensures { map session_of sessions.new.items ≡ created_in (map session_of sessions.old.items) created }
{
    match created {
        None => {}
        Some(session) => sessions.push_reserved(session),
    }
}

/// The promise is settled, or its job is queued.
pub fn give_answer(promises: &mut Promises, jobs: &mut Queue<Job>, promise: u64, answer: Answer)
    requires pending { IsPending promises.old promise }
    requires room { 0 < jobs.old.1 }
    ensures promises { promises.new ≡ promises_by promises.old promise answer }
    ensures jobs { jobs.new.0 ≡ jobs_by jobs.old.0 answer }
{
    match answer {
        Answer::Now(how) => promises.settle_once(promise, how),
        Answer::Later(job) => jobs.put(job),
    }
}
