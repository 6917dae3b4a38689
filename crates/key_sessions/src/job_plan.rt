// What a job will do, with all memory that it takes.
ghost use Rattle.std.specs.Prelude.{◌≡◌, map, length, Some, Ok, IfOk};
ghost use Rattle.clearkey_json.specs.KeySet.{key_set as set_of};
ghost use Rattle.init_data.specs.InitData.{kids_of as kids_in};
ghost use Rattle.task_queue.specs.declared.work.Task.TheVariants.{Reject};
ghost use Rattle.key_statuses.specs.Table.{grant_all};
ghost use Rattle.key_statuses.specs.Statuses.{is_changed};
ghost use Rattle.key_sessions.specs.SessionOf.{session_of};
ghost use Rattle.key_sessions.specs.Machine.{Machine, session_at};
ghost use Rattle.key_sessions.specs.Steps.{queue_task};
ghost use Rattle.key_sessions.specs.Jobs.{request_job, update_job, work_job, job_session, job_promise};
ghost use Rattle.key_sessions.specs.Plans.{IsJobPlan, job_done};
ghost use Rattle.key_sessions.specs.Queued.{IsNumber, IsJobOf};

use crate::change::Change;
use crate::session::{Session, numbered};
use clearkey_json::{KeySet, KeySetFault, read_key_set};
use eme_types::{Bytes, Copies, DomError, InitKind, KeyBytes, KeyId, MAX_SESSION_KIDS, Status};
use init_data::{InitFault, kids_of};
use key_statuses::{KeyTable, KnownKey, held_status, same_statuses, same_table, statuses_of};
use std::alloc::{AllocError, Global};
use task_queue::{Job, Task};

/// What a job does: a change of one session, if any, and the task that it queues.
#[derive(Drop)]
pub struct JobPlan {
    pub session: u32,
    pub change: Option<Change>,
    pub task: Task,
}

fn refuse(promise: u64, error: DomError) -> JobPlan
    ensures { (m : Machine) → job_done result m ≡ queue_task (Reject promise error) m }
{
    JobPlan {
        session: 0,
        change: None,
        task: Task::Reject { promise, error },
    }
}

fn plan_request(
    alloc: Global,
    session: u32,
    kind: InitKind,
    init: &Bytes,
    promise: u64,
) -> Result<JobPlan, AllocError>
    ensures { IfOk result (λ plan. (m : Machine) → job_done plan m ≡ request_job session promise (kids_in kind init.now) m) }
{
    match kids_of(alloc, kind, init.as_slice()) {
        Ok(kids) => Ok(JobPlan {
            session: 0,
            change: None,
            task: Task::RequestDone {
                session,
                kids,
                promise,
            },
        }),
        Err(InitFault::Invalid) => Ok(refuse(promise, DomError::TypeFault)),
        Err(InitFault::NoKids) => Ok(refuse(promise, DomError::NotSupported)),
        Err(InitFault::OutOfMemory) => Err(AllocError),
    }
}

/// The table with the pairs granted in order.
fn granted(table: &KeyTable, pairs: &[(KeyId, KeyBytes)]) -> Result<KeyTable, AllocError>
    ensures { IfOk result (λ t. t.keys ≡ grant_all table.now.keys pairs.now) }
{
    let mut granted = table.copy()?;
    for pair in pairs {
        granted.grant(pair.0.copy()?, pair.1)?;
    }
    Ok(granted)
}

/// Whether a table or its statuses differ; each status is that of the table's held keys.
fn changed(
    alloc: Global,
    old: &[KnownKey],
    before: Status,
    new: &[KnownKey],
    after: Status,
) -> Result<bool, AllocError>
    ensures { IfOk result (λ b. b ≡ is_changed old.now before new.now after) }
{
    if !same_table(old, new) {
        return Ok(true);
    }
    let was = statuses_of(alloc, old, before)?;
    let is = statuses_of(alloc, new, after)?;
    Ok(!same_statuses(was.as_slice(), is.as_slice()))
}

fn plan_grant(
    alloc: Global,
    number: u32,
    session: &Session,
    set: &KeySet,
    promise: u64,
    moment: u64,
) -> Result<JobPlan, AllocError>
    ensures { IfOk result (λ plan. (m : Machine) → session_at m.sessions number ≡ Some (session_of session.now) → m.moment ≡ moment → job_done plan m ≡ update_job number promise (Ok set.now) m) }
{
    let table = granted(&session.keys, set.keys.as_slice())?;
    if table.len() > MAX_SESSION_KIDS {
        return Ok(refuse(promise, DomError::Quota));
    }
    let changed = changed(
        alloc,
        session.keys.as_slice(),
        held_status(session.start, session.expiration, moment),
        table.as_slice(),
        held_status(set.from, set.expires, moment),
    )?;
    Ok(JobPlan {
        session: number,
        change: Some(Change::Keys {
            table,
            start: set.from,
            expiration: set.expires,
        }),
        task: Task::UpdateDone {
            session: number,
            changed,
            promise,
        },
    })
}

fn plan_update(
    alloc: Global,
    number: u32,
    response: &Bytes,
    promise: u64,
    sessions: &[Session],
    moment: u64,
) -> Result<JobPlan, AllocError>
    requires { IsNumber (length sessions.now) number }
    ensures { IfOk result (λ plan. (m : Machine) → m.sessions ≡ map session_of sessions.now → m.moment ≡ moment → job_done plan m ≡ update_job number promise (set_of response.now) m) }
{
    let set = match read_key_set(alloc, response.as_slice()) {
        Ok(set) => set,
        Err(KeySetFault::OutOfMemory) => return Err(AllocError),
        Err(_) => return Ok(refuse(promise, DomError::TypeFault)),
    };
    let session = numbered(sessions, number);
    plan_grant(alloc, number, session, &set, promise, moment)
}

/// What a job of a session that was not evicted will do.
fn plan_work(
    alloc: Global,
    job: &Job,
    sessions: &[Session],
    moment: u64,
) -> Result<JobPlan, AllocError>
    requires { IsJobOf (length sessions.now) job.now }
    ensures { IfOk result (λ plan. (m : Machine) → m.sessions ≡ map session_of sessions.now → m.moment ≡ moment → job_done plan m ≡ work_job job.now m) }
{
    match job {
        Job::Request {
            session,
            kind,
            init,
            promise,
        } => plan_request(alloc, *session, *kind, init, *promise),
        Job::Update {
            session,
            response,
            promise,
        } => plan_update(alloc, *session, response, *promise, sessions, moment),
        Job::Close { session, promise } => Ok(JobPlan {
            session: *session,
            change: Some(Change::Keys {
                table: KeyTable::new(alloc),
                start: None,
                expiration: None,
            }),
            task: Task::CloseDone {
                session: *session,
                promise: *promise,
            },
        }),
        Job::Remove { session, promise } => Ok(JobPlan {
            session: *session,
            change: Some(Change::Released),
            task: Task::RemoveDone {
                session: *session,
                promise: *promise,
            },
        }),
    }
}

/// The session that a job was queued for.
fn session_of_job(job: &Job) -> u32
    ensures { result ≡ job_session job.now }
{
    match job {
        Job::Request { session, .. } => *session,
        Job::Update { session, .. } => *session,
        Job::Close { session, .. } => *session,
        Job::Remove { session, .. } => *session,
    }
}

/// The promise that a job answers.
fn promise_of_job(job: &Job) -> u64
    ensures { result ≡ job_promise job.now }
{
    match job {
        Job::Request { promise, .. } => *promise,
        Job::Update { promise, .. } => *promise,
        Job::Close { promise, .. } => *promise,
        Job::Remove { promise, .. } => *promise,
    }
}

/// What a job will do; that of an evicted session is refused.
pub fn plan_job(
    alloc: Global,
    job: &Job,
    sessions: &[Session],
    moment: u64,
) -> Result<JobPlan, AllocError>
    requires { IsJobOf (length sessions.now) job.now }
    ensures { IfOk result (IsJobPlan job.now (map session_of sessions.now) moment) }
{
    if numbered(sessions, session_of_job(job)).evicted {
        return Ok(refuse(promise_of_job(job), DomError::InvalidState));
    }
    plan_work(alloc, job, sessions, moment)
}
