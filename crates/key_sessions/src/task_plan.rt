// What a task will do, and what the time does, with all memory that it takes.
ghost use Rattle.std.specs.Prelude.{◌≡◌, ◌+◌, ◌<◌, ◌≤◌, [], ◌∷◌, length, map, Some, None, IfOk, count_by, is_some};
ghost use Rattle.eme_types.specs.declared.limits.TheConstants.{MAX_SESSIONS};
ghost use Rattle.eme_types.specs.declared.call.Settled.TheVariants.{Resolved};
ghost use Rattle.eme_types.specs.declared.call.Event.TheVariants.{KeyStatuses};
ghost use Rattle.eme_types.specs.declared.call.Reason.TheVariants.{ClosedByApplication};
ghost use Rattle.task_queue.specs.declared.work.Task.TheVariants.{Report, Fire, Resume};
ghost use Rattle.key_sessions.specs.SessionOf.{session_of};
ghost use Rattle.key_sessions.specs.Machine.{Machine, session_at};
ghost use Rattle.key_sessions.specs.Steps.{unmoved, settle, fire, update_statuses, close_session};
ghost use Rattle.key_sessions.specs.Tasks.{run_task, request_done, is_reported, reports_from};
ghost use Rattle.key_sessions.specs.Plans.{IsTaskPlan, task_done, settled_of};
ghost use Rattle.key_sessions.specs.Queued.{IsNumber, IsTaskOf};

use crate::change::Change;
use crate::session::{Session, find_number, numbered};
use clearkey_json::request_text;
use eme_types::{Copies, Effect, Effects, Event, Kids, Reason, Settled};
use key_statuses::same_statuses;
use std::alloc::{AllocError, Global};
use task_queue::Task;

/// What a task does.
#[derive(Drop)]
pub struct TaskPlan {
    pub session: u32,
    pub change: Option<Change>,
    pub queued: Vec<Task>,
    pub settled: Option<(u64, Settled)>,
    pub fired: Option<Event>,
    pub effects: Effects,
}

fn plan_nothing(alloc: Global) -> TaskPlan
    ensures plan { (m : Machine) → task_done result m ≡ unmoved m }
    ensures settles { result.settled ≡ None }
{
    TaskPlan {
        session: 0,
        change: None,
        queued: Vec::new(alloc),
        settled: None,
        fired: None,
        effects: Effects::new(alloc),
    }
}

fn plan_settle(alloc: Global, promise: u64, how: Settled) -> Result<TaskPlan, AllocError>
    ensures plan { IfOk result (λ plan. (m : Machine) → task_done plan m ≡ settle promise how (unmoved m)) }
    ensures settles { IfOk result (λ plan. plan.settled ≡ Some (promise, how)) }
{
    let mut effects = Effects::new(alloc);
    effects.push(Effect::Promise {
        promise,
        how: how.copy()?,
    })?;
    Ok(TaskPlan {
        session: 0,
        change: None,
        queued: Vec::new(alloc),
        settled: Some((promise, how)),
        fired: None,
        effects,
    })
}

fn plan_fire(alloc: Global, event: &Event) -> Result<TaskPlan, AllocError>
    ensures plan { IfOk result (λ plan. (m : Machine) → task_done plan m ≡ fire event.now (unmoved m)) }
    ensures settles { IfOk result (λ plan. plan.settled ≡ None) }
{
    let mut effects = Effects::new(alloc);
    effects.push(Effect::Fired {
        event: event.copy()?,
    })?;
    Ok(TaskPlan {
        session: 0,
        change: None,
        queued: Vec::new(alloc),
        settled: None,
        fired: Some(event.copy()?),
        effects,
    })
}

/// The id after those that were given.
fn free_id(sessions: &[Session]) -> u32
    requires { length sessions.now ≤ MAX_SESSIONS }
    ensures { result ≡ count_by (λ s. is_some s.id) (map session_of sessions.now) + 1 }
{
    sessions.iter().filter(|s| s.id.is_some()).count() as u32 + 1
}

fn plan_start(
    alloc: Global,
    sessions: &[Session],
    session: u32,
    kids: &Kids,
    promise: u64,
) -> Result<TaskPlan, AllocError>
    requires few { length sessions.now ≤ MAX_SESSIONS }
    requires some { 0 < length kids.now }
    ensures plan { IfOk result (λ plan. (m : Machine) → m.sessions ≡ map session_of sessions.now → task_done plan m ≡ settle promise Resolved (unmoved (request_done session kids.now m))) }
    ensures settles { IfOk result (λ plan. plan.settled ≡ Some (promise, Resolved)) }
{
    let id = free_id(sessions);
    let text = request_text(alloc, kids)?;
    let mut queued = Vec::new(alloc);
    queued.push(Task::Fire {
        event: Event::Message { session, id, text },
    })?;
    let mut effects = Effects::new(alloc);
    effects.push(Effect::Promise {
        promise,
        how: Settled::Resolved,
    })?;
    Ok(TaskPlan {
        session,
        change: Some(Change::Callable { id }),
        queued,
        settled: Some((promise, Settled::Resolved)),
        fired: None,
        effects,
    })
}

/// The tasks that a report of statuses queues.
fn report_tasks(alloc: Global, session: u32) -> Result<Vec<Task>, AllocError>
    ensures { IfOk result (λ tasks. tasks.items ≡ Fire (KeyStatuses session) ∷ Resume ∷ []) }
{
    let mut queued = Vec::new(alloc);
    queued.push(Task::Fire {
        event: Event::KeyStatuses { session },
    })?;
    queued.push(Task::Resume)?;
    Ok(queued)
}

/// The report of a session's statuses.
fn plan_report(
    alloc: Global,
    session: &Session,
    number: u32,
    moment: u64,
) -> Result<TaskPlan, AllocError>
    ensures plan { IfOk result (λ plan. (m : Machine) → session_at m.sessions number ≡ Some (session_of session.now) → m.moment ≡ moment → task_done plan m ≡ update_statuses number (unmoved m)) }
    ensures settles { IfOk result (λ plan. plan.settled ≡ None) }
{
    let list = session
        .keys
        .statuses(session.start, session.expiration, moment)?;
    let told = list.copy()?;
    let mut effects = Effects::new(alloc);
    effects.push(Effect::Statuses {
        session: number,
        list: told,
    })?;
    Ok(TaskPlan {
        session: number,
        change: Some(Change::Reported { list }),
        queued: report_tasks(alloc, number)?,
        settled: None,
        fired: None,
        effects,
    })
}

/// The report of a session's statuses, and the promise that it answers is resolved.
fn plan_done(
    alloc: Global,
    sessions: &[Session],
    number: u32,
    promise: u64,
    moment: u64,
) -> Result<TaskPlan, AllocError>
    requires { IsNumber (length sessions.now) number }
    ensures plan { IfOk result (λ plan. (m : Machine) → m.sessions ≡ map session_of sessions.now → m.moment ≡ moment → task_done plan m ≡ settle promise Resolved (update_statuses number (unmoved m))) }
    ensures settles { IfOk result (λ plan. plan.settled ≡ Some (promise, Resolved)) }
{
    let session = numbered(sessions, number);
    let mut plan = plan_report(alloc, session, number, moment)?;
    plan.effects.push(Effect::Promise {
        promise,
        how: Settled::Resolved,
    })?;
    plan.settled = Some((promise, Settled::Resolved));
    Ok(plan)
}

/// The last report of a session, which is then closed for the reason.
fn plan_end(
    alloc: Global,
    sessions: &[Session],
    number: u32,
    reason: Reason,
    moment: u64,
) -> Result<TaskPlan, AllocError>
    requires { IsNumber (length sessions.now) number }
    ensures plan { IfOk result (λ plan. (m : Machine) → m.sessions ≡ map session_of sessions.now → m.moment ≡ moment → task_done plan m ≡ close_session number reason (update_statuses number (unmoved m))) }
    ensures settles { IfOk result (λ plan. plan.settled ≡ None) }
{
    let session = numbered(sessions, number);
    let list = session
        .keys
        .statuses(session.start, session.expiration, moment)?;
    let told = list.copy()?;
    let mut effects = Effects::new(alloc);
    effects.push(Effect::Statuses {
        session: number,
        list: told,
    })?;
    effects.push(Effect::Closed {
        session: number,
        reason,
    })?;
    Ok(TaskPlan {
        session: number,
        change: Some(Change::Closed { list, reason }),
        queued: report_tasks(alloc, number)?,
        settled: None,
        fired: None,
        effects,
    })
}

/// The last report of a session that the application closes, and the promise that it answers is resolved.
fn plan_close(
    alloc: Global,
    sessions: &[Session],
    number: u32,
    promise: u64,
    moment: u64,
) -> Result<TaskPlan, AllocError>
    requires { IsNumber (length sessions.now) number }
    ensures plan { IfOk result (λ plan. (m : Machine) → m.sessions ≡ map session_of sessions.now → m.moment ≡ moment → task_done plan m ≡ settle promise Resolved (close_session number ClosedByApplication (update_statuses number (unmoved m)))) }
    ensures settles { IfOk result (λ plan. plan.settled ≡ Some (promise, Resolved)) }
{
    let mut plan = plan_end(alloc, sessions, number, Reason::ClosedByApplication, moment)?;
    plan.effects.push(Effect::Promise {
        promise,
        how: Settled::Resolved,
    })?;
    plan.settled = Some((promise, Settled::Resolved));
    Ok(plan)
}

/// The report of a session's statuses, unless it is closed.
fn plan_later(
    alloc: Global,
    sessions: &[Session],
    number: u32,
    moment: u64,
) -> Result<TaskPlan, AllocError>
    ensures plan { IfOk result (λ plan. (m : Machine) → m.sessions ≡ map session_of sessions.now → m.moment ≡ moment → task_done plan m ≡ run_task (Report number) m) }
    ensures settles { IfOk result (λ plan. plan.settled ≡ None) }
{
    match find_number(sessions, number) {
        None => Ok(plan_nothing(alloc)),
        Some(session) => {
            if session.closed {
                return Ok(plan_nothing(alloc));
            }
            plan_report(alloc, session, number, moment)
        }
    }
}

/// What a task will do.
pub fn plan_task(
    alloc: Global,
    task: &Task,
    sessions: &[Session],
    moment: u64,
) -> Result<TaskPlan, AllocError>
    requires few { length sessions.now ≤ MAX_SESSIONS }
    requires there { IsTaskOf (length sessions.now) task.now }
    ensures plan { IfOk result (IsTaskPlan task.now (map session_of sessions.now) moment) }
    ensures settles { IfOk result (λ plan. plan.settled ≡ settled_of task.now) }
{
    match task {
        Task::Reject { promise, error } => plan_settle(alloc, *promise, Settled::Rejected(*error)),
        Task::RequestDone {
            session,
            kids,
            promise,
        } => plan_start(alloc, sessions, *session, kids, *promise),
        Task::UpdateDone {
            session,
            changed,
            promise,
        } => {
            if *changed {
                plan_done(alloc, sessions, *session, *promise, moment)
            } else {
                plan_settle(alloc, *promise, Settled::Resolved)
            }
        }
        Task::CloseDone { session, promise } => {
            plan_close(alloc, sessions, *session, *promise, moment)
        }
        Task::RemoveDone { session, promise } => {
            plan_done(alloc, sessions, *session, *promise, moment)
        }
        Task::Evicted { session } => {
            plan_end(alloc, sessions, *session, Reason::ResourceEvicted, moment)
        }
        Task::Report { session } => plan_later(alloc, sessions, *session, moment),
        Task::Fire { event } => plan_fire(alloc, event),
        Task::Resume => Ok(plan_nothing(alloc)),
    }
}

/// Whether a session is to report its statuses after the moment changed.
fn reports(session: &Session, before: u64, after: u64) -> Result<bool, AllocError>
    ensures { IfOk result (λ b. b ≡ is_reported before after (session_of session.now)) }
{
    if session.closed {
        return Ok(false);
    }
    let was = session
        .keys
        .statuses(session.start, session.expiration, before)?;
    let is = session
        .keys
        .statuses(session.start, session.expiration, after)?;
    Ok(!same_statuses(was.as_slice(), is.as_slice()))
}

/// The reports that a change of the moment queues.
pub fn plan_tick(
    alloc: Global,
    sessions: &[Session],
    before: u64,
    after: u64,
) -> Result<Vec<Task>, AllocError>
    requires { length sessions.now ≤ MAX_SESSIONS }
    ensures { IfOk result (λ tasks. tasks.items ≡ reports_from before after 1 (map session_of sessions.now)) }
{
    let mut tasks = Vec::new(alloc);
    let mut number = 1;
    for session in sessions {
        if reports(session, before, after)? {
            tasks.push(Task::Report { session: number })?;
        }
        number += 1;
    }
    Ok(tasks)
}
