// The sessions with their queues and promises.
ghost use Rattle.std.specs.Prelude.{◌≡◌, ◌≤◌, ◌<◌, ◌+◌, ◌-◌, [], map, length, Some, OnOk, OnErr, IsOk, IfOk, IsErrOf, IsTrue, ◌↔◌, ◌≢◌};
ghost use Rattle.std.specs.List.{list_any};
ghost use Rattle.eme_types.specs.declared.limits.TheConstants.{MAX_SESSIONS};
ghost use Rattle.task_queue.specs.declared.work.Task.TheVariants.{Fire};
ghost use Rattle.key_statuses.specs.Picked.{picked};
ghost use Rattle.key_sessions.specs.SessionsState.{SessionsState, HasStepped};
ghost use Rattle.key_sessions.specs.Machine.{empty_machine};
ghost use Rattle.key_sessions.specs.Keys.{pick, pick_from, holds_later as later_holds, is_later};
ghost use Rattle.key_sessions.specs.Agree.{Agree};
ghost use Rattle.key_sessions.specs.Holders.{holders as holders_in};
ghost use Rattle.key_sessions.specs.SessionOf.{session_of};
ghost use Rattle.key_sessions.specs.LostPair.{pair_of};
ghost use Rattle.key_sessions.specs.Owed.{IsOwed};
ghost use Rattle.key_sessions.specs.Queued.{AreThere};
ghost use Rattle.key_sessions.specs.World.{is_resume as resume_is, resumes};
ghost use Rattle.key_sessions.specs.Plans.{MaySettle, settled_by, fired_by};
ghost use Rattle.key_sessions.specs.Steps.{queue_task};
ghost use Rattle.key_sessions.specs.Calls.{next_promise, after_call};
ghost use Rattle.key_sessions.specs.Jobs.{after_job};
ghost use Rattle.key_sessions.specs.Evict.{after_evict, evicts};
ghost use Rattle.key_sessions.specs.Tasks.{after_task, after_tick};

use crate::call_plan::{CallPlan, add_session, give_answer, plan_call, tell};
use crate::change::{Change, change_session};
use crate::fault::StepFault;
use crate::holders::{all_hold_one_key, choose_of};
use crate::indexed::index_change;
use crate::job_plan::{JobPlan, plan_job};
use crate::losses::{lost_by, lost_in_time};
use crate::lost::Lost;
use crate::session::{Session, holds_later, open_session};
use crate::step::{Step, no_step};
use crate::task_plan::{TaskPlan, plan_task, plan_tick};
use eme_types::{AppCall, Effect, Effects, Event, KeyId, Settled};
use key_statuses::{KeyIndex, Pick, Picks};
use std::alloc::{AllocError, Global};
use std::marker::Model;
use task_queue::{Job, Log, Promises, Queue, Task};

/// The sessions with the index of their keys, the moment, both queues, the promises and the fired events; the last step; and the room that is kept for events.
#[derive(Drop)]
pub struct Sessions {
    alloc: Global,
    items: Vec<Session>,
    index: KeyIndex,
    jobs: Queue<Job>,
    tasks: Queue<Task>,
    promises: Promises,
    moment: u64,
    fired: Log<Event>,
    last: Step,
    room: usize,
}

impl Model for Sessions {
    ghost use Rattle.key_sessions.specs.SessionsState.{SessionsState};
    ghost use Rattle.key_sessions.specs.Kept.{state_of, Kept};

    ghost Value = { SessionsState };

    ghost view = { state_of };

    ghost invariant = { Kept };
}

impl Sessions {
    /// No session; moment 0.
    pub fn new(alloc: Global) -> Sessions
        ensures { result ≡ record { machine = empty_machine; effects = []; lost = []; room = 0 } }
    {
        Sessions {
            alloc,
            items: Vec::new(alloc),
            index: KeyIndex::new(alloc),
            jobs: Queue::new(alloc),
            tasks: Queue::new(alloc),
            promises: Promises::new(alloc),
            moment: 0,
            fired: Log::new(alloc),
            last: no_step(alloc),
            room: 0,
        }
    }

    /// Each pending promise stands in exactly one queued job or task, whose session is there, and there are at most 64 sessions.
    pub fn keeps(&self)
        ensures owed { IsOwed self.now.machine }
        ensures few { length self.now.machine.sessions ≤ MAX_SESSIONS }
        ensures there { AreThere self.now.machine }
    {
        let _ = &self.alloc;
    }

    /// A call of the application. It answers the number of the promise that it makes.
    pub fn call(&mut self, call: &AppCall) -> Result<u64, AllocError>
        ensures ok { OnOk result (HasStepped self.old self.new (after_call call.now self.old.machine)) }
        ensures number { IfOk result (λ p. p ≡ next_promise self.old.machine) }
        ensures err { OnErr result (self.new ≡ self.old) }
    {
        let promise = self.promises.next();
        let plan = plan_call(self.alloc, call, &self.items, promise)?;
        let effects = tell(self.alloc, promise, &plan.answer)?;
        self.items.reserve(1)?;
        self.jobs.reserve(1)?;
        self.promises.make()?;
        let CallPlan {
            created,
            session,
            change,
            answer,
        } = plan;
        add_session(&mut self.items, created);
        change_session(&mut self.items, session, change);
        give_answer(&mut self.promises, &mut self.jobs, promise, answer);
        self.last = Step {
            effects,
            lost: Vec::new(self.alloc),
        };
        Ok(promise)
    }

    /// The front job runs.
    pub fn job(&mut self) -> Result<(), StepFault>
        ensures ok { OnOk result (HasStepped self.old self.new (after_job self.old.machine)) }
        ensures err { OnErr result (self.new ≡ self.old) }
        ensures empty { IsErrOf result StepFault.Empty ↔ (self.old.machine.jobs ≡ []) }
    {
        let plan = match self.jobs.front() {
            None => return Err(StepFault::Empty),
            Some(job) => plan_job(self.alloc, job, &self.items, self.moment)?,
        };
        let lost = lost_by(
            self.alloc,
            &self.items,
            plan.session,
            &plan.change,
            self.moment,
        )?;
        let wanted = room_for(self.room, 1)?;
        self.tasks.reserve(wanted)?;
        index_change(
            self.alloc,
            &mut self.index,
            &self.items,
            plan.session,
            &plan.change,
        )?;
        self.jobs.drop_front();
        let JobPlan {
            session,
            change,
            task,
        } = plan;
        change_session(&mut self.items, session, change);
        self.tasks.put(task);
        self.last = Step {
            effects: Effects::new(self.alloc),
            lost,
        };
        Ok(())
    }

    /// The front task runs. It is told whether it was `Resume`.
    pub fn task(&mut self) -> Result<bool, StepFault>
        ensures ok { OnOk result (HasStepped self.old self.new (after_task self.old.machine)) }
        ensures resume { IfOk result (λ b. b ≡ resumes self.old.machine.tasks) }
        ensures err { OnErr result (self.new ≡ self.old) }
        ensures empty { IsErrOf result StepFault.Empty ↔ (self.old.machine.tasks ≡ []) }
    {
        let plan = match self.tasks.front() {
            None => return Err(StepFault::Empty),
            Some(task) => plan_task(self.alloc, task, &self.items, self.moment)?,
        };
        let resume = front_resumes(&self.tasks);
        let lost = lost_by(
            self.alloc,
            &self.items,
            plan.session,
            &plan.change,
            self.moment,
        )?;
        let wanted = room_for(self.room, plan.queued.len())?;
        self.fired.reserve(1)?;
        self.tasks.reserve(wanted)?;
        self.tasks.drop_front();
        let TaskPlan {
            session,
            change,
            queued,
            settled,
            fired,
            effects,
        } = plan;
        change_session(&mut self.items, session, change);
        self.tasks.put_all(queued);
        settle_promise(&mut self.promises, settled);
        fire_event(&mut self.fired, fired);
        self.last = Step { effects, lost };
        Ok(resume)
    }

    /// The moment, in milliseconds, is set.
    pub fn tick(&mut self, moment: u64) -> Result<(), AllocError>
        requires { self.old.machine.moment ≤ moment }
        ensures ok { OnOk result (HasStepped self.old self.new (after_tick moment self.old.machine)) }
        ensures err { OnErr result (self.new ≡ self.old) }
    {
        let reports = plan_tick(self.alloc, &self.items, self.moment, moment)?;
        let lost = lost_in_time(self.alloc, &self.items, self.moment, moment)?;
        let wanted = room_for(self.room, reports.len())?;
        self.tasks.reserve(wanted)?;
        self.tasks.put_all(reports);
        self.moment = moment;
        self.last = Step {
            effects: Effects::new(self.alloc),
            lost,
        };
        Ok(())
    }

    /// The CDM ends the session with the label, if it is neither closing nor closed. It is told whether it was.
    pub fn evict(&mut self, label: &[u8]) -> Result<bool, AllocError>
        ensures ok { OnOk result (HasStepped self.old self.new (after_evict label.now self.old.machine)) }
        ensures open { IfOk result (λ b. b ≡ evicts label.now self.old.machine) }
        ensures err { OnErr result (self.new ≡ self.old) }
    {
        let Some(session) = open_session(&self.items, label) else {
            self.last = no_step(self.alloc);
            return Ok(false);
        };
        let change = Some(Change::Evicted);
        let lost = lost_by(self.alloc, &self.items, session, &change, self.moment)?;
        let wanted = room_for(self.room, 1)?;
        self.tasks.reserve(wanted)?;
        index_change(self.alloc, &mut self.index, &self.items, session, &change)?;
        change_session(&mut self.items, session, change);
        self.tasks.put(Task::Evicted { session });
        self.last = Step {
            effects: Effects::new(self.alloc),
            lost,
        };
        Ok(true)
    }

    /// Whether a session that is not closed holds under an id a key that is usable later (Encrypted Media Extensions,
    /// MediaKeyStatus `usable-in-future`).
    pub fn later(&self, kid: &KeyId) -> bool
        ensures { result ≡ is_later self.now.machine kid.now }
    {
        any_later(&self.items, self.moment, kid)
    }

    /// The promises that calls made, in order of their numbers: how each was settled, or none while it is pending.
    pub fn promises(&self) -> &[Option<Settled>]
        ensures { result.now ≡ self.now.machine.promises }
    {
        self.promises.as_slice()
    }

    /// What the last step did that the application can see, in order of happening, until it is taken.
    pub fn effects(&self) -> &[Effect]
        ensures { result.now ≡ self.now.effects }
    {
        self.last.effects.as_slice()
    }

    /// Hands the effects of the last step out.
    pub fn take_effects(&mut self) -> Effects
        ensures effects { result ≡ self.old.effects }
        ensures rest { self.new ≡ record self.old { effects = [] } }
    {
        let none = Effects::new(self.alloc);
        std::mem::replace(&mut self.last.effects, none)
    }

    /// The sessions whose tables hold a key under an id, usable now or not, in ascending order.
    pub fn holders(&self, kid: &KeyId) -> &[u32]
        ensures { result.now ≡ holders_in self.now.machine kid.now }
    {
        self.index.holders(kid)
    }

    /// Whether no two sessions hold usable keys of one id that differ. It takes no memory.
    pub fn agree(&self) -> Result<bool, AllocError>
        ensures answers { IsOk result }
        ensures exact { IfOk result (λ yes. IsTrue yes ↔ Agree self.now.machine) }
    {
        Ok(all_hold_one_key(self.index.ids(), &self.index, &self.items, self.moment))
    }

    /// Hands the last step out: its effects and the keys that it ended.
    pub fn take_step(&mut self) -> Step
        ensures effects { result.effects ≡ self.old.effects }
        ensures lost { map pair_of result.lost.items ≡ self.old.lost }
        ensures rest { self.new ≡ record self.old { effects = []; lost = [] } }
    {
        let none = no_step(self.alloc);
        std::mem::replace(&mut self.last, none)
    }

    /// The keys that the last step ended, each once.
    pub fn lost(&self) -> &[Lost]
        ensures { map pair_of result.now ≡ self.now.lost }
    {
        self.last.lost.as_slice()
    }

    /// Makes the room for events at least `n`.
    pub fn reserve_events(&mut self, n: usize) -> Result<(), AllocError>
        ensures ok { OnOk result (n ≤ self.new.room) }
        ensures more { self.old.room ≤ self.new.room }
        ensures rest { self.new ≡ record self.old { room = self.new.room } }
        ensures err { OnErr result (self.new ≡ self.old) }
    {
        if n <= self.room {
            return Ok(());
        }
        self.tasks.reserve(n)?;
        self.room = n;
        Ok(())
    }

    /// Queues the firing of an event as the last task.
    pub fn queue_event(&mut self, event: Event)
        requires { 0 < self.old.room }
        ensures { self.new ≡ record self.old { machine = queue_task (Fire event) self.old.machine; room = self.old.room - 1 } }
    {
        self.tasks.put(Task::Fire { event });
        self.room -= 1;
    }

    /// Whether a job is queued.
    pub fn job_left(&self) -> bool
        ensures { IsTrue result ↔ (self.now.machine.jobs ≢ []) }
    {
        !self.jobs.is_empty()
    }

    /// Whether a task is queued.
    pub fn task_left(&self) -> bool
        ensures { IsTrue result ↔ (self.now.machine.tasks ≢ []) }
    {
        !self.tasks.is_empty()
    }
}

#[cfg(test)]
impl Sessions {
    /// The present moment.
    pub fn moment(&self) -> u64
        ensures { result ≡ self.now.machine.moment }
    {
        self.moment
    }
}

impl Picks for Sessions {
    ghost use Rattle.key_sessions.specs.Keys.{pick};

    ghost picks = { λ s. pick s.machine };

    fn choose(&self, kid: &KeyId) -> Option<Pick> {
        choose_of(&self.items, self.moment, self.index.holders(kid), kid)
    }
}

/// The room that is to be there before a step that queues `n` tasks.
fn room_for(room: usize, n: usize) -> Result<usize, AllocError>
    ensures { IfOk result (λ wanted. wanted ≡ room + n) }
{
    match room.checked_add(n) {
        None => Err(AllocError),
        Some(wanted) => Ok(wanted),
    }
}

fn settle_promise(promises: &mut Promises, settled: Option<(u64, Settled)>)
    requires { MaySettle promises.old settled }
    ensures { promises.new ≡ settled_by promises.old settled }
{
    match settled {
        None => {}
        Some((promise, how)) => promises.settle_once(promise, how),
    }
}

fn fire_event(events: &mut Log<Event>, fired: Option<Event>)
    requires { 0 < events.old.1 }
    ensures { events.new.0 ≡ fired_by events.old.0 fired }
{
    match fired {
        None => {}
        Some(event) => events.put(event),
    }
}

/// Whether the front task is `Resume`.
fn front_resumes(tasks: &Queue<Task>) -> bool
    ensures { result ≡ resumes tasks.now.0 }
{
    match tasks.front() {
        None => false,
        Some(task) => is_resume(task),
    }
}

fn is_resume(task: &Task) -> bool
    ensures { result ≡ resume_is task.now }
{
    match task {
        Task::Resume => true,
        _ => false,
    }
}

fn any_later(sessions: &[Session], moment: u64, kid: &KeyId) -> bool
    ensures { result ≡ list_any (λ s. later_holds moment kid.now (session_of s)) sessions.now }
{
    sessions
        .iter()
        .any(|session| holds_later(session, moment, kid))
}
