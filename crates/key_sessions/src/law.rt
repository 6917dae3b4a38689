// Laws of the steps, for the layers above.
ghost use Rattle.key_sessions.specs.Law.{CallsAsk, JobsHandOn, TasksSettle, TicksKeep, EvictionsKeep, RejectionsLeave};

/// A call makes one promise, which it settles or leaves to a job; every other step settles just the promises that were
/// pending before it and are not after it; and each pending promise stays owed by one queued job or task.
pub fn promises_are_owed_until_they_are_settled()
    ensures calls { CallsAsk }
    ensures jobs { JobsHandOn }
    ensures tasks { TasksSettle }
    ensures ticks { TicksKeep }
    ensures evictions { EvictionsKeep }
{}

/// A call that is rejected in its own entry leaves its promise, settled, and nothing else, but that a request past its
/// first two checks has ended uninitialized.
pub fn a_rejected_call_leaves_its_promise_alone()
    ensures { RejectionsLeave }
{}
