//! The algorithms of sessions: what each call, job and task does, and what the time does.
#![tactic(auto)]

mod access;
mod call_plan;
mod change;
mod ended;
mod fault;
mod holders;
mod indexed;
mod job_plan;
mod law;
mod losses;
mod lost;
mod session;
mod sessions;
mod step;
mod task_plan;
#[cfg(test)]
mod tests;

pub use fault::StepFault;
pub use law::{a_rejected_call_leaves_its_promise_alone, promises_are_owed_until_they_are_settled};
pub use lost::Lost;
pub use sessions::Sessions;
pub use step::Step;
