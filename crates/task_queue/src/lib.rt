//! Jobs, tasks and promises: queues and lists whose room is reserved before it is needed.
#![tactic(auto)]

mod log;
mod promises;
mod queue;
#[cfg(test)]
mod tests;
mod work;

pub use log::Log;
pub use promises::Promises;
pub use queue::Queue;
pub use work::{Job, Task};
