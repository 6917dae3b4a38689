//! A licence responder of Clear Key: a table of keys, and its answers to licence requests.
#![tactic(auto)]

mod answers;
mod desk;
mod fault;
mod licence;
mod limits;
mod read;
mod request;
mod terms;
#[cfg(test)]
mod tests;
mod words;

pub use answers::answer;
pub use desk::KeyDesk;
pub use fault::{AnswerFault, DeskFault, DeskKind};
pub use limits::{MAX_DESK_BYTES, MAX_REQUEST_BYTES};
pub use read::read_desk;
pub use terms::Terms;
