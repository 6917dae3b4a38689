//! A ticket lock over a table of words, whose passes remember what they have seen.
#![tactic(auto)]

mod book;
mod door;
mod hold;
mod lock;
mod pass;
mod rule;
mod view;

pub use book::Book;
pub use hold::Hold;
pub use lock::{BookLock, CloseBack, NewBack};
pub use pass::Pass;

#[cfg(test)]
mod tests;
