//! The key tables of sessions, their statuses, and how the key of a sample is picked.
#![tactic(auto)]

mod index;
#[cfg(test)]
mod index_tests;
mod law;
mod pick;
mod report;
mod table;
#[cfg(test)]
mod tests;

pub use index::KeyIndex;
pub use law::changes_are_told;
pub use pick::{Pick, Picks};
pub use report::{held_status, same_statuses, same_table, statuses_of, usable_at};
pub use table::{KeyTable, KnownKey};
