//! The script: the lines that a play takes, and their reader.
#![tactic(auto)]

mod actions;
mod content;
mod fault;
mod labels;
mod paced;
mod parts;
mod read;
mod script;
#[cfg(test)]
mod tests;
mod told;
mod verb;
mod words;

pub use fault::{ScriptFault, ScriptKind};
pub use paced::is_paced;
pub use read::read_script;
pub use script::{Action, Line, Script};
