//! The player: its command line, the files that it reads and writes, and its top call.
#![tactic(auto)]

mod demo;
mod desk;
mod end;
mod fault;
mod inputs;
mod inspect;
mod outcome;
mod play;
mod quiet;
mod read;
mod request;
mod seal;
mod seal_words;
mod tell;
#[cfg(test)]
mod tests;
mod texts;
mod top;
mod words;
mod write;

pub use decrypt_workers::{FreeGate, Gate, Spot};
pub use eme_edge::{UsageFault, UsageKind};
pub use fault::{fault_text, status};
pub use license_desk::DeskKind;
pub use outcome::{Outcome, SealKind, Which};
pub use script_lang::ScriptKind;
pub use top::{run_player, run_quiet};
pub use track_media::MediaKind;
