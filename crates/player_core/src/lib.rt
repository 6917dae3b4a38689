//! The play, on one thread and on many; the text of `inspect`, and the demonstration file.
#![tactic(auto)]

mod alone;
mod demo;
mod inspect;
mod law;
mod settle;
#[cfg(test)]
mod tests;
mod with_workers;

pub use alone::play_alone;
pub use demo::{DemoInput, demo_input};
pub use inspect::inspect_text;
pub use law::the_alone_history_is_one;
pub use serial_play::{Results, SerialEnd, paced_scripts_have_one_answer, serial_end};
pub use with_workers::play;
