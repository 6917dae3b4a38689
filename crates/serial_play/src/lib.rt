//! The serial play of a paced script, and the law that every play of it has its answer.
#![tactic(auto)]

mod fed;
mod law;
mod outcome;
mod play;
#[cfg(test)]
mod tests;
mod track;
mod work;

pub use law::paced_scripts_have_one_answer;
pub use outcome::{Results, SerialEnd, serial_end};
