//! A play over lanes and workers beside each other: lane 0 on the caller's thread, the other lanes and the workers each on one of their own.
#![tactic(auto)]

mod crew;
mod lane;
mod lanes;
mod lead;
mod patience;
mod steps;
#[cfg(test)]
mod tests;
mod together;

pub use together::play_together;
