//! The samples of a movie fragment with their protection.
#![tactic(auto)]

mod auxiliary;
mod checked;
mod fault;
mod first;
mod fragment;
mod groups;
mod inits;
mod laying;
mod protection;
mod sample_data;
mod samples;
mod spans;
#[cfg(test)]
mod tests;

pub use fault::{AuxFault, AuxKind};
pub use fragment::{Room, resolve, resolve_known};
pub use inits::init_data_of;
pub use protection::{MovieProtection, TrackProtection, check_movie, read_protection};
