//! What the passes of a play add, and the law that their parts make a whole.
#![tactic(auto)]

mod law;

pub use law::the_parts_make_a_whole;
