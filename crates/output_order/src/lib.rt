//! The texts of a history, and what makes one complete.
#![tactic(auto)]

mod effect;
mod entry;
mod law;
mod log;
mod marks;
mod names;
mod since;
mod summary;
#[cfg(test)]
mod tests;
mod track;

pub use law::{
    news_beyond_nothing_are_all, texts_go_on, the_log_determines_the_history,
    what_is_complete_is_begun,
};
pub use log::log_text;
pub use marks::{Counts, Mark};
pub use names::{hex_text, init_name};
pub use since::{News, news_since};
pub use summary::summary_text;
pub use track::track_bytes;
