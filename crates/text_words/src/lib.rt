//! The words of a text: lines, words, pieces, fronts, decimal numbers and hexadecimal words. A text is a list of bytes.
#![tactic(auto)]

mod fronts;
mod hexadecimal;
mod lines;
mod numbers;
mod pieces;
#[cfg(test)]
mod tests;
mod words;

pub use fronts::{begins, behind, split_front};
pub use hexadecimal::{hex_bytes, is_hex};
pub use lines::next_line;
pub use numbers::{are_digits, number_up_to};
pub use pieces::Pieces;
pub use words::{cut_word, is_word, next_word};
