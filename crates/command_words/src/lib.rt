//! The command line's options and names, read through `clap`.
#![tactic(auto)]

mod command;
mod matched;
mod numbers;
mod words;

pub use limits::MOST_PAGES;
pub use numbers::MOST_DIGITS;
pub use words::{Mode, Order, Word, Words, WordsFault, read_words};
