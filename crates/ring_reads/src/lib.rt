//! Laws: the texts of each ring are read.
#![tactic(auto)]

mod laws;

pub use laws::{classes_are_read, ring_scripts_are_words, rings_are_read, short_sheets_are_read};
