//! Summaries of added nodes by a worklist over pairs of a kind and a label.
#![tactic(auto)]

mod agenda;
mod asking;
mod entries;
mod entry_table;
mod filling;
mod gaining;
mod rows;
mod settling;
mod table;
mod turning;

pub use table::PlainSummaries;
