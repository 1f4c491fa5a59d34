//! Rows by a kind and a label, each found by a hash of the two.
#![tactic(auto)]

mod pairs;
mod table;

pub use pairs::{hash_of, same_atoms};
pub use table::{PairTable, Row};
