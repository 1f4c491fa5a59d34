//! For each key a list of values.
#![tactic(auto)]

mod multimap;

pub use multimap::Multimap;
