//! For each key a row of values, such as the places in a list at which the key stands.
#![tactic(auto)]

mod held;
mod index;
mod rows;

pub use index::Index;
pub use rows::Rows;
