//! The rules of a simple system, indexed by the atoms that they look at.
#![tactic(auto)]

mod indexed_system;
mod places;

pub use indexed_system::IndexedSystem;
