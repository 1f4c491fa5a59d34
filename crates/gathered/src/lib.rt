//! Atoms as they come, and the set of them, made by one sort.
#![tactic(auto)]

mod gathered;
mod moving;

pub use gathered::Gathered;
