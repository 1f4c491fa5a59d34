//! Simultaneous composition of diagrams, the atoms that they look at, their size.
#![tactic(auto)]

mod branches;
mod composing;
mod looks;
mod memo;

pub use composing::compose;
pub use looks::{size, support};
