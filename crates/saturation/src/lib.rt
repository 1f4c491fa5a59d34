//! The fixpoint of the pushdown system, round by round, and summaries read from it.
#![tactic(auto)]

mod changes;
mod courses;
mod histories;
mod labels;
mod names;
mod parents;
mod reads;
mod rounds;
mod saturating;
mod shared;
mod tables;
mod waking;

pub use shared::SharedSummaries;
