//! A statement as a rewrite rule: a guard and an action.
#![tactic(auto)]

mod chains;
mod laws;
mod sets;
mod translation;

pub use laws::{guard_selects, rules_are_alike};
pub use translation::translate;
