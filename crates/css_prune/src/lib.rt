//! A sheet without its unused selectors, and why it has the same effects.
#![tactic(auto)]

mod copying;
mod cuts;
mod fixing;
mod holders;
mod laws;
mod lists;
mod parts;
mod pruning;
mod rules;

pub use laws::{
    alike_sheets_are_pruned_alike, pruning_keeps_the_effects,
    pruning_keeps_the_effects_of_each_page,
};
pub use pruning::prune;
