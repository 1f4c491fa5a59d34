//! The translation of rules and guards into one simple system, with its law.
#![tactic(auto)]

mod asked;
mod assembly;
mod class_rules;
mod counting;
mod forest_nodes;
mod formula_numbers;
mod formula_rules;
mod formulas;
mod keys;
mod kinds;
mod node_numbers;
mod number_set;
mod seen_rules;
mod simplification;
mod simplified;
mod spawns;

pub use asked::Asked;
pub use simplification::{simplify, simplify_asked, steps_agree};
pub use simplified::{MOST_RULES, MOST_VISIBLE, Simplified, SimplifyFault};
