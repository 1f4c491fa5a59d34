//! Guards, which are positive formulas over a tree, where they hold, and a selector as a guard.
#![tactic(auto)]

mod copying;
mod evaluation;
mod guards;
mod of_selectors;
mod rules;

pub use evaluation::holds;
pub use guards::{Guard, GuardNode, Guards};
pub use of_selectors::{guard_matches, holds_at_image, of_compound, of_selector};
pub use rules::Rule;
