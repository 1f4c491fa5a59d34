//! The page with its least fixpoint: each node's label, and the round in which each atom came.
#![tactic(auto)]

mod closed;
mod first_rounds;
mod first_rows;
mod gains;
mod nodes;
mod notes;
mod page_labels;
mod shared_set;
mod spreading;

pub use closed::Closed;
pub use gains::{NodeGain, apply_gains};
pub use notes::are_all_missing;
pub use page_labels::PageLabels;
pub use shared_set::{SharedSet, SharedSets};
pub use spreading::spread;
