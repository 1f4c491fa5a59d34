//! Sets of a tree's nodes as marks by number, and steps from one set to another. A step up or down maps one set to another, for
//! all nodes at once.
#![tactic(auto)]

mod marks;
mod numbered_tree;
mod passes;
mod rank_passes;
mod ranked_sets;
mod ranks;
mod walk;

pub use marks::Marks;
pub use numbered_tree::{Columns, NumberedTree};
pub use ranks::Ranks;
