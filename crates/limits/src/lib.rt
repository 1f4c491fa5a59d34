//! The budgets of a run, with their ranges and their standard values.
#![tactic(auto)]

mod budgets;
mod pages;

pub use budgets::{Limits, MOST_BRANCHES, MOST_ENTRIES, MOST_LIST, MOST_PAIRS, standard};
pub use pages::MOST_PAGES;
