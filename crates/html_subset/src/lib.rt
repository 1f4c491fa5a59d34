//! The parser of pages and markup, from tokens to a tree.
#![tactic(auto)]

mod builder;
mod faults;
mod labels;
mod name_table;
mod reading;
mod roots;

pub use faults::{MOST_DEPTH, MOST_PAGE_NODES, PageFault};
pub use reading::{read_forest, read_page};
