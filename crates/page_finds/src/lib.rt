//! Places of a page at which a browser does more than the model.
#![tactic(auto)]

mod left;
mod pages;
mod tag_names;
mod tags;
mod tree_names;
mod trees;

pub use pages::findings_in_page;
