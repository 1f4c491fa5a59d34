//! A page whose children that are alike are folded to one.
#![tactic(auto)]

mod building;
mod candidates;
mod folding;
mod leads;
mod links;
mod page_builder;

pub use building::Folded;
pub use folding::folded;
