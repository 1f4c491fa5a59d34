//! Reduced ordered decision diagrams of monotone conditions, with their unique table and memo. Equal diagrams have equal references.
#![tactic(auto)]

mod atom_sets;
mod diagrams;
mod faults;
mod marks;
mod memo;
mod refs;
mod table;
mod variables;

pub use atom_sets::{AtomSet, are_worth_marks};
pub use diagrams::Diagrams;
pub use faults::DiagramFault;
pub use marks::Marks;
pub use refs::Ref;
