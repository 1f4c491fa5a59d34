//! Proofs as certificates: validity, the count of their steps, the steps themselves.
#![tactic(auto)]

mod checking;
mod counting;
mod entry_checks;
mod firsts;
mod nodes;
mod page_checks;
mod premises;
mod proofs;
mod unfolded;

pub use checking::check;
pub use counting::{items_steps, steps};
pub use nodes::{Nodes, steps_of};
pub use proofs::{
    Below, Entries, Entry, PageItem, PageItems, Proof, ProofItem, ProofItems, Reason,
};
pub use unfolded::{Steps, Unfolded};
