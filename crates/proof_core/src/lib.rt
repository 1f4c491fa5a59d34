//! The unfolding of a proof to steps, and its soundness.
#![tactic(auto)]

mod keyed_list;
mod laws;
mod node_passes;
mod page_passes;
mod passes;
mod trails;
mod unfolded;
mod walks;
mod worlds;

pub use laws::{Reading, unfolding_is_right, valid_shows};
pub use proof_check::{
    Below, Entries, Entry, PageItem, PageItems, Proof, ProofItem, ProofItems, Reason, Steps,
    Unfolded, check, steps,
};
pub use unfolded::{MOST_LISTED, UnfoldFault, unfold};
