//! The answer for a selector.
use proof_check::{Proof, Unfolded};
use sel_text::Skip;

/// What is said of one selector of a sheet.
#[derive(Drop)]
pub enum Answer {
    /// It matches a node, as the proof shows, after so many steps, or after more where they are the greatest `u64`. They are
    /// shown where they are few enough for the caller.
    Used {
        proof: Proof,
        steps: u64,
        shown: Option<Unfolded>,
    },
    /// It matches a node after such steps by what is judged in the place of sharper calls. By the calls themselves the step of this
    /// number, counted from 0, is the first that isn't legal; or the steps were too many to be shown, and were not replayed.
    Maybe {
        proof: Proof,
        steps: u64,
        shown: Option<Unfolded>,
        broken: Option<usize>,
    },
    /// It matches a node after some steps, whose proof is larger than a budget.
    UsedUnshown,
    /// No steps lead to a node that the selector matches.
    Unused,
    /// It is not judged, for a cause that stands at this offset of the sheet.
    Skipped(Skip, usize),
    /// It was not found out within a budget.
    Spent,
}
