//! The trace that a proof unfolds to.
use tp_base::{Items, Path};
use tree_sem::Step;

/// Steps, in their order. A contract sees the list of them.
pub type Steps = Items<Step>;

/// A trace: the steps that a proof unfolds to, and the node to which they lead.
#[derive(Drop)]
pub struct Unfolded {
    pub steps: Steps,
    pub at: Path,
}
