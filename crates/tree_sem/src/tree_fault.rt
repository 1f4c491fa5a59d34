//! The limit on the nodes of a tree, and why a call on a tree fails.
ghost use Rattle.std.specs.Prelude.{◌≡◌};

use thiserror::Error;
use tp_base::OutOfMemory;

/// How many nodes a tree can hold.
pub const MOST_NODES: u32 = 16_777_216;

/// Why a node isn't added.
#[derive(Debug, PartialEq, Eq, Drop, Error)]
pub enum TreeFault {
    #[error("no node is there")]
    NoSuchNode,
    #[error("more than {MOST_NODES} nodes")]
    TooManyNodes,
    #[error("no memory")]
    Memory,
}

impl<E: OutOfMemory> From<E> for TreeFault {
    ghost use Rattle.tree_sem.specs.declared.tree_fault.TreeFault.TheVariants.{Memory};

    ghost from_gives = { λ _ e. e ≡ Memory };

    fn from(_error: E) -> TreeFault {
        TreeFault::Memory
    }
}
