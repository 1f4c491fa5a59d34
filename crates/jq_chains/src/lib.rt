//! Chains while they are read: lists of calls that several chains share.
#![tactic(auto)]

mod marked_calls;
mod marks;
mod shared_calls;
mod shared_chains;

pub use marked_calls::{MarkedCall, MarkedChain};
pub use marks::{Unmarked, parted};
pub use shared_calls::SharedCalls;
pub use shared_chains::SharedChain;
