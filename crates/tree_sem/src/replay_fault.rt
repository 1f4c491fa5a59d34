//! Why the replay of a list of changes stops.
use thiserror::Error;

/// Why a change of a list was not made. The number is that of the change, counted from 0.
#[derive(Clone, Copy, Debug, PartialEq, Eq, Error)]
pub enum ReplayFault {
    #[error("step {0} is not legal")]
    IllegalStep(usize),
    #[error("step {0} makes too many nodes")]
    TooManyNodes(usize),
    #[error("no memory at step {0}")]
    Memory(usize),
}
