//! Which premises a proof needs, each once, in a topological order.
#![tactic(auto)]

mod names;
mod needs;
mod numbers;
mod orders;
mod spots;
mod wants;

pub use names::numbers_of;
pub use needs::{Choice, Draft, Needs, Tie, follow, from_of};
pub use numbers::number_of;
pub use orders::{Order, Orders, orders_of};
pub use spots::{Spot, TripleKey, Want, node_number, path_of, triple_number};
pub use wants::want;
