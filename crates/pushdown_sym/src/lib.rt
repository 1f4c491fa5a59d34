//! The symbolic pushdown system: for each kind and atom a diagram over the parent's label, by rounds.
#![tactic(auto)]

mod cell_rows;
mod cells;
mod children;
mod doors;
mod ends;
mod equations;
mod gathering;
mod laws;
mod links;
mod locals;
mod makers;
mod rounds;
mod starts;

pub use cells::{CellKey, Cells};
pub use ends::Ends;
pub use equations::Equations;
pub use laws::cells_tell;
pub use rounds::Round;
pub use starts::start_of;
