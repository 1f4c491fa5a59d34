//! The generator of rings: a page, a sheet and a script of any size.
#![tactic(auto)]

mod texts;
mod triple;

pub use texts::Text;
pub use triple::{MOST_BOXES, Triple, generate};
