//! What stands at each token of real JavaScript: calls, writes, keys, computed members, declared names and texts.
#![tactic(auto)]

mod brackets;
mod patterns;
mod place;
mod places;
mod reading;
mod script;
mod steps;
mod uses;
mod words;
mod writes;

pub use brackets::Brackets;
pub use place::{Place, Use, Write};
pub use places::place_at;
pub use reading::read_brackets;
pub use script::Script;
