//! What real JavaScript gives at each of its tokens: calls that give classes.
#![tactic(auto)]

mod classes;
mod script;
mod values;
mod words;

pub use classes::class_gifts;
pub use script::Script;
