//! Brackets of real JavaScript, and members by a text in brackets.
#![tactic(auto)]

mod code;
mod members;
mod pairs;

pub use code::{Code, read_code};
