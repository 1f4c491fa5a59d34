//! The lines of what is found in a page and a sheet, and the command `premises` over any files.
#![tactic(auto)]

mod command;
mod described;
mod found;
mod lines;
mod loading;
mod report;
mod stops;
mod telling;
mod words;
mod writing;

pub use command::premises_command;
pub use stops::{Part, Status, Stop};
