//! The text of a lowered script: its assumptions and its statements, a line each.
#![tactic(auto)]

mod entries;
mod files;
mod given;
mod lines;
mod output;
mod quoting;

pub use entries::{assumption, statement};
pub use files::Placed;
pub use given::{Call, Entry, Form, Kind, Origin};
pub use lines::{HEADER, assumption_line, statement_line};
pub use output::{joined, line_in};
