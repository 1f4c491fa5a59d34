//! Tests of the command on files that are cut at each byte, and on rings.
#![tactic(auto)]

mod room_sink;
mod sure_runs;

pub use room_sink::RoomSink;
pub use sure_runs::{errors_of, sure_run};

#[cfg(test)]
mod cuts;
#[cfg(test)]
mod tests;
