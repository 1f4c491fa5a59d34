//! Exit statuses, why a run stops, and the line that says so.
#![tactic(auto)]

mod faults;
mod lines;
mod refusals;
mod status;
mod stops;
mod telling;

pub use faults::{page_stop, script_stop, sheet_stop};
pub use refusals::{Fault, JudgeRefusal, Part, Refusal};
pub use status::Status;
pub use stops::Stop;
pub use telling::tell;
