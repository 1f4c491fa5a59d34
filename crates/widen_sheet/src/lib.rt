//! The grammar of selectors that aren't judged, marks round what of them isn't, and the command `widen`.
#![tactic(auto)]

mod back;
mod brackets;
mod command;
mod described;
mod faults;
mod grammar;
mod laws;
mod marks;
mod parts;
mod stops;
mod telling;
mod tokens;
mod widening;
mod words;

pub use back::put_back;
pub use command::widen_command;
pub use faults::{BackFault, WidenFault};
pub use laws::{goes_back, pruned_goes_back, what_is_left_is_wider, widening_keeps_the_sheet};
pub use stops::{Status, Stop, Wrong};
pub use widening::widen;
pub use words::Way;
