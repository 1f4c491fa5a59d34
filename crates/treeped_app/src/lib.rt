//! The command in each of its modes, with the headline theorem.
#![tactic(auto)]

mod best;
mod laws;
mod loading;
mod pages;
mod pruning;
mod reading;
mod runs;
mod saying;
mod settling;
mod sites;
mod statuses;
mod tasks;
mod writing;

pub use command_words::{Order, Word, read_words};
pub use laws::{
    dead_does_nothing, dead_is_right, engines_agree, plain_is_right, prune_is_right, site_is_right,
};
pub use run_ends::{Fault, JudgeRefusal, Part, Refusal, Status, Stop};
pub use runs::treeped;
pub use triple_gen::{Triple, generate};
