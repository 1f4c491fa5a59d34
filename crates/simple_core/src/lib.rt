//! Simple systems, whose rules look at one node and the next one, and their fixpoint in rounds.
#![tactic(auto)]

mod copying;
mod givers;
mod growth;
mod rules;
mod summaries;
mod system;

pub use givers::{AllGivers, Givers};
pub use growth::{brings_closed, keeps_growth, keeps_out};
pub use rules::{Kind, Link, Local, Spawn};
pub use summaries::{First, GainFault, Summaries};
pub use system::{Kinds, Links, Locals, MOST_KINDS, Spawns, System};
